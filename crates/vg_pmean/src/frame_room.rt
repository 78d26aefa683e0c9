//! Room for frames.

ghost use Rattle.std.specs.Prelude.{◌≡◌, ◌+◌, length, IfOk};
ghost use Rattle.vg_pmean.specs.Extent.{total};
ghost use Rattle.vg_pmean.specs.FrameRoom.{around, either, no_room};

use std::alloc::AllocError;

/// How many frames are in use at once, and how much the greatest ones hold.
#[derive(Clone, Copy)]
pub struct FrameRoom {
    /// How many frames are in use at once.
    pub frames: usize,
    /// How many registers of a frame.
    pub registers: usize,
    /// How many variables of a frame.
    pub variables: usize,
    /// The bits of all registers of a frame.
    pub bits: usize,
}

/// The sum of the widths, or want of memory where it is past what an address can say.
#[tactic(auto, using(crate::proofs::Laying::total_next))]
fn sum_of(widths: &[u128]) -> Result<usize, AllocError>
    ensures { IfOk result (λ n. n ≡ total widths.now) }
{
    let mut sum: usize = 0;
    'widths: for width in widths {
        sum = with_width(sum, *width)?;
    }
    Ok(sum)
}

fn with_width(sum: usize, width: u128) -> Result<usize, AllocError>
    ensures { IfOk result (λ n. n ≡ sum + width) }
{
    if width > usize::MAX as u128 {
        return Err(AllocError);
    }
    match sum.checked_add(width as usize) {
        Some(all) => Ok(all),
        None => Err(AllocError),
    }
}

impl FrameRoom {
    /// No room at all.
    pub(crate) fn nothing() -> FrameRoom
        ensures { result ≡ no_room }
    {
        FrameRoom {
            frames: 0,
            registers: 0,
            variables: 0,
            bits: 0,
        }
    }

    /// Room for either need.
    pub(crate) fn either(self, other: FrameRoom) -> FrameRoom
        ensures { result ≡ either self other }
    {
        FrameRoom {
            frames: self.frames.max(other.frames),
            registers: self.registers.max(other.registers),
            variables: self.variables.max(other.variables),
            bits: self.bits.max(other.bits),
        }
    }

    /// Room for a frame of these registers and so many variables, and for what it needs inside.
    /// Fails for want of memory where it is more than an address can say.
    pub(crate) fn around(self, widths: &[u128], variables: usize) -> Result<FrameRoom, AllocError>
        ensures { IfOk result (λ room. room ≡ around widths.now variables self) }
    {
        let bits = sum_of(widths)?;
        match self.frames.checked_add(1) {
            None => Err(AllocError),
            Some(frames) => Ok(FrameRoom {
                frames,
                registers: self.registers.max(widths.len()),
                variables: self.variables.max(variables),
                bits: self.bits.max(bits),
            }),
        }
    }
}
