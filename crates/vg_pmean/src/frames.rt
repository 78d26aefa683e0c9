//! Frames for calls inside calls.

ghost use Rattle.std.specs.Prelude.{◌≡◌, ◌+◌, ◌*◌, ◌≤◌, [], replicate, length, vec_len, IfOk};
ghost use Rattle.vg_base.specs.Bits.{bits, bits_of_bytes, num};
ghost use Rattle.vg_script.specs.Views.{script_of, whole_of};
ghost use Rattle.vg_pmean.specs.Applied.{given, left_in_dst};
ghost use Rattle.vg_pmean.specs.Held.{Alike};
ghost use Rattle.vg_pmean.specs.FrameRoom.{Suffices, around, script_room};

use crate::cells::Cells;
use crate::frame_room::FrameRoom;
use crate::instance::Instance;
use std::alloc::{AllocError, Global};
use std::marker::Model;
use vg_bits::Reg;

/// The greatest number of bytes that frames may have.
const MAX_BYTES: usize = 268_435_456;

/// Frames, as many as their room says. Contracts see the room.
#[derive(Drop)]
pub(crate) struct Frames {
    cells: Cells,
    free: Vec<Cells>,
}

impl Model for Frames {
    ghost use Rattle.std.specs.Prelude.{◌+◌, ◌≤◌, length};
    ghost use Rattle.vg_pmean.specs.declared.frame_room.FrameRoom.{FrameRoom};
    ghost use Rattle.vg_pmean.specs.Held.{Alike};

    ghost Value = { FrameRoom };

    ghost view = { λ f. f.cells.room };

    ghost invariant = { λ f. Alike f.cells.room f.free.items ×
        (f.cells.room.frames ≤ length f.free.items + 1) };
}

/// How many bytes a frame has, at most.
fn bytes_of(room: FrameRoom) -> usize {
    room.registers
        .saturating_add(room.variables)
        .saturating_mul(16)
        .saturating_add(room.bits / 4)
}

/// How many bytes the frames of a room have, at most.
pub(crate) fn frame_bytes(room: FrameRoom) -> usize {
    bytes_of(room).saturating_mul(room.frames)
}

/// The frames but the first.
#[tactic(auto, using(crate::proofs::Entering::alike_more))]
fn free_frames(alloc: Global, room: FrameRoom) -> Result<Vec<Cells>, AllocError>
    ensures alike { IfOk result (λ free. Alike room free.items) }
    ensures count { IfOk result (λ free. room.frames ≤ length free.items + 1) }
{
    let mut free = Vec::new(alloc);
    'frames: while free.len() + 1 < room.frames {
        free.push(Cells::new(alloc, room)?)?;
    }
    Ok(free)
}

impl Frames {
    /// Frames with this room, or want of memory, also where they would have more than 2^28 bytes.
    pub(crate) fn new(alloc: Global, room: FrameRoom) -> Result<Frames, AllocError>
        ensures { IfOk result (λ frames. frames ≡ room) }
    {
        if frame_bytes(room) > MAX_BYTES {
            return Err(AllocError);
        }
        let cells = Cells::new(alloc, room)?;
        let free = free_frames(alloc, room)?;
        Ok(Frames { cells, free })
    }

    /// What an instance leaves in dst.
    pub(crate) fn answer<const B: usize>(
        &mut self,
        instance: &Instance,
        params: &[Reg<B>],
        imm: u8,
    ) -> Reg<B>
        requires { Suffices (around instance.now.whole.widths instance.now.whole.variables
            (script_room (script_of instance.now.whole.script))) self.old self.old.frames }
        ensures bits { bits_of_bytes result.bytes ≡
            bits (8 * B) (num (left_in_dst (whole_of instance.now.whole) (given params.now imm))) }
        ensures same { self.new ≡ self.old }
    {
        instance.answer(params, imm, &mut self.cells, &mut self.free)
    }
}
