//! Registers.

ghost use Rattle.std.specs.Prelude.{◌≡◌, ◌+◌, ◌*◌, ◌^◌, ◌<◌, ◌≤◌, replicate};
ghost use Rattle.vg_base.specs.Bits.{bits, bits_of_bytes, num};
ghost use Rattle.vg_bits.specs.Range.{range, replaced};

use crate::bit_index::BitIndex;
use crate::bit_range;

/// A register of B bytes, the lowest first. It stands for the list of its 8 B bits, the lowest first.
#[derive(Clone, Copy)]
pub struct Reg<const B: usize> {
    pub bytes: [u8; B],
}

impl<const B: usize> Reg<B> {
    /// All bits are 0.
    pub fn zero() -> Reg<B>
        ensures { bits_of_bytes result.bytes ≡ replicate (8 * B) 0 }
    {
        Reg { bytes: [0; B] }
    }

    /// The number of the bits from `low` on, as many as the width, which is 1 to 128.
    pub fn get(&self, low: usize, width: usize) -> u128
        requires least { 1 ≤ width }
        requires most { width ≤ 128 }
        requires inside { low + width ≤ 8 * B }
        ensures bits { result ≡ num (range low width (bits_of_bytes self.now.bytes)) }
        ensures below { result < 2 ^ width }
    {
        bit_range::read(&self.bytes, BitIndex::new(low), width)
    }

    /// Puts the lowest bits of the value, as many as the width, which is 1 to 128, in the place of
    /// those from `low` on. The other bits stay.
    pub fn put(&mut self, low: usize, width: usize, value: u128)
        requires least { 1 ≤ width }
        requires most { width ≤ 128 }
        requires inside { low + width ≤ 8 * B }
        ensures { bits_of_bytes self.new.bytes
            ≡ replaced low (bits width value) (bits_of_bytes self.old.bytes) }
    {
        bit_range::write(&mut self.bytes, BitIndex::new(low), width, value);
    }

    /// Puts bits of another register, from `from_low` on and as many as the width, which may be any
    /// number, in the place of those from `low` on. The other bits stay.
    pub fn move_bits<const C: usize>(
        &mut self,
        low: usize,
        from: &Reg<C>,
        from_low: usize,
        width: usize,
    )
        requires inside { low + width ≤ 8 * B }
        requires from_inside { from_low + width ≤ 8 * C }
        ensures { bits_of_bytes self.new.bytes ≡ replaced low (range from_low width (bits_of_bytes
            from.now.bytes)) (bits_of_bytes self.old.bytes) }
    {
        bit_range::copy(
            &mut self.bytes,
            BitIndex::new(low),
            &from.bytes,
            BitIndex::new(from_low),
            width,
        );
    }
}
