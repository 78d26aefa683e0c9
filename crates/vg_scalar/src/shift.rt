//! Shifts.

ghost use Rattle.std.specs.Prelude.{◌≡◌, ◌<◌};
ghost use Rattle.vg_base.specs.Width.{bits_of};
ghost use Rattle.vg_scalar.specs.Scalar.{shift_result};

use crate::low::{low, low_of_whole, low_signed};
use vg_base::width::Width;

/// A shift of a number by a number of places below its width.
#[derive(Clone, Copy, Debug)]
pub enum Shift {
    /// To the left, zeros coming in.
    Shl,
    /// To the right, zeros coming in.
    Lshr,
    /// To the right, the sign coming in.
    Ashr,
}

impl Shift {
    /// The result, below 2 to the width. Of the number the low bits count; a shift by the width or more leaves zeros, or
    /// under `Ashr` the sign alone.
    pub fn apply(self, width: Width, amount: u32, number: u64) -> u64
        ensures { result ≡ shift_result self (bits_of width) amount number }
    {
        if amount < width.bits() {
            return self.within(width, amount, number);
        }
        match self {
            Shift::Shl => 0,
            Shift::Lshr => 0,
            Shift::Ashr => self.within(width, width.bits() - 1, number),
        }
    }

    /// A shift by fewer places than there are bits.
    fn within(self, width: Width, amount: u32, number: u64) -> u64
        requires { amount < bits_of width }
        ensures { result ≡ shift_result self (bits_of width) amount number }
    {
        match self {
            Shift::Shl => low(width, number << amount),
            Shift::Lshr => low(width, number) >> amount,
            Shift::Ashr => low_of_whole(width, low_signed(width, number) >> amount),
        }
    }
}
