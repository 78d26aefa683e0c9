//! Changes of width.

ghost use Rattle.std.specs.Prelude.{◌≡◌, ◌^◌, ◌<◌, ◌≤◌};
ghost use Rattle.vg_base.specs.Width.{bits_of};
ghost use Rattle.vg_scalar.specs.Scalar.{resize_result};

use crate::low::{low, low_of_whole, low_signed};
use vg_base::width::Width;

/// A change of width.
#[derive(Clone, Copy, Debug)]
pub enum Resize {
    /// To more bits, the sign in the new ones.
    Sext,
    /// To more bits, zeros in the new ones.
    Zext,
    /// To fewer bits, the low ones.
    Trunc,
}

impl Resize {
    /// A number of the width `from` at the width `to`, below 2 to that. Of the number the low bits count.
    pub fn apply(self, to: Width, from: Width, number: u64) -> u64
        ensures is { result ≡ resize_result self (bits_of to) (bits_of from) number }
    {
        match self {
            Resize::Sext => low_of_whole(to, low_signed(from, number)),
            Resize::Zext => low(from, number),
            Resize::Trunc => low(to, number),
        }
    }
}
