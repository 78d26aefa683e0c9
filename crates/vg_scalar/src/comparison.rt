//! Comparisons.

ghost use Rattle.std.specs.Prelude.{◌≡◌, if◌then◌else◌};
ghost use Rattle.vg_base.specs.Width.{bits_of};
ghost use Rattle.vg_scalar.specs.Scalar.{comparison_result};

use crate::low::{is_less_signed, low};
use vg_base::width::Width;

/// A comparison of two numbers of one width, which gives a number of one bit.
#[derive(Clone, Copy, Debug)]
pub enum Comparison {
    /// The two are equal.
    Eq,
    /// The first is less in two's complement.
    Slt,
    /// The first is less, both without a sign.
    Ult,
}

impl Comparison {
    /// 1 where it holds, else 0. Of each number the low bits count.
    pub fn apply(self, width: Width, left: u64, right: u64) -> u64
        ensures { result ≡ comparison_result self (bits_of width) left right }
    {
        let first = low(width, left);
        let second = low(width, right);
        match self {
            Comparison::Eq => bit(first == second),
            Comparison::Slt => bit(is_less_signed(width, left, right)),
            Comparison::Ult => bit(first < second),
        }
    }
}

fn bit(holds: bool) -> u64
    ensures { result ≡ (if holds then 1 else 0) }
{
    if holds { 1 } else { 0 }
}
