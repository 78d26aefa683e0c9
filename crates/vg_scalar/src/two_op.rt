//! Operations on two numbers of one width.

ghost use Rattle.std.specs.Prelude.{◌≡◌, ◌^◌, ◌<◌};
ghost use Rattle.vg_base.specs.Width.{bits_of};
ghost use Rattle.vg_scalar.specs.Scalar.{two_result};

use crate::low::{is_less_signed, low};
use vg_base::width::Width;

/// An operation on two numbers of one width, which gives a number of that width.
#[derive(Clone, Copy, Debug, PartialEq, Eq)]
pub enum TwoOp {
    /// The sum, modulo 2 to the width, as the difference and the product.
    Add,
    Sub,
    Mul,
    /// Bit by bit.
    And,
    Or,
    Xor,
    /// The least and the greatest in two's complement.
    Smin,
    Smax,
    /// The least and the greatest of numbers without a sign.
    Umin,
    Umax,
}

impl TwoOp {
    /// The result, below 2 to the width. Of each number the low bits count.
    pub fn apply(self, width: Width, left: u64, right: u64) -> u64
        ensures is { result ≡ two_result self (bits_of width) left right }
        ensures below { result < 2 ^ bits_of width }
    {
        let first = low(width, left);
        let second = low(width, right);
        match self {
            TwoOp::Add => low(width, left.wrapping_add(right)),
            TwoOp::Sub => low(width, left.wrapping_sub(right)),
            TwoOp::Mul => low(width, left.wrapping_mul(right)),
            TwoOp::And => first & second,
            TwoOp::Or => first | second,
            TwoOp::Xor => first ^ second,
            TwoOp::Smin => if is_less_signed(width, left, right) {
                first
            } else {
                second
            },
            TwoOp::Smax => if is_less_signed(width, left, right) {
                second
            } else {
                first
            },
            TwoOp::Umin => first.min(second),
            TwoOp::Umax => first.max(second),
        }
    }
}
