//! Terms cut to fewer bits.

ghost use Rattle.std.specs.Prelude.{◌≡◌, IfOk};
ghost use Rattle.vg_terms.specs.Resize.{keeps_low, low, low_two};
ghost use Rattle.vg_terms.specs.Term.{tree};

use crate::term::{OneOp, Term, TwoOp, make_one, make_two};
use std::alloc::{AllocError, Global};

impl TwoOp {
    /// Whether the low bits of the operation are those of the operation on low bits.
    pub fn keeps_low(self) -> bool
        ensures { result ≡ keeps_low self }
    {
        match self {
            TwoOp::Add => true,
            TwoOp::Mul => true,
            TwoOp::And => true,
            TwoOp::Or => true,
            TwoOp::Xor => true,
            _ => false,
        }
    }
}

/// The low `width` bits of a term: the term itself where that is its width, else its truncation, which
/// is well-formed where `width` is from 1 to less than the width of the term. Fails for want of memory alone.
pub fn low_part(alloc: Global, width: u32, x: Term) -> Result<Term, AllocError>
    ensures { IfOk result (λ term. tree term ≡ low width (tree x)) }
{
    if x.width() == width {
        Ok(x)
    } else {
        make_one(alloc, OneOp::Trunc, width, 0, x)
    }
}

/// An operation of this width on the low `bits` bits of two terms. Fails for want of memory alone.
pub fn low_two(
    alloc: Global,
    op: TwoOp,
    width: u32,
    bits: u32,
    x: Term,
    y: Term,
) -> Result<Term, AllocError>
    ensures { IfOk result (λ term. tree term ≡ low_two op width bits (tree x) (tree y)) }
{
    let x = low_part(alloc, bits, x)?;
    let y = low_part(alloc, bits, y)?;
    make_two(alloc, op, width, x, y)
}
