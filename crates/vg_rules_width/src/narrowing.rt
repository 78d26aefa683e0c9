//! Operations in as few bits as hold their numbers, and extensions of numbers that are not negative.
#![tactic(auto, unfolding(crate::specs::Rules::narrow_product, crate::specs::Rules::narrow_extended_sum, crate::specs::Rules::sign_of_nonnegative))]

ghost use Rattle.std.specs.Prelude.{◌≡◌, ◌||◌, nat_lt, IfOk, IsSome, Some, is_some};
ghost use Rattle.vg_rules_width.specs.Rules.{extended_operation, narrow_extended_sum, narrow_product, narrowed, sign_of_nonnegative};
ghost use Rattle.vg_terms.specs.Known.{known, known_at};
ghost use Rattle.vg_terms.specs.Term.{WellFormed, tree};

use std::alloc::{AllocError, Global};
use vg_terms::{OneOp, Term, TwoOp, low_two, make_one};

/// Whether the term is a product whose number is known to need fewer bits.
pub fn is_narrow_product(t: &Term) -> bool
    requires { WellFormed (tree t.now) }
    ensures { result ≡ is_some (narrow_product (tree t.now)) }
{
    t.opens(TwoOp::Mul) && is_narrower(t.known(), t.width())
}

/// A product whose number needs fewer bits is the extension of a product in those.
pub fn narrow_product(alloc: Global, t: Term) -> Result<Term, AllocError>
    requires well_formed { WellFormed (tree t) }
    requires applies { IsSome (narrow_product (tree t)) }
    ensures { IfOk result (λ new. narrow_product (tree t) ≡ Some (tree new)) }
{
    let widths = t.known();
    let width = t.width();
    let (x, y) = t.into_pair();
    narrowed(alloc, widths, width, width, TwoOp::Mul, x, y)
}

/// Whether the term is an extension of a sum whose number is known to need fewer bits.
pub fn is_narrow_extended_sum(t: &Term) -> bool
    requires { WellFormed (tree t.now) }
    ensures { result ≡ is_some (narrow_extended_sum (tree t.now)) }
{
    let sum = t.below();
    if !sum.opens(TwoOp::Add) {
        return false;
    }
    match t.one_op_or(OneOp::Trunc) {
        OneOp::Sext => is_narrower(sum.known(), sum.width()),
        OneOp::Zext => sum.known().0 < sum.width(),
        _ => false,
    }
}

/// An extension of a sum whose number needs fewer bits is one of a sum in those.
#[tactic(auto, unfolding(crate::specs::Rules::narrow_extended_sum), using(crate::proofs::Rows::narrow_extended_sum_is))]
pub fn narrow_extended_sum(alloc: Global, t: Term) -> Result<Term, AllocError>
    requires well_formed { WellFormed (tree t) }
    requires applies { IsSome (narrow_extended_sum (tree t)) }
    ensures { IfOk result (λ new. narrow_extended_sum (tree t) ≡ Some (tree new)) }
{
    let to = t.width();
    let sum = t.into_below();
    let widths = sum.known();
    let width = sum.width();
    let (x, y) = sum.into_pair();
    narrowed(alloc, widths, width, to, TwoOp::Add, x, y)
}

/// Whether the term is an extension by the sign of a number that is known not to be negative.
pub fn is_sign_of_nonnegative(t: &Term) -> bool
    requires { WellFormed (tree t.now) }
    ensures { result ≡ is_some (sign_of_nonnegative (tree t.now)) }
{
    let x = t.below();
    t.is_one(OneOp::Sext) && x.known().0 < x.width()
}

/// An extension by the sign of a number that is not negative is one by zeros.
pub fn sign_of_nonnegative(alloc: Global, t: Term) -> Result<Term, AllocError>
    requires well_formed { WellFormed (tree t) }
    requires applies { IsSome (sign_of_nonnegative (tree t)) }
    ensures { IfOk result (λ new. sign_of_nonnegative (tree t) ≡ Some (tree new)) }
{
    let width = t.width();
    make_one(alloc, OneOp::Zext, width, 0, t.into_below())
}

// Whether fewer than `width` bits hold a number of these known widths.
fn is_narrower(widths: (u32, u32), width: u32) -> bool
    ensures { result ≡ (nat_lt widths.0 width || nat_lt widths.1 width) }
{
    widths.0 < width || widths.1 < width
}

// The operation in the bits that hold its number, extended to `to` bits.
fn narrowed(
    alloc: Global,
    widths: (u32, u32),
    width: u32,
    to: u32,
    op: TwoOp,
    x: Term,
    y: Term,
) -> Result<Term, AllocError>
    requires { IsSome (narrowed (known_at widths.0 widths.1) width to op (tree x) (tree y)) }
    ensures { IfOk result (λ new. narrowed (known_at widths.0 widths.1) width to op (tree x) (tree
        y) ≡ Some (tree new)) }
{
    let (unsigned, signed) = widths;
    if unsigned < width {
        let part = low_two(alloc, op, unsigned, unsigned, x, y)?;
        make_one(alloc, OneOp::Zext, to, 0, part)
    } else {
        let part = low_two(alloc, op, signed, signed, x, y)?;
        make_one(alloc, OneOp::Sext, to, 0, part)
    }
}
