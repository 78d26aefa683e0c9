//! Truncations: of truncations, extensions, operations, selections and shifts.
#![tactic(auto, unfolding(crate::specs::Rules::truncate_truncate, crate::specs::Rules::truncate_extension, crate::specs::Rules::truncate_operation, crate::specs::Rules::truncate_selection, crate::specs::Rules::truncate_arithmetic_shift, crate::specs::Rules::truncate_logical_shift))]

ghost use Rattle.std.specs.Prelude.{◌≡◌, ◌+◌, ◌<◌, ◌^◌, IfOk, IsSome, Some, is_some};
ghost use Rattle.vg_rules_width.specs.Rules.{low_of_shift, resized, truncate_arithmetic_shift, truncate_extension, truncate_logical_shift, truncate_operation, truncate_selection, truncate_truncate};
ghost use Rattle.vg_terms.specs.Term.{tree};

use std::alloc::{AllocError, Global};
use vg_terms::{OneOp, Term, TwoOp, low_part, low_two, make_one, make_sel};

/// Whether the term is a truncation of a truncation.
pub fn is_truncate_truncate(t: &Term) -> bool
    ensures { result ≡ is_some (truncate_truncate (tree t.now)) }
{
    t.is_one(OneOp::Trunc) && t.below().is_one(OneOp::Trunc)
}

/// A truncation of a truncation is one truncation.
pub fn truncate_truncate(alloc: Global, t: Term) -> Result<Term, AllocError>
    requires { IsSome (truncate_truncate (tree t)) }
    ensures { IfOk result (λ new. truncate_truncate (tree t) ≡ Some (tree new)) }
{
    let width = t.width();
    low_part(alloc, width, t.into_below().into_below())
}

/// Whether the term is a truncation of an extension.
pub fn is_truncate_extension(t: &Term) -> bool
    ensures { result ≡ is_some (truncate_extension (tree t.now)) }
{
    let inner = t.below();
    t.is_one(OneOp::Trunc) && (inner.is_one(OneOp::Zext) || inner.is_one(OneOp::Sext))
}

/// A truncation of an extension is low bits of what is extended, or an extension to fewer bits.
pub fn truncate_extension(alloc: Global, t: Term) -> Result<Term, AllocError>
    requires { IsSome (truncate_extension (tree t)) }
    ensures { IfOk result (λ new. truncate_extension (tree t) ≡ Some (tree new)) }
{
    let width = t.width();
    let extension = t.into_below();
    let op = extension.one_op_or(OneOp::Zext);
    resized(alloc, op, width, extension.into_below())
}

// Bits of an extension.
fn resized(alloc: Global, op: OneOp, width: u32, x: Term) -> Result<Term, AllocError>
    ensures { IfOk result (λ term. tree term ≡ resized op width (tree x)) }
{
    if width <= x.width() {
        low_part(alloc, width, x)
    } else {
        make_one(alloc, op, width, 0, x)
    }
}

/// Whether the term is a truncation of a sum, a product or a bitwise operation.
pub fn is_truncate_operation(t: &Term) -> bool
    ensures { result ≡ is_some (truncate_operation (tree t.now)) }
{
    t.is_one(OneOp::Trunc) && t.below().two_op_or(TwoOp::Cat).keeps_low()
}

/// Low bits of a sum, a product or a bitwise operation come from low bits.
pub fn truncate_operation(alloc: Global, t: Term) -> Result<Term, AllocError>
    requires { IsSome (truncate_operation (tree t)) }
    ensures { IfOk result (λ new. truncate_operation (tree t) ≡ Some (tree new)) }
{
    let width = t.width();
    let operation = t.into_below();
    let op = operation.two_op_or(TwoOp::Add);
    let (x, y) = operation.into_pair();
    low_two(alloc, op, width, width, x, y)
}

/// Whether the term is a truncation of a selection.
pub fn is_truncate_selection(t: &Term) -> bool
    ensures { result ≡ is_some (truncate_selection (tree t.now)) }
{
    match t {
        Term::One {
            op: OneOp::Trunc,
            x,
            ..
        } => matches!(&**x, Term::Sel { .. }),
        _ => false,
    }
}

/// A truncation of a selection is the selection of truncations.
pub fn truncate_selection(alloc: Global, t: Term) -> Result<Term, AllocError>
    requires { IsSome (truncate_selection (tree t)) }
    ensures { IfOk result (λ new. truncate_selection (tree t) ≡ Some (tree new)) }
{
    let width = t.width();
    let (c, x, y) = t.into_below().into_selection();
    let x = low_part(alloc, width, x)?;
    let y = low_part(alloc, width, y)?;
    make_sel(alloc, width, c, x, y)
}

/// Whether the term is bits below the sign that a shift with sign has moved.
pub fn is_truncate_arithmetic_shift(t: &Term) -> bool
    ensures { result ≡ is_some (truncate_arithmetic_shift (tree t.now)) }
{
    let shift = t.below();
    t.is_one(OneOp::Trunc)
        && shift.is_one(OneOp::Ashr)
        && t.width() as u64 + shift.amount() as u64 <= shift.width() as u64
}

/// Bits below the sign that a shift with sign has moved are those of the shift without.
pub fn truncate_arithmetic_shift(alloc: Global, t: Term) -> Result<Term, AllocError>
    requires { IsSome (truncate_arithmetic_shift (tree t)) }
    ensures { IfOk result (λ new. truncate_arithmetic_shift (tree t) ≡ Some (tree new)) }
{
    let bits = t.width();
    let shift = t.into_below();
    let (width, amount) = (shift.width(), shift.amount());
    let shift = make_one(alloc, OneOp::Lshr, width, amount, shift.into_below())?;
    make_one(alloc, OneOp::Trunc, bits, 0, shift)
}

/// Whether the term is bits of a shift that do not reach the top of what is shifted.
pub fn is_truncate_logical_shift(t: &Term) -> bool
    ensures { result ≡ is_some (truncate_logical_shift (tree t.now)) }
{
    let shift = t.below();
    t.is_one(OneOp::Trunc)
        && shift.is_one(OneOp::Lshr)
        && (t.width() as u64 + shift.amount() as u64) < shift.width() as u64
}

/// Of a term whose top bits are cut off after a shift only the bits below are shifted.
#[tactic(auto, unfolding(crate::specs::Rules::truncate_logical_shift), using(crate::proofs::Rows::truncate_logical_shift_is, crate::proofs::Rows::truncate_logical_shift_fits))]
pub fn truncate_logical_shift(alloc: Global, t: Term) -> Result<Term, AllocError>
    requires { IsSome (truncate_logical_shift (tree t)) }
    ensures { IfOk result (λ new. truncate_logical_shift (tree t) ≡ Some (tree new)) }
{
    let bits = t.width();
    let shift = t.into_below();
    let amount = shift.amount();
    low_of_shift(alloc, bits, amount, shift.into_below())
}

// The bits of a shift, of no more bits than they come from.
fn low_of_shift(alloc: Global, bits: u32, amount: u32, x: Term) -> Result<Term, AllocError>
    requires { bits + amount < 2 ^ 32 }
    ensures { IfOk result (λ term. tree term ≡ low_of_shift bits amount (tree x)) }
{
    let below = low_part(alloc, bits + amount, x)?;
    let shift = make_one(alloc, OneOp::Lshr, bits + amount, amount, below)?;
    low_part(alloc, bits, shift)
}
