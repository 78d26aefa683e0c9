//! Extensions of extensions; shifts by 0, of extensions and of shifts.
#![tactic(auto, unfolding(crate::specs::Rules::extend_extend, crate::specs::Rules::shift_by_zero, crate::specs::Rules::shift_of_extension, crate::specs::Rules::shift_of_shift))]

ghost use Rattle.std.specs.Prelude.{◌≡◌, ◌+◌, IfOk, IsSome, Some, is_some};
ghost use Rattle.vg_rules_width.specs.Rules.{extend_extend, shift_by_zero, shift_of_extension, shift_of_shift, shifted_far, shifted_sext, shifted_zext};
ghost use Rattle.vg_terms.specs.Term.{tree};

use std::alloc::{AllocError, Global};
use vg_terms::{OneOp, Term, make_const, make_one};

/// Whether the term is an extension of an extension by zeros, or by the sign of one by the sign.
pub fn is_extend_extend(t: &Term) -> bool
    ensures { result ≡ is_some (extend_extend (tree t.now)) }
{
    let inner = t.below();
    match t.one_op_or(OneOp::Trunc) {
        OneOp::Zext => inner.is_one(OneOp::Zext),
        OneOp::Sext => inner.is_one(OneOp::Zext) || inner.is_one(OneOp::Sext),
        _ => false,
    }
}

/// An extension of an extension is one extension, by zeros where the inner one is.
pub fn extend_extend(alloc: Global, t: Term) -> Result<Term, AllocError>
    requires { IsSome (extend_extend (tree t)) }
    ensures { IfOk result (λ new. extend_extend (tree t) ≡ Some (tree new)) }
{
    let width = t.width();
    let inner = t.into_below();
    make_one(
        alloc,
        inner.one_op_or(OneOp::Zext),
        width,
        0,
        inner.into_below(),
    )
}

/// Whether the term is a shift by 0.
pub fn is_shift_by_zero(t: &Term) -> bool
    ensures { result ≡ is_some (shift_by_zero (tree t.now)) }
{
    (t.is_one(OneOp::Lshr) || t.is_one(OneOp::Ashr)) && t.amount() == 0
}

/// A shift by 0 is the term below.
pub fn shift_by_zero(_alloc: Global, t: Term) -> Result<Term, AllocError>
    requires { IsSome (shift_by_zero (tree t)) }
    ensures { IfOk result (λ new. shift_by_zero (tree t) ≡ Some (tree new)) }
{
    Ok(t.into_below())
}

/// Whether the term is a shift of an extension that fills as the shift does, or with zeros.
pub fn is_shift_of_extension(t: &Term) -> bool
    ensures { result ≡ is_some (shift_of_extension (tree t.now)) }
{
    let inner = t.below();
    match t.one_op_or(OneOp::Trunc) {
        OneOp::Lshr => inner.is_one(OneOp::Zext),
        OneOp::Ashr => inner.is_one(OneOp::Zext) || inner.is_one(OneOp::Sext),
        _ => false,
    }
}

/// A shift of an extension is the extension of a shift; of zeros alone it is 0.
pub fn shift_of_extension(alloc: Global, t: Term) -> Result<Term, AllocError>
    requires { IsSome (shift_of_extension (tree t)) }
    ensures { IfOk result (λ new. shift_of_extension (tree t) ≡ Some (tree new)) }
{
    let (width, amount) = (t.width(), t.amount());
    let extension = t.into_below();
    if extension.is_one(OneOp::Sext) {
        shifted_sext(alloc, width, amount, extension.into_below())
    } else {
        shifted_zext(alloc, width, amount, extension.into_below())
    }
}

// Zeros stand above the term.
fn shifted_zext(alloc: Global, width: u32, amount: u32, x: Term) -> Result<Term, AllocError>
    ensures { IfOk result (λ term. tree term ≡ shifted_zext width amount (tree x)) }
{
    let inner = x.width();
    if amount < inner {
        let shift = make_one(alloc, OneOp::Lshr, inner, amount, x)?;
        make_one(alloc, OneOp::Zext, width, 0, shift)
    } else {
        Ok(make_const(width, 0))
    }
}

// Sign bits stand above the term.
fn shifted_sext(alloc: Global, width: u32, amount: u32, x: Term) -> Result<Term, AllocError>
    ensures { IfOk result (λ term. tree term ≡ shifted_sext width amount (tree x)) }
{
    let inner = x.width();
    let amount = amount.min(inner.saturating_sub(1));
    let shift = make_one(alloc, OneOp::Ashr, inner, amount, x)?;
    make_one(alloc, OneOp::Sext, width, 0, shift)
}

/// Whether the term is a shift of a shift of the same kind.
pub fn is_shift_of_shift(t: &Term) -> bool
    ensures { result ≡ is_some (shift_of_shift (tree t.now)) }
{
    let inner = t.below();
    (t.is_one(OneOp::Lshr) && inner.is_one(OneOp::Lshr))
        || (t.is_one(OneOp::Ashr) && inner.is_one(OneOp::Ashr))
}

/// A shift of a shift is one shift by the sum; at or past the width 0 is left, or the sign.
#[tactic(auto, unfolding(crate::specs::Rules::shift_of_shift), using(crate::proofs::Rows::shift_of_shift_is))]
pub fn shift_of_shift(alloc: Global, t: Term) -> Result<Term, AllocError>
    requires { IsSome (shift_of_shift (tree t)) }
    ensures { IfOk result (λ new. shift_of_shift (tree t) ≡ Some (tree new)) }
{
    let (op, width, amount) = (t.one_op_or(OneOp::Lshr), t.width(), t.amount());
    let inner = t.into_below();
    let first = inner.amount();
    shifted_twice(alloc, op, width, first, amount, inner.into_below())
}

// A shift by the sum of two amounts.
fn shifted_twice(
    alloc: Global,
    op: OneOp,
    width: u32,
    first: u32,
    second: u32,
    x: Term,
) -> Result<Term, AllocError>
    ensures { IfOk result (λ term. tree term ≡ shifted_far op width (first + second) (tree x)) }
{
    let amount = first.saturating_add(second);
    match op {
        OneOp::Ashr => make_one(alloc, op, width, amount.min(width.saturating_sub(1)), x),
        _ => {
            if amount < width {
                make_one(alloc, op, width, amount, x)
            } else {
                Ok(make_const(width, 0))
            }
        }
    }
}
