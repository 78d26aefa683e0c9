//! Least, greatest and comparisons in as many bits as hold both numbers.
#![tactic(auto, unfolding(crate::specs::Rules::narrow_least_or_greatest, crate::specs::Rules::narrow_comparison))]

ghost use Rattle.std.specs.Prelude.{◌≡◌, ◌&&◌, ◌||◌, nat_lt, IfOk, IsSome, Some, is_some};
ghost use Rattle.vg_rules_choice.specs.Rules.{both_known, is_choice, is_comparison, may_read_signed, narrow_comparison, narrow_least_or_greatest, narrowed_choice, narrowed_comparison, read_unsigned};
ghost use Rattle.vg_terms.specs.Table.{Applies};
ghost use Rattle.vg_terms.specs.Term.{WellFormed, tree};

use std::alloc::{AllocError, Global};
use vg_terms::known::Known;
use vg_terms::{OneOp, Term, TwoOp, low_two, make_one};

/// Whether the term is a least or greatest in more bits than hold both its operands.
pub fn is_narrow_least_or_greatest(t: &Term) -> bool
    requires { WellFormed (tree t.now) }
    ensures { result ≡ is_some (narrow_least_or_greatest (tree t.now)) }
{
    match t {
        Term::Two { op, width, x, y } => {
            is_choice(*op) && is_narrower(*op, *width, both_known(x, y))
        }
        _ => false,
    }
}

/// A least or greatest in more bits than hold both its operands is that in those bits, extended.
pub fn narrow_least_or_greatest(alloc: Global, t: Term) -> Result<Term, AllocError>
    requires well_formed { WellFormed (tree t) }
    requires applies { IsSome (narrow_least_or_greatest (tree t)) }
    ensures { IfOk result (λ new. Applies narrow_least_or_greatest (tree t) (tree new)) }
{
    match t {
        Term::Two { op, width, x, y } => {
            let known = both_known(&x, &y);
            let x = Box::into_inner(x);
            let y = Box::into_inner(y);
            narrowed_choice(alloc, op, width, known, x, y)
        }
        other => Ok(other),
    }
}

fn narrowed_choice(
    alloc: Global,
    op: TwoOp,
    width: u32,
    known: Known,
    x: Term,
    y: Term,
) -> Result<Term, AllocError>
    requires { IsSome (narrowed_choice op width known (tree x) (tree y)) }
    ensures { IfOk result (λ new. narrowed_choice op width known (tree x) (tree y) ≡ Some (tree
        new)) }
{
    if known.unsigned < width {
        let part = low_two(
            alloc,
            read_unsigned(op),
            known.unsigned,
            known.unsigned,
            x,
            y,
        )?;
        make_one(alloc, OneOp::Zext, width, 0, part)
    } else {
        let part = low_two(alloc, op, known.signed, known.signed, x, y)?;
        make_one(alloc, OneOp::Sext, width, 0, part)
    }
}

/// Whether the term is a comparison in more bits than hold both its operands.
pub fn is_narrow_comparison(t: &Term) -> bool
    requires { WellFormed (tree t.now) }
    ensures { result ≡ is_some (narrow_comparison (tree t.now)) }
{
    match t {
        Term::Two { op, x, y, .. } => {
            is_comparison(*op) && is_narrower(*op, x.width(), both_known(x, y))
        }
        _ => false,
    }
}

/// A comparison in more bits than hold both its operands is that in those bits.
pub fn narrow_comparison(alloc: Global, t: Term) -> Result<Term, AllocError>
    requires well_formed { WellFormed (tree t) }
    requires applies { IsSome (narrow_comparison (tree t)) }
    ensures { IfOk result (λ new. Applies narrow_comparison (tree t) (tree new)) }
{
    match t {
        Term::Two { op, x, y, .. } => {
            let known = both_known(&x, &y);
            let width = x.width();
            let x = Box::into_inner(x);
            let y = Box::into_inner(y);
            narrowed_comparison(alloc, op, width, known, x, y)
        }
        other => Ok(other),
    }
}

fn narrowed_comparison(
    alloc: Global,
    op: TwoOp,
    width: u32,
    known: Known,
    x: Term,
    y: Term,
) -> Result<Term, AllocError>
    requires { IsSome (narrowed_comparison op width known (tree x) (tree y)) }
    ensures { IfOk result (λ new. narrowed_comparison op width known (tree x) (tree y) ≡ Some (tree
        new)) }
{
    if known.unsigned < width {
        low_two(alloc, read_unsigned(op), 1, known.unsigned, x, y)
    } else {
        low_two(alloc, op, 1, known.signed, x, y)
    }
}

// Bits that hold the numbers of both terms.
fn both_known(x: &Term, y: &Term) -> Known
    requires x { WellFormed (tree x.now) }
    requires y { WellFormed (tree y.now) }
    ensures { result ≡ both_known (tree x.now) (tree y.now) }
{
    let (x_unsigned, x_signed) = x.known();
    let (y_unsigned, y_signed) = y.known();
    Known {
        unsigned: x_unsigned.max(y_unsigned),
        signed: x_signed.max(y_signed),
    }
}

// Whether fewer than `width` bits serve the operation.
fn is_narrower(op: TwoOp, width: u32, known: Known) -> bool
    ensures { result ≡ (nat_lt known.unsigned width || (may_read_signed op && nat_lt known.signed
        width)) }
{
    known.unsigned < width || (may_read_signed(op) && known.signed < width)
}

fn is_choice(op: TwoOp) -> bool
    ensures { result ≡ is_choice op }
{
    match op {
        TwoOp::Smin => true,
        TwoOp::Smax => true,
        TwoOp::Umin => true,
        TwoOp::Umax => true,
        _ => false,
    }
}

fn is_comparison(op: TwoOp) -> bool
    ensures { result ≡ is_comparison op }
{
    match op {
        TwoOp::Eq => true,
        TwoOp::Slt => true,
        TwoOp::Ult => true,
        _ => false,
    }
}

// The operation on numbers that are not negative.
fn read_unsigned(op: TwoOp) -> TwoOp
    ensures { result ≡ read_unsigned op }
{
    match op {
        TwoOp::Smin => TwoOp::Umin,
        TwoOp::Smax => TwoOp::Umax,
        TwoOp::Slt => TwoOp::Ult,
        _ => op,
    }
}

fn may_read_signed(op: TwoOp) -> bool
    ensures { result ≡ may_read_signed op }
{
    match op {
        TwoOp::Umin => false,
        TwoOp::Umax => false,
        TwoOp::Ult => false,
        _ => true,
    }
}
