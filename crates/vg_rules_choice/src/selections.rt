//! Selections: known, negated, and between the sides of their comparison.
#![tactic(auto, unfolding(crate::specs::Rules::known_selection, crate::specs::Rules::negated_selection, crate::specs::Rules::selection_is_least_or_greatest))]

ghost use Rattle.std.specs.Prelude.{◌≡◌, ◌≤◌, IfOk, IsSome, Some, is_some, if◌then◌else◌};
ghost use Rattle.vg_rules_choice.specs.Rules.{chosen, extension_under, greater_under, is_order, known_selection, lesser_under, negated_selection, selected, selection_is_least_or_greatest};
ghost use Rattle.vg_terms.specs.Table.{Applies};
ghost use Rattle.vg_terms.specs.Term.{IsWidth, WellFormed, tree, width_of};

use crate::stretch::{are_stretches, widened};
use std::alloc::{AllocError, Global};
use vg_terms::{OneOp, Term, TwoOp, make_sel, make_two};

/// Whether the term selects one term twice, or its condition is a constant.
pub fn is_known_selection(t: &Term) -> bool
    ensures { result ≡ is_some (known_selection (tree t.now)) }
{
    match t {
        Term::Sel { c, x, y, .. } => match &**c {
            Term::Const { .. } => true,
            _ => x.is_same(y),
        },
        _ => false,
    }
}

/// A selection of one term twice, or by a constant, is the term selected.
pub fn known_selection(_alloc: Global, t: Term) -> Result<Term, AllocError>
    requires well_formed { WellFormed (tree t) }
    requires applies { IsSome (known_selection (tree t)) }
    ensures { IfOk result (λ new. Applies known_selection (tree t) (tree new)) }
{
    match t {
        Term::Sel { c, x, y, .. } => {
            if x.is_same(&y) {
                Ok(Box::into_inner(x))
            } else {
                Ok(selected(Box::into_inner(c), Box::into_inner(x), Box::into_inner(y)))
            }
        }
        other => Ok(other),
    }
}

// What a constant selects.
fn selected(c: Term, x: Term, y: Term) -> Term
    requires { IsSome (selected (tree c) (tree x) (tree y)) }
    ensures { selected (tree c) (tree x) (tree y) ≡ Some (tree result) }
{
    match c {
        Term::Const { value, .. } => { if value == 1 { x } else { y } }
        other => other,
    }
}

/// Whether the term selects by the opposite of a condition.
pub fn is_negated_selection(t: &Term) -> bool
    ensures { result ≡ is_some (negated_selection (tree t.now)) }
{
    match t {
        Term::Sel { c, .. } => match &**c {
            Term::Two {
                op: TwoOp::Xor,
                y,
                ..
            } => matches!(&**y, Term::Const { value: 1, .. }),
            _ => false,
        },
        _ => false,
    }
}

/// A selection by the opposite of a condition is one by the condition, between the terms exchanged.
pub fn negated_selection(alloc: Global, t: Term) -> Result<Term, AllocError>
    requires well_formed { WellFormed (tree t) }
    requires applies { IsSome (negated_selection (tree t)) }
    ensures { IfOk result (λ new. Applies negated_selection (tree t) (tree new)) }
{
    match t {
        Term::Sel { width, c, x, y } => match Box::into_inner(c) {
            Term::Two { x: condition, .. } => {
                let first = Box::into_inner(y);
                let second = Box::into_inner(x);
                make_sel(alloc, width, Box::into_inner(condition), first, second)
            }
            other => Ok(other),
        },
        other => Ok(other),
    }
}

/// Whether the term selects between stretches of the two sides of its comparison.
pub fn is_selection_is_least_or_greatest(t: &Term) -> bool
    requires { WellFormed (tree t.now) }
    ensures { result ≡ is_some (selection_is_least_or_greatest (tree t.now)) }
{
    match t {
        Term::Sel { width, c, x, y } => match &**c {
            Term::Two { op, x: p, y: q, .. } => {
                is_order(*op)
                    && p.width() <= *width
                    && (are_stretches(extension_under(*op), *width, p, q, x, y)
                        || are_stretches(extension_under(*op), *width, q, p, x, y))
            }
            _ => false,
        },
        _ => false,
    }
}

/// A selection between the sides of its comparison is the lesser or the greater of them.
pub fn selection_is_least_or_greatest(alloc: Global, t: Term) -> Result<Term, AllocError>
    requires well_formed { WellFormed (tree t) }
    requires applies { IsSome (selection_is_least_or_greatest (tree t)) }
    ensures { IfOk result (λ new. Applies selection_is_least_or_greatest (tree t) (tree new)) }
{
    match t {
        Term::Sel { width, c, x, y } => match Box::into_inner(c) {
            Term::Two { op, x: p, y: q, .. } => {
                let p = Box::into_inner(p);
                let q = Box::into_inner(q);
                chosen(alloc, op, width, p, q, &x, &y)
            }
            other => Ok(other),
        },
        other => Ok(other),
    }
}

// The lesser or the greater of p and q, where a and b are stretches of them.
fn chosen(
    alloc: Global,
    order: TwoOp,
    width: u32,
    p: Term,
    q: Term,
    a: &Term,
    b: &Term,
) -> Result<Term, AllocError>
    requires width { IsWidth width }
    requires p { WellFormed (tree p) }
    requires q { WellFormed (tree q) }
    requires p_most { width_of (tree p) ≤ width }
    requires q_most { width_of (tree q) ≤ width }
    requires applies { IsSome (chosen order width (tree p) (tree q) (tree a.now) (tree b.now)) }
    ensures { IfOk result (λ new. chosen order width (tree p) (tree q) (tree a.now) (tree b.now) ≡
        Some (tree new)) }
{
    let ext = extension_under(order);
    let is_lesser = are_stretches(ext, width, &p, &q, a, b);
    let own = p.width();
    let side = make_two(alloc, side_under(order, is_lesser), own, p, q)?;
    widened(alloc, ext, width, side)
}

// Whether the operation compares by an order.
fn is_order(op: TwoOp) -> bool
    ensures { result ≡ is_order op }
{
    match op {
        TwoOp::Slt => true,
        TwoOp::Ult => true,
        _ => false,
    }
}

// The extension that keeps the order of the sides.
fn extension_under(order: TwoOp) -> OneOp
    ensures { result ≡ extension_under order }
{
    match order {
        TwoOp::Slt => OneOp::Sext,
        _ => OneOp::Zext,
    }
}

// The lesser or the greater side.
fn side_under(order: TwoOp, is_lesser: bool) -> TwoOp
    ensures { result ≡ (if is_lesser then lesser_under order else greater_under order) }
{
    if is_lesser {
        lesser_under(order)
    } else {
        greater_under(order)
    }
}

fn lesser_under(order: TwoOp) -> TwoOp
    ensures { result ≡ lesser_under order }
{
    match order {
        TwoOp::Slt => TwoOp::Smin,
        _ => TwoOp::Umin,
    }
}

fn greater_under(order: TwoOp) -> TwoOp
    ensures { result ≡ greater_under order }
{
    match order {
        TwoOp::Slt => TwoOp::Smax,
        _ => TwoOp::Umax,
    }
}
