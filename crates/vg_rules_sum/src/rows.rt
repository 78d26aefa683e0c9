//! The rows of the table.
#![tactic(auto, unfolding(crate::specs::Rules::fold_constants, crate::specs::Rules::sort_chain, crate::specs::Rules::merge_constants, crate::specs::Rules::neutral_or_absorbing, crate::specs::Rules::same_operands))]

ghost use Rattle.std.specs.Prelude.{◌≡◌, IfOk, IsSome, is_some};
ghost use Rattle.vg_rules_sum.specs.Constant.{is_known_twice, twice};
ghost use Rattle.vg_rules_sum.specs.Rules.{fold_constants, merge_constants, neutral_or_absorbing, same_operands, sort_chain};
ghost use Rattle.vg_terms.specs.Table.{Applies};
ghost use Rattle.vg_terms.specs.Term.{WellFormed, tree};

use crate::chain::put_in_order;
use crate::constant::{fold, is_absorbing, is_neutral, is_over_constants};
use std::alloc::{AllocError, Global};
use vg_terms::{Term, TwoOp, make_const, make_two};

/// Whether all children of the term are constants.
pub fn is_fold_constants(t: &Term) -> bool
    ensures { result ≡ is_some (fold_constants (tree t.now)) }
{
    is_over_constants(t)
}

/// A term over constants alone is its value.
pub fn fold_constants(alloc: Global, t: Term) -> Result<Term, AllocError>
    requires well_formed { WellFormed (tree t) }
    requires applies { IsSome (fold_constants (tree t)) }
    ensures { IfOk result (λ new. Applies fold_constants (tree t) (tree new)) }
{
    Ok(fold(alloc, t))
}

/// Whether the term is a chain whose parts do not rise, or an equality of a term and a lesser one.
pub fn is_sort_chain(t: &Term) -> bool
    ensures { result ≡ is_some (sort_chain (tree t.now)) }
{
    t.is_disordered()
}

/// A chain is nested to the left over its parts in rising order, and an equality is turned round.
pub fn sort_chain(alloc: Global, t: Term) -> Result<Term, AllocError>
    requires well_formed { WellFormed (tree t) }
    requires applies { IsSome (sort_chain (tree t)) }
    ensures { IfOk result (λ new. Applies sort_chain (tree t) (tree new)) }
{
    put_in_order(alloc, t)
}

/// Whether the term is a chain with a constant on its right, after another.
pub fn is_merge_constants(t: &Term) -> bool
    ensures { result ≡ is_some (merge_constants (tree t.now)) }
{
    match t {
        Term::Two { op, x, y, .. } => match &**x {
            Term::Two { op: own, y: c, .. } => {
                op.makes_chains() && op.is(*own) && c.is_constant() && y.is_constant()
            }
            _ => false,
        },
        _ => false,
    }
}

/// Two constants in one chain are one constant, the operation on the two.
pub fn merge_constants(alloc: Global, t: Term) -> Result<Term, AllocError>
    requires well_formed { WellFormed (tree t) }
    requires applies { IsSome (merge_constants (tree t)) }
    ensures { IfOk result (λ new. Applies merge_constants (tree t) (tree new)) }
{
    match t {
        Term::Two { op, width, x, y } => match Box::into_inner(x) {
            Term::Two { x: first, y: c, .. } => {
                let both = Term::Two { op, width, x: c, y };
                make_two(alloc, op, width, Box::into_inner(first), fold(alloc, both))
            }
            other => Ok(other),
        },
        other => Ok(other),
    }
}

/// Whether the term has on its right a constant that is neutral or absorbs.
pub fn is_neutral_or_absorbing(t: &Term) -> bool
    requires { WellFormed (tree t.now) }
    ensures { result ≡ is_some (neutral_or_absorbing (tree t.now)) }
{
    match t {
        Term::Two { op, width, y, .. } => match &**y {
            Term::Const { value, .. } => {
                is_neutral(*op, *width, *value) || is_absorbing(*op, *width, *value)
            }
            _ => false,
        },
        _ => false,
    }
}

/// A neutral constant leaves the term beside it, and one that absorbs leaves itself.
pub fn neutral_or_absorbing(_alloc: Global, t: Term) -> Result<Term, AllocError>
    requires well_formed { WellFormed (tree t) }
    requires applies { IsSome (neutral_or_absorbing (tree t)) }
    ensures { IfOk result (λ new. Applies neutral_or_absorbing (tree t) (tree new)) }
{
    match t {
        Term::Two { op, width, x, y } => match Box::into_inner(y) {
            Term::Const { width: own, value } => {
                if is_neutral(op, width, value) {
                    Ok(Box::into_inner(x))
                } else {
                    Ok(make_const(own, value))
                }
            }
            other => Ok(other),
        },
        other => Ok(other),
    }
}

/// Whether the term is one term twice, under an operation that then makes the term or 0.
pub fn is_same_operands(t: &Term) -> bool
    ensures { result ≡ is_some (same_operands (tree t.now)) }
{
    match t {
        Term::Two { op, x, y, .. } => is_known_twice(*op) && x.is_same(y),
        _ => false,
    }
}

/// One term twice is the term, or 0 under exclusive or.
pub fn same_operands(_alloc: Global, t: Term) -> Result<Term, AllocError>
    requires well_formed { WellFormed (tree t) }
    requires applies { IsSome (same_operands (tree t)) }
    ensures { IfOk result (λ new. Applies same_operands (tree t) (tree new)) }
{
    match t {
        Term::Two { op, width, x, .. } => Ok(twice(op, width, Box::into_inner(x))),
        other => Ok(other),
    }
}

// Whether the operation gives, of one number twice, that number or 0.
fn is_known_twice(op: TwoOp) -> bool
    ensures { result ≡ is_known_twice op }
{
    match op {
        TwoOp::And => true,
        TwoOp::Or => true,
        TwoOp::Xor => true,
        TwoOp::Smin => true,
        TwoOp::Smax => true,
        TwoOp::Umin => true,
        TwoOp::Umax => true,
        _ => false,
    }
}

// What such an operation of this width makes of a term twice.
fn twice(op: TwoOp, width: u32, x: Term) -> Term
    ensures { tree result ≡ twice op width (tree x) }
{
    match op {
        TwoOp::Xor => make_const(width, 0),
        _ => x,
    }
}
