//! Terms stretched to a width.

ghost use Rattle.std.specs.Prelude.{◌≡◌, ◌<◌, ◌≤◌, IfOk};
ghost use Rattle.vg_rules_choice.specs.Rules.{are_stretches, extended, stretch, widened};
ghost use Rattle.vg_terms.specs.Order.{is_same_term};
ghost use Rattle.vg_terms.specs.Term.{IsWidth, constant, one, OneFits, WellFormed, tree, width_of};

use std::alloc::{AllocError, Global};
use vg_terms::value::value_of_one;
use vg_terms::{OneOp, Term, make_one};

/// Whether `a` and `b` are the stretches of `p` and `q` to a width.
pub fn are_stretches(ext: OneOp, width: u32, p: &Term, q: &Term, a: &Term, b: &Term) -> bool
    requires width { IsWidth width }
    requires p { WellFormed (tree p.now) }
    requires q { WellFormed (tree q.now) }
    requires p_fits { width_of (tree p.now) < width → OneFits ext width 0 (width_of (tree p.now)) }
    requires p_most { width_of (tree p.now) ≤ width }
    requires q_fits { width_of (tree q.now) < width → OneFits ext width 0 (width_of (tree q.now)) }
    requires q_most { width_of (tree q.now) ≤ width }
    ensures { result ≡ are_stretches ext width (tree p.now) (tree q.now) (tree a.now) (tree b.now) }
{
    is_stretch(ext, width, p, a) && is_stretch(ext, width, q, b)
}

// Whether `a` is the stretch of `p`.
fn is_stretch(ext: OneOp, width: u32, p: &Term, a: &Term) -> bool
    requires width { IsWidth width }
    requires p { WellFormed (tree p.now) }
    requires fits { width_of (tree p.now) < width → OneFits ext width 0 (width_of (tree p.now)) }
    requires most { width_of (tree p.now) ≤ width }
    ensures { result ≡ is_same_term (tree a.now) (stretch ext width (tree p.now)) }
{
    if p.width() == width {
        a.is_same(p)
    } else {
        is_extended(ext, width, p, a)
    }
}

// Whether `a` is `p` extended.
fn is_extended(ext: OneOp, width: u32, p: &Term, a: &Term) -> bool
    requires width { IsWidth width }
    requires p { WellFormed (tree p.now) }
    requires fits { OneFits ext width 0 (width_of (tree p.now)) }
    ensures { result ≡ is_same_term (tree a.now) (extended ext width (tree p.now)) }
{
    match p {
        Term::Const { width: own, value } => {
            is_const(width, value_of_one(ext, width, 0, *own, *value), a)
        }
        Term::One {
            op: OneOp::Zext,
            x,
            ..
        } => is_extension(OneOp::Zext, width, x, a),
        Term::One {
            op: OneOp::Sext,
            x,
            ..
        } => match ext {
            OneOp::Sext => is_extension(OneOp::Sext, width, x, a),
            _ => is_extension(ext, width, p, a),
        },
        _ => is_extension(ext, width, p, a),
    }
}

// Whether `a` is this constant.
fn is_const(width: u32, value: u128, a: &Term) -> bool
    ensures { result ≡ is_same_term (tree a.now) (constant width value) }
{
    match a {
        Term::Const {
            width: own,
            value: v,
        } => *own == width && *v == value,
        _ => false,
    }
}

// Whether `a` is the operation, with the amount 0, on `x`.
fn is_extension(ext: OneOp, width: u32, x: &Term, a: &Term) -> bool
    ensures { result ≡ is_same_term (tree a.now) (one ext width 0 (tree x.now)) }
{
    match a {
        Term::One {
            op,
            width: own,
            amount,
            x: below,
        } => *op == ext && *own == width && *amount == 0 && below.is_same(x),
        _ => false,
    }
}

/// The term as one of a width that is no less: itself, or its extension.
pub fn widened(alloc: Global, ext: OneOp, width: u32, p: Term) -> Result<Term, AllocError>
    ensures { IfOk result (λ term. tree term ≡ widened ext width (tree p)) }
{
    if p.width() == width {
        Ok(p)
    } else {
        make_one(alloc, ext, width, 0, p)
    }
}
