//! Whether the term of a lane fits the term of a value.

ghost use Rattle.std.specs.Prelude.{◌≡◌, ◌<◌, ◌^◌, IfOk, false, map};
ghost use Rattle.std.specs.Option.{option_map};
ghost use Rattle.vg_match.specs.Fit.{bind, fit, fit_turned, same_root, standing};
ghost use Rattle.vg_match.specs.Least.{AreByTerm};
ghost use Rattle.vg_shapes.specs.Fits.{wanted_for};
ghost use Rattle.vg_terms.specs.Term.{tree};

use crate::least::LeastValues;
use std::alloc::{AllocError, Global};
use vg_shapes::wanted::is_same_wanted;
use vg_shapes::{Bound, Wanted};
use vg_terms::{LeafKey, Term};

// What a leaf is bound to, or nothing.
fn wanted_for(bound: &[Bound], width: u32, key: &LeafKey) -> Wanted
    ensures { result ≡ wanted_for bound.now width key.now }
{
    for b in bound {
        if width == b.width && *key == b.key {
            return b.wanted;
        }
    }
    Wanted::Nothing
}

// What stands for a term below a value: the constant that it is, else the least value that has it.
// Nothing where no value below has it.
fn standing(least: &LeastValues<'_>, value: u32, t: &Term) -> Wanted
    requires { AreByTerm least.now }
    ensures { result ≡ standing (map tree least.now.terms.now) value (tree t.now) }
{
    match t {
        Term::Const { width, value } => Wanted::Constant {
            width: *width,
            value: *value,
        },
        _ => match least.with(t) {
            Some(first) => {
                if first < value {
                    Wanted::Value(first)
                } else {
                    Wanted::Nothing
                }
            }
            None => Wanted::Nothing,
        },
    }
}

// A leaf bound after others. It may be bound to the same already.
#[tactic(auto, unfolding(crate::specs::Fit::bind))]
fn bind(
    width: u32,
    key: LeafKey,
    wanted: Wanted,
    bound: Vec<Bound>,
) -> Result<Option<Vec<Bound>>, AllocError>
    ensures { IfOk result
        (λ found. option_map (λ b. b.items) found ≡ bind width key wanted bound.items) }
{
    if is_same_wanted(wanted, Wanted::Nothing) {
        return Ok(None);
    }
    let there = wanted_for(bound.as_slice(), width, &key);
    if is_same_wanted(there, Wanted::Nothing) {
        let mut all = bound;
        all.push(Bound { key, width, wanted })?;
        Ok(Some(all))
    } else if is_same_wanted(there, wanted) {
        Ok(Some(bound))
    } else {
        Ok(None)
    }
}

// Whether two terms have one operation at their roots, at one width and by as many places.
#[tactic(auto, unfolding(crate::specs::Fit::same_root))]
fn is_same_root(lane: &Term, t: &Term) -> bool
    ensures { result ≡ same_root (tree lane.now) (tree t.now) }
{
    match (lane, t) {
        (
            Term::One {
                op,
                width,
                amount,
                ..
            },
            Term::One {
                op: o,
                width: u,
                amount: j,
                ..
            },
        ) => op.tag() == o.tag() && *width == *u && *amount == *j,
        (
            Term::Two { op, width, .. },
            Term::Two {
                op: o,
                width: u,
                ..
            },
        ) => op.tag() == o.tag() && *width == *u,
        (Term::Sel { width, .. }, Term::Sel { width: u, .. }) => *width == *u,
        (Term::Leaf { .. }, _) => false,
        (Term::Const { .. }, _) => false,
        (Term::One { .. }, _) => false,
        (Term::Two { .. }, _) => false,
        (Term::Sel { .. }, _) => false,
    }
}

// The term of a lane against that of a value where their roots are not of one operation: a leaf is
// bound, and a constant fits itself.
#[tactic(auto, unfolding(crate::specs::Fit::fit, crate::specs::Fit::same_root))]
fn fit_end(
    least: &LeastValues<'_>,
    value: u32,
    lane: &Term,
    t: &Term,
    bound: Vec<Bound>,
) -> Result<Option<Vec<Bound>>, AllocError>
    requires by_term { AreByTerm least.now }
    requires differ { same_root (tree lane.now) (tree t.now) ≡ false }
    ensures { IfOk result
        (λ found. option_map (λ b. b.items) found
        ≡ fit (map tree least.now.terms.now) value (tree lane.now) (tree t.now) bound.items) }
{
    match lane {
        Term::Leaf { width, key } => {
            if t.width() == *width {
                bind(*width, *key, standing(least, value, t), bound)
            } else {
                Ok(None)
            }
        }
        Term::Const { .. } => {
            if lane.is_same(t) {
                Ok(Some(bound))
            } else {
                Ok(None)
            }
        }
        _ => Ok(None),
    }
}

/// The leaves of the term of a lane, bound after others to what stands for the parts of the term of
/// a value, where the two fit.
#[tactic(auto, unfolding(crate::specs::Fit::fit, crate::specs::Fit::same_root))]
pub(crate) fn fit(
    least: &LeastValues<'_>,
    value: u32,
    lane: &Term,
    t: &Term,
    bound: Vec<Bound>,
) -> Result<Option<Vec<Bound>>, AllocError>
    requires { AreByTerm least.now }
    ensures { IfOk result
        (λ found. option_map (λ b. b.items) found
        ≡ fit (map tree least.now.terms.now) value (tree lane.now) (tree t.now) bound.items) }
{
    if !is_same_root(lane, t) {
        return fit_end(least, value, lane, t, bound);
    }
    match (lane, t) {
        (Term::One { x, .. }, Term::One { x: y, .. }) => fit(least, value, x, y, bound),
        (Term::Two { x, y, .. }, Term::Two { x: p, y: q, .. }) => {
            match fit(least, value, x, p, bound)? {
                Some(more) => fit(least, value, y, q, more),
                None => Ok(None),
            }
        }
        (
            Term::Sel { c, x, y, .. },
            Term::Sel {
                c: d,
                x: p,
                y: q,
                ..
            },
        ) => {
            match fit(least, value, c, d, bound)? {
                Some(more) => match fit(least, value, x, p, more)? {
                    Some(most) => fit(least, value, y, q, most),
                    None => Ok(None),
                },
                None => Ok(None),
            }
        }
        _ => Ok(None),
    }
}

/// The same against the term with the operands at its root exchanged, where their order does not
/// matter and the second is a constant. The term is not built.
#[tactic(auto, unfolding(crate::specs::Fit::fit, crate::specs::Fit::fit_turned))]
pub(crate) fn fit_turned(
    least: &LeastValues<'_>,
    value: u32,
    lane: &Term,
    t: &Term,
    bound: Vec<Bound>,
) -> Result<Option<Vec<Bound>>, AllocError>
    requires { AreByTerm least.now }
    ensures { IfOk result (λ found. option_map (λ b. b.items) found ≡ fit_turned (map tree
        least.now.terms.now) value (tree lane.now) (tree t.now) bound.items) }
{
    match (lane, t) {
        (
            Term::Two { op, width, x, y },
            Term::Two {
                op: o,
                width: u,
                x: p,
                y: q,
            },
        ) => {
            if o.makes_chains() && q.is_constant() {
                if op.tag() == o.tag() && *width == *u {
                    match fit(least, value, x, q, bound)? {
                        Some(more) => fit(least, value, y, p, more),
                        None => Ok(None),
                    }
                } else {
                    Ok(None)
                }
            } else {
                Ok(None)
            }
        }
        _ => Ok(None),
    }
}
