//! The canonical form of a term.

ghost use Rattle.std.specs.Prelude.{◌≡◌, IfOk, OnOk, true};
ghost use Rattle.vg_canon.specs.Canonical.{HasCanonicalChildren, IsChildrenFirst, LeavesAreCanonical, Settled, canonical, over_children};
ghost use Rattle.vg_canon.specs.Walk.{CanonicalBeyond, OverCanonical};
ghost use Rattle.vg_terms.specs.Chain.{opens};
ghost use Rattle.vg_terms.specs.Term.{WellFormed, tree};

use crate::step::{Step, is_at_rest, take_step};
use crate::walk::Walk;
use std::alloc::{AllocError, Global};
use std::mem;
use vg_terms::{Term, TwoOp, make_const};

/// The canonical form of a term: its children are made canonical; where a rule then applies at the root,
/// first those for sums, then those for widths, then those for choices, the first that applies is taken and
/// its result made canonical; else the term is the answer. Width and value stay, the measure does not rise,
/// and no rule applies at any subterm of the answer. The stack grows with the depth of the term.
#[tactic(auto, using(crate::proofs::Forms::settled))]
pub fn canon(alloc: Global, t: Term) -> Result<Term, AllocError>
    requires { WellFormed (tree t) }
    ensures exact { IfOk result (λ r. tree r ≡ canonical (tree t)) }
    ensures settled { IfOk result (λ r. Settled (tree t) (tree r)) }
{
    settle(alloc, Walk::Whole, t)
}

/// The canonical form of a term whose children are canonical. They are not walked again.
#[tactic(auto, using(crate::proofs::Forms::settled))]
pub fn canon_root(alloc: Global, t: Term) -> Result<Term, AllocError>
    requires well_formed { WellFormed (tree t) }
    requires children { HasCanonicalChildren (tree t) }
    ensures exact { IfOk result (λ r. tree r ≡ canonical (tree t)) }
    ensures settled { IfOk result (λ r. Settled (tree t) (tree r)) }
{
    settle_root(alloc, t)
}

/// What the canonical form is, a law that costs nothing to call: that of a term is made of the canonical
/// forms of its children; where a rule applies at the root over those, the first that does gives a term
/// whose canonical form it is, else it is the term over those children.
pub fn canonical_is_children_first()
    ensures { IsChildrenFirst }
{}

/// A law that costs nothing to call: leaves and constants are canonical, so that `canon_root` may take an
/// operation on them.
pub fn leaves_are_canonical()
    ensures { LeavesAreCanonical }
{}

#[cycle(canon)]
fn settle(alloc: Global, walk: Walk, t: Term) -> Result<Term, AllocError>
    requires well_formed { WellFormed (tree t) }
    requires beyond { CanonicalBeyond walk (tree t) }
    ensures { IfOk result (λ r. tree r ≡ canonical (tree t)) }
{
    if walk.ends_at(&t) {
        return Ok(t);
    }
    match walk {
        Walk::Chain(op) => settled_chain(alloc, op, t),
        _ => settle_below(alloc, walk, t),
    }
}

#[cycle(canon)]
fn settle_below(alloc: Global, walk: Walk, t: Term) -> Result<Term, AllocError>
    requires well_formed { WellFormed (tree t) }
    requires beyond { CanonicalBeyond walk (tree t) }
    ensures { IfOk result (λ r. tree r ≡ canonical (tree t)) }
{
    let over = settle_children(alloc, walk, t)?;
    settle_root(alloc, over)
}

#[cycle(canon)]
fn settled_chain(alloc: Global, op: TwoOp, mut t: Term) -> Result<Term, AllocError>
    requires well_formed { WellFormed (tree t) }
    requires parts { OverCanonical op (tree t) }
    ensures { IfOk result (λ r. tree r ≡ canonical (tree t)) }
{
    settle_chain(alloc, op, &mut t)?;
    Ok(t)
}

// The parts of a chain are canonical, so only the terms that nest them are walked, in place.
#[cycle(canon)]
fn settle_chain(alloc: Global, op: TwoOp, t: &mut Term) -> Result<(), AllocError>
    requires well_formed { WellFormed (tree t.old) }
    requires parts { OverCanonical op (tree t.old) }
    ensures { OnOk result (tree t.new ≡ canonical (tree t.old)) }
{
    if !t.opens(op) {
        return Ok(());
    }
    settle_first(alloc, op, t)?;
    if is_at_rest(t) {
        return Ok(());
    }
    let over = mem::replace(t, make_const(1, 0));
    *t = settle_root(alloc, over)?;
    Ok(())
}

#[cycle(canon)]
fn settle_first(alloc: Global, op: TwoOp, t: &mut Term) -> Result<(), AllocError>
    requires well_formed { WellFormed (tree t.old) }
    requires parts { OverCanonical op (tree t.old) }
    requires opens { opens op (tree t.old) ≡ true }
    ensures { OnOk result (tree t.new ≡ over_children canonical (tree t.old)) }
{
    match t {
        Term::Two { x, .. } => settle_chain(alloc, op, x),
        _ => Ok(()),
    }
}

#[cycle(canon)]
fn settle_children(alloc: Global, walk: Walk, t: Term) -> Result<Term, AllocError>
    requires well_formed { WellFormed (tree t) }
    requires beyond { CanonicalBeyond walk (tree t) }
    ensures { IfOk result (λ r. tree r ≡ over_children canonical (tree t)) }
{
    let first = walk.first();
    let other = walk.other();
    match t {
        Term::One {
            op,
            width,
            amount,
            x,
        } => {
            let x = settle_boxed(alloc, other, x)?;
            Ok(Term::One {
                op,
                width,
                amount,
                x,
            })
        }
        Term::Two { op, width, x, y } => {
            let x = settle_boxed(alloc, first, x)?;
            let y = settle_boxed(alloc, other, y)?;
            Ok(Term::Two { op, width, x, y })
        }
        Term::Sel { width, c, x, y } => {
            let c = settle_boxed(alloc, other, c)?;
            let x = settle_boxed(alloc, other, x)?;
            let y = settle_boxed(alloc, other, y)?;
            Ok(Term::Sel { width, c, x, y })
        }
        rest => Ok(rest),
    }
}

// The box is used again.
#[cycle(canon)]
fn settle_boxed(alloc: Global, walk: Walk, mut t: Box<Term>) -> Result<Box<Term>, AllocError>
    requires well_formed { WellFormed (tree t.value) }
    requires beyond { CanonicalBeyond walk (tree t.value) }
    ensures { IfOk result (λ r. tree r.value ≡ canonical (tree t.value)) }
{
    let inside = mem::replace(&mut *t, make_const(1, 0));
    *t = settle(alloc, walk, inside)?;
    Ok(t)
}

#[cycle(canon)]
fn settle_root(alloc: Global, t: Term) -> Result<Term, AllocError>
    requires well_formed { WellFormed (tree t) }
    requires children { HasCanonicalChildren (tree t) }
    ensures { IfOk result (λ r. tree r ≡ canonical (tree t)) }
{
    match take_step(alloc, t)? {
        Step::Rewritten(new, walk) => settle(alloc, walk, new),
        Step::Finished(t) => Ok(t),
    }
}
