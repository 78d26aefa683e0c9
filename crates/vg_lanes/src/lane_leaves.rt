//! The leaves of lanes.

ghost use Rattle.std.specs.Prelude.{◌≡◌, ◌++◌, IfOk, OnOk, flat_map};
ghost use Rattle.vg_terms.specs.Term.{tree};
ghost use Rattle.vg_shapes.specs.Lane.{lane_of};
ghost use Rattle.vg_shapes.specs.Leaves.{leaves};
ghost use Rattle.vg_lanes.specs.Described.{term_of};

use std::alloc::{AllocError, Global};
use vg_shapes::{Lane, Leaf};
use vg_terms::Term;

/// Appends the leaves of a term, from left to right.
fn push_leaves(term: &Term, to: &mut Vec<Leaf>) -> Result<(), AllocError>
    ensures { OnOk result (to.new.items ≡ to.old.items ++ leaves (tree term.now)) }
{
    match term {
        Term::Leaf { width, key } => {
            to.push(Leaf::new(*width, *key))?;
            Ok(())
        }
        Term::Const { .. } => Ok(()),
        Term::One { x, .. } => push_leaves(x, to),
        Term::Two { x, y, .. } => {
            push_leaves(x, to)?;
            push_leaves(y, to)
        }
        Term::Sel { c, x, y, .. } => {
            push_leaves(c, to)?;
            push_leaves(x, to)?;
            push_leaves(y, to)
        }
    }
}

/// Appends the leaves of a lane, if it has a term.
fn push_lane(lane: &Lane, to: &mut Vec<Leaf>) -> Result<(), AllocError>
    ensures { OnOk result (to.new.items ≡ to.old.items ++ flat_map leaves (term_of (lane_of
        lane.now))) }
{
    match lane {
        Lane::Tree(term) => push_leaves(term, to),
        _ => Ok(()),
    }
}

/// The leaves of all lanes that have terms, lane 0 first.
pub(crate) fn lane_leaves(alloc: Global, lanes: &[Lane]) -> Result<Vec<Leaf>, AllocError>
    ensures { IfOk result (λ found. found.items ≡
        flat_map (λ l. flat_map leaves (term_of (lane_of l))) lanes.now) }
{
    let mut found = Vec::new(alloc);
    'lanes: for lane in lanes {
        push_lane(lane, &mut found)?;
    }
    Ok(found)
}
