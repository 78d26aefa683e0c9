//! Scratch for packs that are tried after a plan.

ghost use Rattle.std.specs.Prelude.{IfOk};
ghost use Rattle.vg_cost.specs.PriceScratch.{IsScratchFor};

use crate::lines::end_of_units;
use crate::marks::packed_marks;
use crate::needs::clear_counts;
use crate::tried_marks::TriedMarks;
use std::alloc::{AllocError, Global};
use std::marker::Model;
use vg_kernel_plans::marks::clear_marks;
use vg_shapes::{Pack, Ssa};

/// Scratch in which packs are tried after a plan, one after the other. Contracts see the marks of the
/// units of the plan; what a pack that was tried leaves beside them tells nothing.
pub struct PriceScratch {
    /// The marks of the units of the plan.
    pub(crate) plan: Vec<bool>,
    /// Those of the pack that is tried.
    pub(crate) tried: TriedMarks,
}

/// Written out, so that the exits of an owner call it: a derived one would be proved anew at each.
impl Drop for PriceScratch {
    fn drop(self) {
        let PriceScratch { plan: _, tried: _ } = self;
    }
}

impl Model for PriceScratch {
    ghost use Rattle.std.specs.Prelude.{Bool, List, length};
    ghost use Rattle.vg_cost.specs.TriedMarks.{AreMarksFor};

    ghost Value = { List Bool };

    ghost view = { λ r. r.plan.items };

    ghost invariant = { λ r. AreMarksFor (length r.plan.items) r.tried };
}

impl PriceScratch {
    /// Scratch for packs after a plan. Fails for want of memory, and where a unit's number has too many
    /// bits to be counted.
    pub fn new(alloc: Global, ssa: &Ssa, plan: &[Pack]) -> Result<PriceScratch, AllocError>
        ensures { IfOk result (IsScratchFor ssa.now plan.now) }
    {
        let count = end_of_units(ssa)? as usize;
        Ok(PriceScratch {
            plan: packed_marks(alloc, count, plan)?,
            tried: TriedMarks {
                longer: clear_marks(alloc, count)?,
                own: clear_marks(alloc, count)?,
                counts: clear_counts(alloc, count)?,
                changed: clear_marks(alloc, count)?,
            },
        })
    }
}
