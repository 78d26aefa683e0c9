//! Plans with marks of their units.

ghost use Rattle.std.specs.Prelude.{◌≡◌, ◌≤◌, ◌+◌, [], IfOk, length};
ghost use Rattle.std.specs.List.{list_any};
ghost use Rattle.vg_kernel_plans.specs.Packing.{packing};
ghost use Rattle.vg_plans.specs.World.{is_in, stays_plan};
ghost use Rattle.vg_shapes.specs.Pack.{units_of};
ghost use Rattle.vg_shapes.specs.Units.{arguments};
ghost use Rattle.vg_packs.specs.Floor.{IsFloor};
ghost use Rattle.vg_packs.specs.PlanMarks.{MarksPlan};
ghost use Rattle.vg_packs.specs.PlanSpans.{SpansPlan};
ghost use Rattle.vg_packs.specs.Walk.{IsFree, NameEarlierUnits, NameUnits, is_in_plan, node_needs};
ghost use Rattle.vg_shapes.specs.declared.ssa.Ssa.{Ssa as Numbered};

use crate::floor::floor_below;
use crate::marks::mark_plan;
use crate::plan_spans::PlanSpans;
use crate::walk::{end_of_units, overlaps, reaches_itself};
use std::alloc::{AllocError, Global};
use vg_kernel_plans::marks::clear_marks;
use vg_shapes::{DepList, MatchTable, Pack, Ssa};

/// Marks of the units of a plan, by which packs are tried after it one after the other.
#[derive(Drop)]
pub struct PlanMarks {
    marks: Vec<bool>,
}

impl PlanMarks {
    /// The marks of a plan's units. Where a kernel has more than some 2^24 parameters or units there is
    /// no memory.
    pub fn new(alloc: Global, ssa: &Ssa, plan: &[Pack]) -> Result<PlanMarks, AllocError>
        ensures { IfOk result (MarksPlan ssa.now plan.now) }
    {
        let end = end_of_units(ssa)?;
        let mut marks = clear_marks(alloc, end)?;
        mark_plan(marks.as_mut_slice(), plan);
        Ok(PlanMarks { marks })
    }

    /// Whether some unit of a pack is one of the plan. Takes no memory.
    pub fn overlaps(&self, plan: &[Pack], pack: &Pack) -> bool
        requires marks { (ssa : Numbered) × MarksPlan ssa plan.now self.now }
        ensures { result ≡ list_any (is_in_plan plan.now) (units_of pack.now) }
    {
        overlaps(self.marks.as_slice(), plan, pack)
    }

    /// Whether the plan, which has no cycle, stays one with a pack after it: no unit of the pack is in
    /// it, and no unit of the pack depends on another through units outside it. The dependences
    /// name units alone.
    pub fn stays_plan(
        &self,
        alloc: Global,
        plan: &[Pack],
        pack: &Pack,
        table: &MatchTable,
        ssa: &Ssa,
        deps: &DepList,
    ) -> Result<bool, AllocError>
        requires names { NameUnits ssa.now deps.now }
        requires free { IsFree table.now ssa.now deps.now plan.now }
        requires marks { MarksPlan ssa.now plan.now self.now }
        ensures { IfOk result (λ b. b ≡ stays_plan (packing [] table.now ssa.now deps.now) plan.now
            pack.now) }
    {
        self.stays_above(alloc, plan, pack, table, ssa, deps, 0)
    }

    /// The same, by what the packs of the plan span: what is below the pack and not spanned needs no look.
    /// The dependences name earlier units alone.
    pub fn stays_by_spans(
        &self,
        alloc: Global,
        plan: &[Pack],
        spans: &PlanSpans,
        pack: &Pack,
        table: &MatchTable,
        ssa: &Ssa,
        deps: &DepList,
    ) -> Result<bool, AllocError>
        requires earlier { NameEarlierUnits ssa.now deps.now }
        requires free { IsFree table.now ssa.now deps.now plan.now }
        requires marks { MarksPlan ssa.now plan.now self.now }
        requires spans { SpansPlan table.now ssa.now deps.now plan.now spans.now }
        ensures { IfOk result (λ b. b ≡ stays_plan (packing [] table.now ssa.now deps.now) plan.now
            pack.now) }
    {
        let floor = floor_below(alloc, spans.marks(), pack)?;
        self.stays_above(alloc, plan, pack, table, ssa, deps, floor)
    }

    // The same, where what is below a floor needs no look.
    fn stays_above(
        &self,
        alloc: Global,
        plan: &[Pack],
        pack: &Pack,
        table: &MatchTable,
        ssa: &Ssa,
        deps: &DepList,
        floor: u32,
    ) -> Result<bool, AllocError>
        requires names { NameUnits ssa.now deps.now }
        requires free { IsFree table.now ssa.now deps.now plan.now }
        requires marks { MarksPlan ssa.now plan.now self.now }
        requires floor { IsFloor (node_needs table.now ssa.now deps.now plan.now) (λ v. is_in v
            (units_of pack.now)) floor }
        requires inside { floor ≤ arguments ssa.now + length ssa.now.units }
        ensures { IfOk result (λ b. b ≡ stays_plan (packing [] table.now ssa.now deps.now) plan.now
            pack.now) }
    {
        let packed = self.marks.as_slice();
        let overlap = overlaps(packed, plan, pack);
        if overlap {
            return Ok(false);
        }
        let end = packed.len();
        let reached = reaches_itself(alloc, table, ssa, deps, plan, packed, pack, end, floor)?;
        Ok(!reached)
    }
}
