//! What the packs of plans span.

ghost use Rattle.std.specs.Prelude.{◌≡◌, IfOk, OnOk, length};
ghost use Rattle.vg_packs.specs.Floor.{MarksSpan, MarksSpans};
ghost use Rattle.vg_packs.specs.PlanSpans.{SpansPlan};

use crate::floor::{greatest_of, least_of, units_in};
use crate::marks::mark_within;
use crate::needs::pack_needs;
use crate::walk::end_of_units;
use std::alloc::{AllocError, Global};
use vg_kernel_plans::marks::clear_marks;
use vg_shapes::{DepList, MatchTable, Pack, Ssa};

/// Marks of the numbers that lie within a pack of a plan: above its least unit, and not above the greatest
/// of its units and of those on which it depends. What is below a number that is not marked depends on
/// nothing from there on, so a pack whose units are from there on is tried without a look at it.
#[derive(Drop)]
pub struct PlanSpans {
    spanned: Vec<bool>,
}

/// Marks the numbers that lie within a pack.
pub(crate) fn mark_span(
    alloc: Global,
    table: &MatchTable,
    ssa: &Ssa,
    deps: &DepList,
    pack: &Pack,
    spanned: &mut [bool],
) -> Result<(), AllocError>
    ensures { OnOk result (MarksSpan table.now ssa.now deps.now pack.now spanned.old spanned.new) }
{
    let units = units_in(alloc, pack)?;
    let needs = pack_needs(alloc, table, ssa, deps, pack)?;
    let least = least_of(units.as_slice());
    let highest = greatest_of(0, units.as_slice());
    let greatest = greatest_of(highest, needs.as_slice());
    mark_within(spanned, least, greatest);
    Ok(())
}

/// Marks the numbers that lie within the packs of a plan.
fn mark_spans(
    alloc: Global,
    table: &MatchTable,
    ssa: &Ssa,
    deps: &DepList,
    plan: &[Pack],
    spanned: &mut [bool],
) -> Result<(), AllocError>
    ensures long { OnOk result (length spanned.new ≡ length spanned.old) }
    ensures spans { OnOk result (MarksSpans table.now ssa.now deps.now plan.now spanned.new) }
{
    'packs: for pack in plan {
        mark_span(alloc, table, ssa, deps, pack, spanned)?;
    }
    Ok(())
}

impl PlanSpans {
    /// What the packs of a plan span. Where a kernel has more than some 2^24 parameters or units there is
    /// no memory.
    pub fn new(
        alloc: Global,
        table: &MatchTable,
        ssa: &Ssa,
        deps: &DepList,
        plan: &[Pack],
    ) -> Result<PlanSpans, AllocError>
        ensures { IfOk result (SpansPlan table.now ssa.now deps.now plan.now) }
    {
        let end = end_of_units(ssa)?;
        let mut spanned = clear_marks(alloc, end)?;
        mark_spans(alloc, table, ssa, deps, plan, spanned.as_mut_slice())?;
        Ok(PlanSpans { spanned })
    }

    /// Marks of the numbers that are spanned.
    pub(crate) fn marks(&self) -> &[bool]
        ensures { result.now ≡ self.now.spanned.items }
    {
        self.spanned.as_slice()
    }
}
