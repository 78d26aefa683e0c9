//! Whether a plan stays one with a pack after it.

ghost use Rattle.std.specs.Prelude.{◌≡◌, ◌+◌, ◌<◌, ◌≤◌, ℕ, [], All, IfOk, OnOk, false, flat_map, get_or, length, replicate, true};
ghost use Rattle.std.specs.List.{filter_map, list_any};
ghost use Rattle.vg_kernel_plans.specs.Packing.{needs_of, packing};
ghost use Rattle.vg_plans.specs.World.{is_in, stays_plan};
ghost use Rattle.vg_shapes.specs.DepList.{row_of};
ghost use Rattle.vg_shapes.specs.Pack.{units_of};
ghost use Rattle.vg_shapes.specs.Units.{arguments, is_unit};
ghost use Rattle.vg_packs.specs.Floor.{IsFloor};
ghost use Rattle.vg_packs.specs.Marks.{AreMarks, is_packed_by};
ghost use Rattle.vg_packs.specs.Walk.{HasWay, IsApart, IsFree, IsSettled, KeepMarks, LeadsApart, NameUnits, Pushed, is_in_plan, is_lane_in, node_needs};

use crate::marks::{is_marked, mark_pack, marks_below, some_marked};
use crate::needs::{is_in_plan, needs_of_packs, node_needs, pack_needs};
use crate::plan_marks::PlanMarks;
use std::alloc::{AllocError, Global};
use vg_kernel_plans::marks::clear_marks;
use vg_shapes::{DepList, MatchTable, Pack, Ssa};

/// The greatest number of integer parameters, and of units, of a kernel that is walked.
const MOST: usize = 1 << 24;

/// Marks and pushes those of a list that are not marked.
fn push_new(list: &[u32], marks: &mut [bool], stack: &mut Vec<u32>) -> Result<(), AllocError>
    requires { All (λ v. v < length marks.old) list.now }
    ensures { OnOk result (Pushed list.now marks.old stack.old.items marks.new stack.new.items) }
{
    'units: for x in list {
        let marked = marks[*x as usize];
        if !marked {
            marks[*x as usize] = true;
            stack.push(*x)?;
        }
    }
    Ok(())
}

/// Whether there is a way from units down to one that is marked as the pack's own. Marks what is reached.
fn walk_down(
    alloc: Global,
    table: &MatchTable,
    ssa: &Ssa,
    deps: &DepList,
    plan: &[Pack],
    packed: &[bool],
    own: &[bool],
    starts: &[u32],
    marks: &mut [bool],
) -> Result<bool, AllocError>
    requires names { NameUnits ssa.now deps.now }
    requires packed { AreMarks (length marks.old) (is_in_plan plan.now) packed.now }
    requires starts_inside { All (λ v. v < length marks.old) starts.now }
    requires units_inside { (v : ℕ) → is_unit ssa.now v ≡ true → v < length marks.old }
    requires settled { IsSettled (node_needs table.now ssa.now deps.now plan.now) (λ v. get_or
        own.now v false) marks.old }
    ensures way { IfOk result (λ r. r ≡ true → HasWay (node_needs table.now ssa.now deps.now
        plan.now) (λ v. get_or own.now v false) starts.now) }
    ensures apart { IfOk result (λ r. r ≡ false → IsApart (node_needs table.now ssa.now deps.now
        plan.now) (λ v. get_or own.now v false) starts.now marks.new) }
    ensures kept { IfOk result (λ r. r ≡ false → KeepMarks marks.old marks.new) }
{
    let mut stack: Vec<u32> = Vec::new(alloc);
    push_new(starts, marks, &mut stack)?;
    'units: while let Some(v) = stack.pop() {
        let found = is_marked(own, v);
        if found {
            return Ok(true);
        }
        let there = is_marked(packed, v);
        let of_packs = needs_of_packs(alloc, table, ssa, deps, plan, there, v)?;
        let needs = node_needs(deps, of_packs.as_slice(), there, v);
        let met = some_marked(own, needs);
        if met {
            return Ok(true);
        }
        push_new(needs, marks, &mut stack)?;
    }
    Ok(false)
}

/// The same from what some units depend on, read in place unit by unit, so that none is looked at after
/// the first from which there is a way.
fn rows_reach(
    alloc: Global,
    table: &MatchTable,
    ssa: &Ssa,
    deps: &DepList,
    plan: &[Pack],
    packed: &[bool],
    own: &[bool],
    units: &[u32],
    marks: &mut [bool],
) -> Result<bool, AllocError>
    requires names { NameUnits ssa.now deps.now }
    requires packed { AreMarks (length marks.old) (is_in_plan plan.now) packed.now }
    requires units_inside { (v : ℕ) → is_unit ssa.now v ≡ true → v < length marks.old }
    requires settled { IsSettled (node_needs table.now ssa.now deps.now plan.now) (λ v. get_or
        own.now v false) marks.old }
    ensures way { IfOk result (λ r. r ≡ true → HasWay (node_needs table.now ssa.now deps.now
        plan.now) (λ v. get_or own.now v false) (flat_map (row_of deps.now) units.now)) }
    ensures apart { IfOk result (λ r. r ≡ false → IsApart (node_needs table.now ssa.now deps.now
        plan.now) (λ v. get_or own.now v false) (flat_map (row_of deps.now) units.now) marks.new) }
{
    'units: for unit in units {
        let row = deps.row(*unit);
        let reached = walk_down(alloc, table, ssa, deps, plan, packed, own, row, marks)?;
        if reached {
            return Ok(true);
        }
    }
    Ok(false)
}

/// The same from what a pack needs.
fn needs_reach(
    alloc: Global,
    table: &MatchTable,
    ssa: &Ssa,
    deps: &DepList,
    plan: &[Pack],
    packed: &[bool],
    own: &[bool],
    pack: &Pack,
    marks: &mut [bool],
) -> Result<bool, AllocError>
    requires names { NameUnits ssa.now deps.now }
    requires packed { AreMarks (length marks.old) (is_in_plan plan.now) packed.now }
    requires units_inside { (v : ℕ) → is_unit ssa.now v ≡ true → v < length marks.old }
    requires settled { IsSettled (node_needs table.now ssa.now deps.now plan.now) (λ v. get_or
        own.now v false) marks.old }
    ensures way { IfOk result (λ r. r ≡ true → HasWay (node_needs table.now ssa.now deps.now
        plan.now) (λ v. get_or own.now v false) (needs_of table.now ssa.now deps.now pack.now)) }
    ensures apart { IfOk result (λ r. r ≡ false → IsApart (node_needs table.now ssa.now deps.now
        plan.now) (λ v. get_or own.now v false) (needs_of table.now ssa.now deps.now pack.now)
        marks.new) }
{
    match pack {
        Pack::Stores(units) => {
            let units = units.as_slice();
            rows_reach(alloc, table, ssa, deps, plan, packed, own, units, marks)
        }
        Pack::Loads(units) => {
            let units = units.as_slice();
            rows_reach(alloc, table, ssa, deps, plan, packed, own, units, marks)
        }
        Pack::Call { .. } => {
            let needs = pack_needs(alloc, table, ssa, deps, pack)?;
            let starts = needs.as_slice();
            walk_down(alloc, table, ssa, deps, plan, packed, own, starts, marks)
        }
    }
}

/// The first number after those of all units.
pub(crate) fn end_of_units(ssa: &Ssa) -> Result<usize, AllocError>
    ensures { IfOk result (λ end. end ≡ arguments ssa.now + length ssa.now.units) }
{
    let first = ssa.arguments();
    let count = ssa.units.as_slice().len();
    if first > MOST || count > MOST {
        return Err(AllocError);
    }
    Ok(first + count)
}

/// Whether there is a way from what a pack needs, by what the nodes of a plan need, back to the pack. The
/// units of the plan are marked; of the other marks those are set that need no look.
fn reaches_by(
    alloc: Global,
    table: &MatchTable,
    ssa: &Ssa,
    deps: &DepList,
    plan: &[Pack],
    packed: &[bool],
    pack: &Pack,
    own: &mut [bool],
    marks: &mut [bool],
) -> Result<bool, AllocError>
    requires names { NameUnits ssa.now deps.now }
    requires packed { AreMarks (arguments ssa.now + length ssa.now.units) (is_in_plan plan.now)
        packed.now }
    requires own { own.old ≡ replicate (arguments ssa.now + length ssa.now.units) false }
    requires long { length marks.old ≡ arguments ssa.now + length ssa.now.units }
    requires settled { IsSettled (node_needs table.now ssa.now deps.now plan.now) (λ v. is_in v
        (units_of pack.now)) marks.old }
    ensures way { IfOk result (λ r. r ≡ true → HasWay (node_needs table.now ssa.now deps.now
        plan.now) (λ v. is_in v (units_of pack.now)) (needs_of table.now ssa.now deps.now
        pack.now)) }
    ensures apart { IfOk result (λ r. r ≡ false → LeadsApart (node_needs table.now ssa.now deps.now
        plan.now) (λ v. is_in v (units_of pack.now)) (needs_of table.now ssa.now deps.now
        pack.now)) }
{
    mark_pack(own, pack);
    needs_reach(alloc, table, ssa, deps, plan, packed, own, pack, marks)
}

/// The same, with marks of its own: what is below a floor needs no look.
pub(crate) fn reaches_itself(
    alloc: Global,
    table: &MatchTable,
    ssa: &Ssa,
    deps: &DepList,
    plan: &[Pack],
    packed: &[bool],
    pack: &Pack,
    end: usize,
    floor: u32,
) -> Result<bool, AllocError>
    requires names { NameUnits ssa.now deps.now }
    requires end { end ≡ arguments ssa.now + length ssa.now.units }
    requires packed { AreMarks end (is_in_plan plan.now) packed.now }
    requires floor { IsFloor (node_needs table.now ssa.now deps.now plan.now) (λ v. is_in v
        (units_of pack.now)) floor }
    requires inside { floor ≤ end }
    ensures way { IfOk result (λ r. r ≡ true → HasWay (node_needs table.now ssa.now deps.now
        plan.now) (λ v. is_in v (units_of pack.now)) (needs_of table.now ssa.now deps.now
        pack.now)) }
    ensures apart { IfOk result (λ r. r ≡ false → LeadsApart (node_needs table.now ssa.now deps.now
        plan.now) (λ v. is_in v (units_of pack.now)) (needs_of table.now ssa.now deps.now
        pack.now)) }
{
    let mut own = clear_marks(alloc, end)?;
    let mut marks = marks_below(alloc, end, floor)?;
    reaches_by(
        alloc,
        table,
        ssa,
        deps,
        plan,
        packed,
        pack,
        own.as_mut_slice(),
        marks.as_mut_slice(),
    )
}

/// Whether a unit is one of a plan, by the marks of its units as far as they go.
fn is_packed(packed: &[bool], plan: &[Pack], unit: u32) -> bool
    ensures { result ≡ is_packed_by packed.now plan.now unit }
{
    if (unit as usize) < packed.len() {
        is_marked(packed, unit)
    } else {
        is_in_plan(plan, unit)
    }
}

fn some_packed(packed: &[bool], plan: &[Pack], units: &[u32]) -> bool
    ensures { result ≡ list_any (is_packed_by packed.now plan.now) units.now }
{
    units.iter().any(|unit| is_packed(packed, plan, *unit))
}

fn is_lane_packed(packed: &[bool], plan: &[Pack], lane: Option<u32>) -> bool
    ensures { result ≡ is_lane_in (is_packed_by packed.now plan.now) lane }
{
    match lane {
        None => false,
        Some(unit) => is_packed(packed, plan, unit),
    }
}

fn some_lane_packed(packed: &[bool], plan: &[Pack], lanes: &[Option<u32>]) -> bool
    ensures { result ≡ list_any (is_lane_in (is_packed_by packed.now plan.now)) lanes.now }
{
    lanes.iter().any(|lane| is_lane_packed(packed, plan, *lane))
}

fn lanes_overlap(packed: &[bool], plan: &[Pack], lanes: &[Option<u32>]) -> bool
    ensures { result ≡ list_any (is_packed_by packed.now plan.now) (filter_map (λ v. v) lanes.now) }
{
    some_lane_packed(packed, plan, lanes)
}

/// Whether some unit of a pack is one of a plan, of which the units are marked.
pub(crate) fn overlaps(packed: &[bool], plan: &[Pack], pack: &Pack) -> bool
    ensures { result ≡ list_any (is_packed_by packed.now plan.now) (units_of pack.now) }
{
    match pack {
        Pack::Stores(units) => some_packed(packed, plan, units.as_slice()),
        Pack::Loads(units) => some_packed(packed, plan, units.as_slice()),
        Pack::Call { lanes, .. } => lanes_overlap(packed, plan, lanes.as_slice()),
    }
}

/// Whether a plan that has no cycle stays one with a pack after it: no unit of the pack is in it, and
/// no unit of the pack depends on another through units outside it. The dependences name units
/// alone.
pub fn stays_plan(
    alloc: Global,
    plan: &[Pack],
    pack: &Pack,
    table: &MatchTable,
    ssa: &Ssa,
    deps: &DepList,
) -> Result<bool, AllocError>
    requires names { NameUnits ssa.now deps.now }
    requires free { IsFree table.now ssa.now deps.now plan.now }
    ensures { IfOk result (λ b. b ≡ stays_plan (packing [] table.now ssa.now deps.now) plan.now
        pack.now) }
{
    let marks = PlanMarks::new(alloc, ssa, plan)?;
    marks.stays_plan(alloc, plan, pack, table, ssa, deps)
}
