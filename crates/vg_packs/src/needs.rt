//! On which units packs depend.

ghost use Rattle.std.specs.Prelude.{◌≡◌, ◌++◌, IfOk, OnOk, filter, flat_map, [], if◌then◌else◌};
ghost use Rattle.std.specs.List.{filter_map, list_any};
ghost use Rattle.vg_kernel_plans.specs.Packing.{needs_of};
ghost use Rattle.vg_kernel_plans.specs.Wants.{value_of};
ghost use Rattle.vg_plans.specs.World.{is_in};
ghost use Rattle.vg_shapes.specs.DepList.{row_of};
ghost use Rattle.vg_shapes.specs.Pack.{units_of};
ghost use Rattle.vg_shapes.specs.Units.{is_unit};
ghost use Rattle.vg_packs.specs.Walk.{is_in_plan, is_lane_of, needs_for};

use std::alloc::{AllocError, Global};
use vg_kernel_plans::taken::bounds_of;
use vg_kernel_plans::units::unit_at;
use vg_kernel_plans::wants::value_of;
use vg_shapes::{Bound, DepList, MatchTable, Pack, Ssa};

/// The greatest number of lanes of a call.
const MOST: usize = 1 << 24;

fn has_number(numbers: &[u32], number: u32) -> bool
    ensures { result ≡ is_in number numbers.now }
{
    numbers.iter().any(|x| number == *x)
}

fn is_lane_of(lane: Option<u32>, number: u32) -> bool
    ensures { result ≡ is_lane_of number lane }
{
    match lane {
        None => false,
        Some(value) => number == value,
    }
}

fn is_some_lane(lanes: &[Option<u32>], number: u32) -> bool
    ensures { result ≡ list_any (is_lane_of number) lanes.now }
{
    lanes.iter().any(|lane| is_lane_of(*lane, number))
}

fn has_lane(lanes: &[Option<u32>], number: u32) -> bool
    ensures { result ≡ is_in number (filter_map (λ v. v) lanes.now) }
{
    is_some_lane(lanes, number)
}

/// Whether a unit is one of a pack.
pub(crate) fn has_unit(pack: &Pack, unit: u32) -> bool
    ensures { result ≡ is_in unit (units_of pack.now) }
{
    match pack {
        Pack::Stores(units) => has_number(units.as_slice(), unit),
        Pack::Loads(units) => has_number(units.as_slice(), unit),
        Pack::Call { lanes, .. } => has_lane(lanes.as_slice(), unit),
    }
}

/// Whether a unit is one of a plan.
pub(crate) fn is_in_plan(plan: &[Pack], unit: u32) -> bool
    ensures { result ≡ is_in_plan plan.now unit }
{
    plan.iter().any(|pack| has_unit(pack, unit))
}

/// On what units depend, one after the other.
fn rows_of(alloc: Global, deps: &DepList, units: &[u32]) -> Result<Vec<u32>, AllocError>
    ensures { IfOk result (λ needs. needs.items ≡ flat_map (row_of deps.now) units.now) }
{
    let mut needs = Vec::new(alloc);
    'units: for unit in units {
        needs.extend_from_slice(deps.row(*unit))?;
    }
    Ok(needs)
}

fn is_unit(ssa: &Ssa, number: u32) -> bool
    ensures { result ≡ is_unit ssa.now number }
{
    unit_at(ssa, number).is_some()
}

fn bound_values(alloc: Global, bounds: &[Bound]) -> Result<Vec<u32>, AllocError>
    ensures { IfOk result (λ values. values.items ≡ filter_map (λ b. value_of b.wanted)
        bounds.now) }
{
    bounds
        .iter()
        .filter_map(|b| value_of(b.wanted))
        .collect(alloc)
}

fn units_among(alloc: Global, ssa: &Ssa, values: &[u32]) -> Result<Vec<u32>, AllocError>
    ensures { IfOk result (λ units. units.items ≡ filter (is_unit ssa.now) values.now) }
{
    values
        .iter()
        .filter(|v| is_unit(ssa, **v))
        .copied()
        .collect(alloc)
}

/// The units on which a pack depends.
pub(crate) fn pack_needs(
    alloc: Global,
    table: &MatchTable,
    ssa: &Ssa,
    deps: &DepList,
    pack: &Pack,
) -> Result<Vec<u32>, AllocError>
    ensures { IfOk result (λ needs. needs.items ≡ needs_of table.now ssa.now deps.now pack.now) }
{
    match pack {
        Pack::Stores(units) => rows_of(alloc, deps, units.as_slice()),
        Pack::Loads(units) => rows_of(alloc, deps, units.as_slice()),
        Pack::Call { description, lanes } => {
            let lanes = lanes.as_slice();
            if lanes.len() > MOST {
                return Err(AllocError);
            }
            let bounds = bounds_of(alloc, table, *description, lanes)?;
            let values = bound_values(alloc, bounds.as_slice())?;
            units_among(alloc, ssa, values.as_slice())
        }
    }
}

/// Appends the units on which a pack depends, if a unit is one of it.
fn push_needs(
    alloc: Global,
    needs: &mut Vec<u32>,
    table: &MatchTable,
    ssa: &Ssa,
    deps: &DepList,
    pack: &Pack,
    unit: u32,
) -> Result<(), AllocError>
    ensures { OnOk result (needs.new.items ≡ needs.old.items ++ needs_for table.now ssa.now deps.now
        unit pack.now) }
{
    if has_unit(pack, unit) {
        let more = pack_needs(alloc, table, ssa, deps, pack)?;
        needs.extend_from_slice(more.as_slice())?;
    }
    Ok(())
}

/// The units on which the packs of a plan that have a unit depend.
fn packed_needs(
    alloc: Global,
    table: &MatchTable,
    ssa: &Ssa,
    deps: &DepList,
    plan: &[Pack],
    unit: u32,
) -> Result<Vec<u32>, AllocError>
    ensures { IfOk result (λ needs. needs.items ≡ flat_map (needs_for table.now ssa.now deps.now
        unit) plan.now) }
{
    let mut needs = Vec::new(alloc);
    'packs: for pack in plan {
        push_needs(alloc, &mut needs, table, ssa, deps, pack, unit)?;
    }
    Ok(needs)
}

/// The same where the unit is packed, or none.
pub(crate) fn needs_of_packs(
    alloc: Global,
    table: &MatchTable,
    ssa: &Ssa,
    deps: &DepList,
    plan: &[Pack],
    packed: bool,
    unit: u32,
) -> Result<Vec<u32>, AllocError>
    ensures { IfOk result (λ needs. needs.items ≡ (if packed then flat_map (needs_for table.now
        ssa.now deps.now unit) plan.now else [])) }
{
    if packed {
        packed_needs(alloc, table, ssa, deps, plan, unit)
    } else {
        Ok(Vec::new(alloc))
    }
}

/// The units on which the node of a unit depends: those of its packs, if it is packed, or its own.
pub(crate) fn node_needs<'a>(
    deps: &'a DepList,
    of_packs: &'a [u32],
    packed: bool,
    unit: u32,
) -> &'a [u32]
    ensures { result.now ≡ (if packed then of_packs.now else row_of deps.now unit) }
{
    if packed { of_packs } else { deps.row(unit) }
}
