//! The operands that packs take.

ghost use Rattle.std.specs.Prelude.{◌≡◌, ◌+◌, ◌*◌, ◌++◌, ◌<◌, ◌≤◌, ◌^◌, [], ◌∷◌, IfOk, OnOk, length, map};
ghost use Rattle.std.specs.List.{list_any};
ghost use Rattle.vg_plans.specs.Levels.{distinct, distinct_onto, sort_by};
ghost use Rattle.vg_shapes.specs.Description.{description_of};
ghost use Rattle.vg_shapes.specs.Leaves.{bit_number};
ghost use Rattle.vg_shapes.specs.Pack.{bounds_from};
ghost use Rattle.vg_kernel_plans.specs.SameAs.{same_slot};
ghost use Rattle.vg_kernel_plans.specs.Taken.{AreNear, IsShort, MatchesNear, bound_slots, group_operand, lane_bounds, operands_from, operands_of, params_of, register_for, slot_of, slots_from, slots_of, stored};
ghost use Rattle.vg_shapes.specs.Units.{unit_at};

use crate::same::is_same_slot;
use crate::units::{first_width, register_for, stored, unit_at};
use std::alloc::{AllocError, Global};
use vg_base::Items;
use vg_shapes::{Bound, Description, MatchTable, Operand, Pack, Slot, Ssa, Wanted};

/// Appends what a lane of a call binds.
fn push_bounds(
    bounds: &mut Vec<Bound>,
    table: &MatchTable,
    description: u32,
    lane: u32,
    value: Option<u32>,
) -> Result<(), AllocError>
    ensures { OnOk result (bounds.new.items ≡ bounds.old.items ++ lane_bounds table.now description
        lane value) }
{
    match value {
        None => Ok(()),
        Some(value) => match table.get(description, lane, value) {
            Some(found) => bounds.extend_from_slice(found.bound.as_slice()),
            None => Ok(()),
        },
    }
}

/// The leaves that each matched lane of a call binds, and to what, lane 0 first. Fails for want of
/// memory alone.
pub fn bounds_of(
    alloc: Global,
    table: &MatchTable,
    description: u32,
    lanes: &[Option<u32>],
) -> Result<Vec<Bound>, AllocError>
    requires { length lanes.now < 2 ^ 32 }
    ensures { IfOk result (λ bounds. bounds.items ≡ bounds_from table.now description 0 lanes.now) }
{
    let mut bounds = Vec::new(alloc);
    let mut lane = 0;
    'lanes: for value in lanes {
        push_bounds(&mut bounds, table, description, lane, *value)?;
        lane += 1;
    }
    Ok(bounds)
}

/// What a leaf that is bound wants of its parameter.
fn slot_of(bound: &Bound) -> Slot
    requires { bit_number bound.now.key.second < 2 ^ 32 }
    ensures { result ≡ slot_of bound.now }
{
    Slot {
        low: bound.key.second.max(0) as u32,
        width: bound.width,
        wanted: bound.wanted,
    }
}

/// Appends a slot, if it is not there.
fn push_new(slots: &mut Vec<Slot>, slot: Slot) -> Result<(), AllocError>
    ensures { OnOk result (slots.new.items ≡ distinct_onto same_slot slots.old.items (slot ∷ [])) }
{
    if !has_slot(slots.as_slice(), &slot) {
        slots.push(slot)?;
    }
    Ok(())
}

/// Whether one of some slots stands at the same place as this one and wants the same.
pub fn has_slot(slots: &[Slot], slot: &Slot) -> bool
    ensures { result ≡ list_any (same_slot slot.now) slots.now }
{
    slots.iter().any(|s| is_same_slot(slot, s))
}

/// The slot of each leaf of a parameter that is bound, as lanes bind them.
fn bound_slots(alloc: Global, bounds: &[Bound], parameter: usize) -> Result<Vec<Slot>, AllocError>
    requires { AreNear bounds.now }
    ensures { IfOk result (λ slots. slots.items ≡ bound_slots bounds.now parameter) }
{
    let mut slots = Vec::new(alloc);
    'bounds: for bound in bounds {
        if bound.key.first as usize == parameter {
            slots.push(slot_of(bound))?;
        }
    }
    Ok(slots)
}

/// The slots, each once, in the order in which they are first there.
fn distinct_slots(alloc: Global, slots: &[Slot]) -> Result<Vec<Slot>, AllocError>
    ensures { IfOk result (λ found. found.items ≡ distinct same_slot slots.now) }
{
    let mut found = Vec::new(alloc);
    'slots: for slot in slots {
        push_new(&mut found, *slot)?;
    }
    Ok(found)
}

/// The slots by rising lowest bit, as they stood where it is the same.
fn by_low(mut slots: Vec<Slot>) -> Result<Vec<Slot>, AllocError>
    ensures { IfOk result (λ sorted. sorted.items ≡ sort_by (λ s. s.low) slots.items) }
{
    slots.sort_by_key(|s| s.low)?;
    Ok(slots)
}

/// The slots of a parameter: one for each leaf of it that is bound, by rising lowest bit.
fn slots_of(alloc: Global, bounds: &[Bound], parameter: usize) -> Result<Vec<Slot>, AllocError>
    requires { AreNear bounds.now }
    ensures { IfOk result (λ slots. slots.items ≡ slots_of bounds.now parameter) }
{
    let bound = bound_slots(alloc, bounds, parameter)?;
    let found = distinct_slots(alloc, bound.as_slice())?;
    by_low(found)
}

/// An operand for each parameter of these widths in bits, by what leaves of the parameters are bound to.
fn operands_for(alloc: Global, bounds: &[Bound], params: &[u32]) -> Result<Vec<Operand>, AllocError>
    requires { AreNear bounds.now }
    ensures { IfOk result (λ operands. operands.items ≡ operands_from bounds.now 0 params.now) }
{
    let mut operands = Vec::new(alloc);
    let mut parameter = 0;
    'params: for register in params {
        let slots = slots_of(alloc, bounds, parameter)?;
        operands.push(Operand {
            register: *register,
            slots: Items::from_vec(slots),
        })?;
        parameter += 1;
    }
    Ok(operands)
}

/// What stores store, one slot beside the other.
fn stored_slots(
    alloc: Global,
    ssa: &Ssa,
    units: &[u32],
    width: u32,
) -> Result<Vec<Slot>, AllocError>
    requires few { length units.now ≤ 64 }
    requires narrow { width ≤ 64 }
    ensures { IfOk result (λ slots. slots.items ≡ slots_from 0 width (map (λ v. stored (unit_at
        ssa.now v)) units.now)) }
{
    let mut slots = Vec::new(alloc);
    let mut low = 0;
    'units: for unit in units {
        slots.push(Slot {
            low,
            width,
            wanted: stored(unit_at(ssa, *unit)),
        })?;
        low += width;
    }
    Ok(slots)
}

/// The operand of a store group.
fn group_operand(alloc: Global, ssa: &Ssa, units: &[u32]) -> Result<Operand, AllocError>
    requires { length units.now ≤ 64 }
    ensures { IfOk result (λ o. o ≡ group_operand ssa.now units.now) }
{
    let width = first_width(ssa, units);
    let slots = stored_slots(alloc, ssa, units, width)?;
    Ok(Operand {
        register: register_for(units, width),
        slots: Items::from_vec(slots),
    })
}

/// The widths of the parameters of a description, or none where there is no such description.
fn params_of(descriptions: &[Description], number: u32) -> &[u32]
    ensures { result.now ≡ params_of (map description_of descriptions.now) number }
{
    match descriptions.get(number as usize) {
        Some(found) => found.params.as_slice(),
        None => &[],
    }
}

#[tactic(auto, using(crate::proofs::Nearness::near_bounds_of))]
/// The operands of a pack: a store group takes one, a call one for each parameter of its instance,
/// and loads take none.
pub fn operands_of(
    alloc: Global,
    descriptions: &[Description],
    table: &MatchTable,
    ssa: &Ssa,
    pack: &Pack,
) -> Result<Vec<Operand>, AllocError>
    requires near { MatchesNear table.now }
    requires short { IsShort pack.now }
    ensures { IfOk result (λ operands. operands.items ≡ operands_of (map description_of
        descriptions.now) table.now ssa.now pack.now) }
{
    match pack {
        Pack::Loads(_) => Ok(Vec::new(alloc)),
        Pack::Stores(units) => {
            let operand = group_operand(alloc, ssa, units.as_slice())?;
            one(alloc, operand)
        }
        Pack::Call { description, lanes } => {
            let bounds = bounds_of(alloc, table, *description, lanes.as_slice())?;
            let params = params_of(descriptions, *description);
            operands_for(alloc, bounds.as_slice(), params)
        }
    }
}

fn one(alloc: Global, operand: Operand) -> Result<Vec<Operand>, AllocError>
    ensures { IfOk result (λ operands. operands.items ≡ operand ∷ []) }
{
    let mut operands = Vec::new(alloc);
    operands.push(operand)?;
    Ok(operands)
}
