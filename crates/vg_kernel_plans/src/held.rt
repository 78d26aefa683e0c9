//! What the registers of packs hold.

ghost use Rattle.std.specs.Prelude.{◌≡◌, ◌+◌, ◌&&◌, ◌||◌, [], ◌∷◌, Some, length, map, nat_eq, not, if◌then◌else◌};
ghost use Rattle.std.specs.List.{list_all, list_any};
ghost use Rattle.vg_shapes.specs.declared.wanted.Wanted.TheVariants.{Value};
ghost use Rattle.vg_shapes.specs.Description.{description_of};
ghost use Rattle.vg_kernel_plans.specs.Held.{held_slots, holds, is_at_lane, is_filled, is_here, lane_width_of, lanes_from, register_of};
ghost use Rattle.vg_kernel_plans.specs.SameAs.{same_slot};
ghost use Rattle.vg_kernel_plans.specs.Wants.{is_wanted, slot, wanted_slots, wants_value};

use crate::units::{first_width, register_for};
use crate::wants::{is_wanted, wants_value};
use vg_shapes::wanted::is_same_wanted;
use vg_shapes::{Description, Operand, Pack, Slot, Ssa, Wanted};

/// The width in bits of the register of a pack. A store group has none: 0, and so has a call of a
/// description that is not there.
pub fn register_of(descriptions: &[Description], ssa: &Ssa, pack: &Pack) -> u32
    ensures { result ≡ register_of (map description_of descriptions.now) ssa.now pack.now }
{
    match pack {
        Pack::Stores(_) => 0,
        Pack::Loads(units) => {
            let units = units.as_slice();
            register_for(units, first_width(ssa, units))
        }
        Pack::Call { description, .. } => match descriptions.get(*description as usize) {
            Some(found) => found.register,
            None => 0,
        },
    }
}

/// The width in bits of the lanes of a pack. A store group has none: 0, and so has a call of a
/// description that is not there.
pub fn lane_width_of(descriptions: &[Description], ssa: &Ssa, pack: &Pack) -> u32
    ensures { result ≡ lane_width_of (map description_of descriptions.now) ssa.now pack.now }
{
    match pack {
        Pack::Stores(_) => 0,
        Pack::Loads(units) => first_width(ssa, units.as_slice()),
        Pack::Call { description, .. } => match descriptions.get(*description as usize) {
            Some(found) => found.lane_width,
            None => 0,
        },
    }
}

/// Whether nothing is left below a slot, and it has this width and wants this value.
fn is_here(slot: &Slot, below: u32, width: u32, value: u32) -> bool
    ensures { result ≡ is_here slot.now below width value }
{
    below == 0 && (slot.width == width && is_same_wanted(slot.wanted, Wanted::Value(value)))
}

/// Whether a slot is one of loads of this width that stand side by side from bit 0 on.
fn is_among_loads(units: &[u32], width: u32, slot: &Slot) -> bool
    ensures { result ≡ list_any (same_slot slot.now) (lanes_from 0 width (map Some units.now)) }
{
    let mut below = slot.low;
    'units: for unit in units {
        if is_here(slot, below, width, *unit) {
            return true;
        }
        if below < width {
            return false;
        }
        below -= width;
    }
    false
}

/// The same at a lane, which may have no value.
fn is_at_lane(slot: &Slot, below: u32, width: u32, lane: Option<u32>) -> bool
    ensures { result ≡ is_at_lane slot.now below width lane }
{
    match lane {
        Some(value) => is_here(slot, below, width, value),
        None => false,
    }
}

/// Whether a slot is one of lanes of this width that stand side by side from bit 0 on.
fn is_among_lanes(lanes: &[Option<u32>], width: u32, slot: &Slot) -> bool
    ensures { result ≡ list_any (same_slot slot.now) (lanes_from 0 width lanes.now) }
{
    let mut below = slot.low;
    'lanes: for lane in lanes {
        if is_at_lane(slot, below, width, *lane) {
            return true;
        }
        if below < width {
            return false;
        }
        below -= width;
    }
    false
}

/// Whether a pack has what is wanted in a slot, at that place of its register.
pub fn holds_slot(descriptions: &[Description], ssa: &Ssa, pack: &Pack, slot: &Slot) -> bool
    ensures { result ≡ list_any (same_slot slot.now) (held_slots (map description_of
        descriptions.now) ssa.now pack.now) }
{
    let width = lane_width_of(descriptions, ssa, pack);
    match pack {
        Pack::Stores(_) => false,
        Pack::Loads(units) => is_among_loads(units.as_slice(), width, slot),
        Pack::Call { lanes, .. } => is_among_lanes(lanes.as_slice(), width, slot),
    }
}

/// Whether a slot wants nothing, or a value that a pack has at that place of its register.
fn is_filled(descriptions: &[Description], ssa: &Ssa, pack: &Pack, slot: &Slot) -> bool
    ensures { result ≡ is_filled (map description_of descriptions.now) ssa.now pack.now slot.now }
{
    !is_wanted(slot.wanted)
        || (wants_value(slot.wanted) && holds_slot(descriptions, ssa, pack, slot))
}

fn are_filled(descriptions: &[Description], ssa: &Ssa, pack: &Pack, slots: &[Slot]) -> bool
    ensures { result ≡ list_all (is_filled (map description_of descriptions.now) ssa.now pack.now)
        slots.now }
{
    slots.iter().all(|s| is_filled(descriptions, ssa, pack, s))
}

fn some_wanted(slots: &[Slot]) -> bool
    ensures { result ≡ list_any (λ s. is_wanted s.wanted) slots.now }
{
    slots.iter().any(|s| is_wanted(s.wanted))
}

/// Whether a pack holds an operand: it has a register of that width, and each slot that wants something
/// wants a value that the pack has at that place. An operand that wants nothing is held by none.
pub fn holds(descriptions: &[Description], ssa: &Ssa, pack: &Pack, operand: &Operand) -> bool
    ensures { result ≡ holds (map description_of descriptions.now) ssa.now pack.now operand.now }
{
    let slots = operand.slots.as_slice();
    register_of(descriptions, ssa, pack) == operand.register
        && (some_wanted(slots) && are_filled(descriptions, ssa, pack, slots))
}
