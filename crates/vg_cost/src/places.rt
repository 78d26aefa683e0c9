//! Where in the registers of a plan values stand.

ghost use Rattle.std.specs.Prelude.{◌≡◌, ◌<◌, ◌||◌, ◌∷◌, [], IfOk, Some, false, flat_map, get_or, length, map, nat_le, nat_lt, not, slice_get};
ghost use Rattle.std.specs.List.{list_all, list_any};
ghost use Rattle.vg_cost.specs.Marks.{Marked};
ghost use Rattle.vg_cost.specs.Places.{ArePlaces, may_have, may_move, may_stand, place, places_at, places_from, places_of};
ghost use Rattle.vg_kernel_plans.specs.Shuffles.{moved_leaf};
ghost use Rattle.vg_shapes.specs.Description.{description_of};
ghost use Rattle.vg_shapes.specs.Leaves.{bit_number};
ghost use Rattle.vg_terms.specs.Term.{tree};

use crate::lines::end_of_units;
use std::alloc::{AllocError, Global};
use vg_kernel_plans::held::lane_width_of;
use vg_kernel_plans::lane::lane_of;
use vg_kernel_plans::marks::clear_marks;
use vg_kernel_plans::wants::is_wanted;
use vg_shapes::{Description, Operand, Pack, Slot, Ssa, Wanted};
use vg_terms::Term;

/// The number of a value at a byte of a register.
fn place(value: u32, low: u64) -> u64
    requires { low < 512 }
    ensures { result ≡ place value low }
{
    u64::from(value) * 64 + low / 8
}

/// Marks the place of a lane that has a value, unless it is past all marks.
fn mark_lane(marks: &mut [bool], lane: Option<u32>, low: u64)
    requires { low < 512 }
    ensures { Marked (places_at low lane) marks.old marks.new }
{
    match lane {
        None => {}
        Some(value) => mark_place(marks, place(value, low)),
    }
}

/// Marks a place, unless it is past all marks.
fn mark_place(marks: &mut [bool], place: u64)
    ensures { Marked (place ∷ []) marks.old marks.new }
{
    if place >= marks.len() as u64 {
        return;
    }
    marks[place as usize] = true;
}

#[tactic(auto, using(crate::proofs::Marking::marked_more))]
/// Marks the places of lanes of this width, the first at this bit.
fn mark_lanes(marks: &mut [bool], lanes: &[Option<u32>], width: u32, low: u64)
    requires { low < 512 }
    ensures { Marked (places_from low width lanes.now) marks.old marks.new }
{
    match lanes {
        [] => {}
        [first, rest @ ..] => {
            mark_lane(marks, *first, low);
            mark_lanes(marks, rest, width, (low + u64::from(width)) % 512);
        }
    }
}

#[tactic(auto, using(crate::proofs::Marking::marked_more))]
/// The same for lanes that have these values.
fn mark_units(marks: &mut [bool], units: &[u32], width: u32, low: u64)
    requires { low < 512 }
    ensures { Marked (places_from low width (map Some units.now)) marks.old marks.new }
{
    match units {
        [] => {}
        [first, rest @ ..] => {
            mark_lane(marks, Some(*first), low);
            mark_units(marks, rest, width, (low + u64::from(width)) % 512);
        }
    }
}

/// Marks the places of the values that a pack holds.
fn mark_pack(marks: &mut [bool], descriptions: &[Description], ssa: &Ssa, pack: &Pack)
    ensures { Marked (places_of (map description_of descriptions.now) ssa.now pack.now) marks.old
        marks.new }
{
    let width = lane_width_of(descriptions, ssa, pack);
    match pack {
        Pack::Stores(_) => {}
        Pack::Loads(units) => mark_units(marks, units.as_slice(), width, 0),
        Pack::Call { lanes, .. } => mark_lanes(marks, lanes.as_slice(), width, 0),
    }
}

fn mark_packs(marks: &mut [bool], descriptions: &[Description], ssa: &Ssa, packs: &[Pack])
    ensures { Marked (flat_map (places_of (map description_of descriptions.now) ssa.now) packs.now)
        marks.old marks.new }
{
    'packs: for pack in packs {
        mark_pack(marks, descriptions, ssa, pack);
    }
}

/// The places of the values that packs hold, as marks.
pub(crate) fn places_of(
    alloc: Global,
    descriptions: &[Description],
    ssa: &Ssa,
    packs: &[Pack],
) -> Result<Vec<bool>, AllocError>
    ensures { IfOk result (λ marks. ArePlaces (map description_of descriptions.now) ssa.now
        packs.now marks.items) }
{
    let end = end_of_units(ssa)?;
    let mut marks = clear_marks(alloc, end as usize * 64)?;
    mark_packs(marks.as_mut_slice(), descriptions, ssa, packs);
    Ok(marks)
}

fn is_marked(marks: &[bool], place: u64) -> bool
    ensures { result ≡ (not (nat_lt place (length marks.now)) || get_or marks.now place false) }
{
    place >= marks.len() as u64 || marks[place as usize]
}

/// Whether by its mark a value that is wanted at a bit may stand there.
fn may_stand(marks: &[bool], wanted: Wanted, low: u64) -> bool
    ensures { result ≡ may_stand marks.now wanted low }
{
    match wanted {
        Wanted::Value(value) => is_marked(marks, place(value, low % 512)),
        Wanted::Constant { .. } => false,
        Wanted::Nothing => false,
    }
}

/// The number of a bit, where one before bit 0 counts as bit 0.
fn bit_of(bit: i64) -> u64
    ensures { result ≡ bit_number bit }
{
    bit.max(0) as u64
}

/// Whether a lane is a leaf whose parameter may have what is wanted of the lane.
fn may_supply_lane(marks: &[bool], params: usize, lane: &Term, slot: &Slot) -> bool
    ensures { result ≡ list_any
        (λ m. nat_le params m.0 || may_stand marks.now m.1.wanted m.1.low)
        (moved_leaf (Some (tree lane.now)) slot.now) }
{
    match lane {
        Term::Leaf { key, .. } => {
            key.first as usize >= params || may_stand(marks, slot.wanted, bit_of(key.second))
        }
        Term::Const { .. } => false,
        Term::One { .. } => false,
        Term::Two { .. } => false,
        Term::Sel { .. } => false,
    }
}

/// Whether the lane of a slot is such a leaf.
fn may_lanes(marks: &[bool], params: usize, lanes: &[Term], number: u32, slot: &Slot) -> bool
    ensures { result ≡ list_any
        (λ m. nat_le params m.0 || may_stand marks.now m.1.wanted m.1.low)
        (moved_leaf (slice_get (map tree lanes.now) number) slot.now) }
{
    match lanes.get(number as usize) {
        None => false,
        Some(found) => may_supply_lane(marks, params, found, slot),
    }
}

/// Whether a slot wants nothing, or a shuffle may have what it wants.
fn may_move(marks: &[bool], description: &Description, slot: &Slot) -> bool
    ensures { result ≡ may_move marks.now (description_of description.now) slot.now }
{
    if !is_wanted(slot.wanted) {
        return true;
    }
    if slot.width != description.lane_width {
        return false;
    }
    let number = lane_of(slot.low, description.lane_width);
    let params = description.params.as_slice();
    may_lanes(
        marks,
        params.len(),
        description.lanes.as_slice(),
        number,
        slot,
    )
}

fn may_move_all(marks: &[bool], description: &Description, slots: &[Slot]) -> bool
    ensures { result ≡ list_all (may_move marks.now (description_of description.now)) slots.now }
{
    slots.iter().all(|s| may_move(marks, description, s))
}

/// Whether by the places of what packs hold, these may hold what a shuffle takes that makes an
/// operand. Where they may not, it cannot be had.
pub(crate) fn may_have(marks: &[bool], operand: &Operand, description: &Description) -> bool
    ensures { result ≡ may_have marks.now operand.now (description_of description.now) }
{
    description.register == operand.register
        && may_move_all(marks, description, operand.slots.as_slice())
}
