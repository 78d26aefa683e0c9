//! Shuffles that can make an operand.

ghost use Rattle.std.specs.Prelude.{◌≡◌, ◌==◌, ◌++◌, ◌%◌, [], ◌∷◌, IfOk, OnOk, Some, filter, flat_map, length, map, nat_eq, slice_get};
ghost use Rattle.std.specs.List.{list_all};
ghost use Rattle.vg_cost.specs.Had.{shuffle_list};
ghost use Rattle.vg_kernel_plans.specs.Shuffles.{is_lane_slot, moved_from, moved_leaf, parts_from, shuffle_of};
ghost use Rattle.vg_shapes.specs.Description.{description_of};
ghost use Rattle.vg_shapes.specs.Leaves.{bit_number};
ghost use Rattle.vg_terms.specs.Term.{tree};

use std::alloc::{AllocError, Global};
use vg_base::Items;
use vg_kernel_plans::lane::lane_of;
use vg_kernel_plans::shuffles::is_shuffle;
use vg_kernel_plans::wants::{wanted_slots, wants_value};
use vg_shapes::{Description, Operand, Slot};
use vg_terms::Term;

/// A shuffle that can make an operand: what its call costs, from 1 to 1,000, and what the pack
/// given to each parameter in use has to hold.
#[derive(Drop)]
pub struct Shuffle {
    pub cost: u32,
    pub parts: Vec<Operand>,
}

#[tactic(auto, using(crate::proofs::Zero::left_by_none))]
/// Whether a bit is the lowest of a lane, which only bit 0 is where lanes have no width.
fn begins_lane(low: u32, width: u32) -> bool
    ensures { result ≡ nat_eq (low % width) 0 }
{
    if width == 0 {
        low == 0
    } else {
        low % width == 0
    }
}

/// Whether a slot wants a value and is a lane of this width.
fn is_lane_slot(width: u32, slot: &Slot) -> bool
    ensures { result ≡ is_lane_slot width slot.now }
{
    wants_value(slot.wanted) && (slot.width == width && begins_lane(slot.low, width))
}

fn are_lane_slots(width: u32, slots: &[Slot]) -> bool
    ensures { result ≡ list_all (is_lane_slot width) slots.now }
{
    slots.iter().all(|s| is_lane_slot(width, s))
}

/// The number of a bit, or want of memory where it has more than 32 bits.
fn bit_number(bit: i64) -> Result<u32, AllocError>
    ensures { IfOk result (λ n. n ≡ bit_number bit) }
{
    if bit > i64::from(u32::MAX) {
        return Err(AllocError);
    }
    Ok(bit.max(0) as u32)
}

/// Appends the leaf that a lane is, if it is one, as its parameter and a slot of it that wants what
/// is wanted of the lane.
fn push_leaf(moved: &mut Vec<(u32, Slot)>, lane: &Term, slot: &Slot) -> Result<(), AllocError>
    ensures { OnOk result (moved.new.items ≡ moved.old.items ++ moved_leaf (Some (tree lane.now))
        slot.now) }
{
    match lane {
        Term::Leaf { width, key } => {
            let low = bit_number(key.second)?;
            moved.push((
                key.first,
                Slot {
                    low,
                    width: *width,
                    wanted: slot.wanted,
                },
            ))?;
            Ok(())
        }
        Term::Const { .. } => Ok(()),
        Term::One { .. } => Ok(()),
        Term::Two { .. } => Ok(()),
        Term::Sel { .. } => Ok(()),
    }
}

/// Appends the leaf that the lane of a number is, if there is such a lane and it is one.
fn push_lane(
    moved: &mut Vec<(u32, Slot)>,
    lanes: &[Term],
    number: u32,
    slot: &Slot,
) -> Result<(), AllocError>
    ensures { OnOk result (moved.new.items ≡ moved.old.items ++ moved_leaf
        (slice_get (map tree lanes.now) number) slot.now) }
{
    match lanes.get(number as usize) {
        None => Ok(()),
        Some(found) => push_leaf(moved, found, slot),
    }
}

/// Appends the leaf that the lane of a slot is.
fn push_moved(
    moved: &mut Vec<(u32, Slot)>,
    description: &Description,
    slot: &Slot,
) -> Result<(), AllocError>
    ensures { OnOk result (moved.new.items ≡ moved.old.items ++ moved_from
        (description_of description.now) slot.now) }
{
    let number = lane_of(slot.low, description.lane_width);
    push_lane(moved, description.lanes.as_slice(), number, slot)
}

/// The leaves that the lanes of slots are, each as its parameter and a slot of it that wants what
/// is wanted of the lane.
pub fn moved_slots(
    alloc: Global,
    description: &Description,
    slots: &[Slot],
) -> Result<Vec<(u32, Slot)>, AllocError>
    ensures { IfOk result (λ moved. moved.items ≡ flat_map
        (moved_from (description_of description.now)) slots.now) }
{
    let mut moved = Vec::new(alloc);
    'slots: for slot in slots {
        push_moved(&mut moved, description, slot)?;
    }
    Ok(moved)
}

/// Of such leaves the slots of a parameter.
pub fn own_slots(
    alloc: Global,
    moved: &[(u32, Slot)],
    parameter: usize,
) -> Result<Vec<Slot>, AllocError>
    ensures { IfOk result (λ slots. slots.items ≡ map (λ m. m.1)
        (filter (λ m. nat_eq m.0 parameter) moved.now)) }
{
    moved
        .iter()
        .filter(|m| m.0 as usize == parameter)
        .map(|m| m.1)
        .collect(alloc)
}

/// Appends what the pack given to a parameter has to hold, if it is in use.
fn push_part(
    alloc: Global,
    parts: &mut Vec<Operand>,
    moved: &[(u32, Slot)],
    parameter: usize,
    register: u32,
) -> Result<(), AllocError>
    ensures { OnOk result (parts.new.items ≡ parts.old.items ++ parts_from moved.now parameter
        (register ∷ [])) }
{
    let own = own_slots(alloc, moved, parameter)?;
    if own.len() == 0 {
        return Ok(());
    }
    parts.push(Operand {
        register,
        slots: Items::from_vec(own),
    })?;
    Ok(())
}

/// What the pack given to each parameter in use has to hold.
pub fn parts_of(
    alloc: Global,
    moved: &[(u32, Slot)],
    params: &[u32],
) -> Result<Vec<Operand>, AllocError>
    ensures { IfOk result (λ parts. parts.items ≡ parts_from moved.now 0 params.now) }
{
    let mut parts = Vec::new(alloc);
    let mut parameter = 0;
    'params: for register in params {
        push_part(alloc, &mut parts, moved, parameter, *register)?;
        parameter += 1;
    }
    Ok(parts)
}

/// How an instance makes an operand as a shuffle. None where it cannot: where it is no shuffle, has
/// a register of another width or other lanes, or costs more than inserts do. Fails for want of
/// memory alone.
pub fn shuffle_of(
    alloc: Global,
    operand: &Operand,
    description: &Description,
) -> Result<Option<Shuffle>, AllocError>
    ensures { IfOk result (λ found. shuffle_list found ≡ shuffle_of operand.now
        (description_of description.now)) }
{
    if description.register != operand.register || !is_shuffle(description) {
        return Ok(None);
    }
    let slots = wanted_slots(alloc, operand)?;
    let slots = slots.as_slice();
    if !are_lane_slots(description.lane_width, slots) {
        return Ok(None);
    }
    let moved = moved_slots(alloc, description, slots)?;
    let moved = moved.as_slice();
    if moved.len() != slots.len() || description.cost as u128 > 1 + slots.len() as u128 {
        return Ok(None);
    }
    let parts = parts_of(alloc, moved, description.params.as_slice())?;
    Ok(Some(Shuffle {
        cost: description.cost,
        parts,
    }))
}
