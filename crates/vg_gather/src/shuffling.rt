//! Which shuffle makes an operand, and the packs that it takes.

ghost use Rattle.std.specs.Prelude.{◌≡◌, IfOk, None, length, map, nat_eq, if◌then◌else◌};
ghost use Rattle.std.specs.List.{list_any};
ghost use Rattle.vg_gather.specs.Cheapest.{cheaper, cheapest};
ghost use Rattle.vg_gather.specs.Recipes.{can_be_had, description_in, holder, packs_from, packs_of, part, ready_from, spare};
ghost use Rattle.vg_kernel_plans.specs.Shuffles.{shuffle_of};
ghost use Rattle.vg_shapes.specs.Description.{description_of};

use std::alloc::{AllocError, Global};
use vg_base::Items;
use vg_cost::recipes::are_reused;
use vg_cost::shuffle::{moved_slots, own_slots, parts_of, shuffle_of};
use vg_kernel_plans::held::holds;
use vg_kernel_plans::wants::wanted_slots;
use vg_shapes::{Description, Operand, Pack, Slot, Ssa};

/// An index of at most 32 bits, or want of memory.
fn short_index(index: usize) -> Result<u32, AllocError>
    ensures { IfOk result (λ n. n ≡ index) }
{
    match u32::try_from(index) {
        Ok(number) => Ok(number),
        Err(_) => Err(AllocError),
    }
}

#[tactic(auto, using(crate::proofs::ParameterSteps::counted))]
/// How many packs stand before the first that holds an operand.
fn count_before(descriptions: &[Description], ssa: &Ssa, packs: &[Pack], operand: &Operand) -> usize
    ensures { result ≡ holder (map description_of descriptions.now) ssa.now packs.now operand.now }
{
    packs
        .iter()
        .take_while(|p| !holds(descriptions, ssa, p, operand))
        .count()
}

/// The index of the first pack that holds an operand, or the number of packs where none does.
pub fn holder(
    descriptions: &[Description],
    ssa: &Ssa,
    packs: &[Pack],
    operand: &Operand,
) -> Result<u32, AllocError>
    ensures { IfOk result (λ k. k ≡ holder (map description_of descriptions.now) ssa.now packs.now
        operand.now) }
{
    short_index(count_before(descriptions, ssa, packs, operand))
}

/// Whether an instance is a shuffle that can make an operand of what packs hold.
fn is_ready(
    alloc: Global,
    descriptions: &[Description],
    ssa: &Ssa,
    packs: &[Pack],
    operand: &Operand,
    description: &Description,
) -> Result<bool, AllocError>
    ensures { IfOk result (λ ready. ready ≡ list_any
        (can_be_had (map description_of descriptions.now) ssa.now packs.now)
        (shuffle_of operand.now (description_of description.now))) }
{
    let shuffle = shuffle_of(alloc, operand, description)?;
    match shuffle {
        None => Ok(false),
        Some(found) => Ok(are_reused(descriptions, ssa, packs, found.parts.as_slice())),
    }
}

/// What a call of the instance of a number costs.
fn cost_of(descriptions: &[Description], number: u32) -> u32
    ensures { result ≡ (description_in (map description_of descriptions.now) number).cost }
{
    match descriptions.get(number as usize) {
        Some(found) => found.cost,
        None => 0,
    }
}

/// The cheaper of two instances by their numbers, the first where both cost the same.
fn cheaper(descriptions: &[Description], best: Option<u32>, number: u32) -> u32
    ensures { result ≡ cheaper (map description_of descriptions.now) best number }
{
    match best {
        None => number,
        Some(other) => {
            if cost_of(descriptions, number) < cost_of(descriptions, other) {
                number
            } else {
                other
            }
        }
    }
}

/// The number of the cheapest instance that is a shuffle which can make an operand of what packs
/// hold, the first of these, if there is one.
pub fn cheapest_shuffle(
    alloc: Global,
    descriptions: &[Description],
    ssa: &Ssa,
    packs: &[Pack],
    operand: &Operand,
) -> Result<Option<u32>, AllocError>
    ensures { IfOk result (λ best. best ≡ cheapest (map description_of descriptions.now) None
        (ready_from (map description_of descriptions.now) ssa.now packs.now operand.now 0
        (map description_of descriptions.now))) }
{
    let mut best = None;
    'instances: for index in 0..descriptions.len() {
        let number = short_index(index)?;
        let description = &descriptions[index];
        if is_ready(alloc, descriptions, ssa, packs, operand, description)? {
            best = Some(cheaper(descriptions, best, number));
        }
    }
    Ok(best)
}

/// The pack that a parameter takes which is not in use: that of the first parameter which is.
fn spare(
    descriptions: &[Description],
    ssa: &Ssa,
    packs: &[Pack],
    parts: &[Operand],
) -> Result<u32, AllocError>
    ensures { IfOk result (λ k. k ≡ spare (holder (map description_of descriptions.now) ssa.now
        packs.now) parts.now) }
{
    match parts.first() {
        None => Ok(0),
        Some(part) => holder(descriptions, ssa, packs, part),
    }
}

/// The pack that the parameter of a number takes: the one that holds its part, or the spare one
/// where it is not in use.
fn pack_for(
    alloc: Global,
    descriptions: &[Description],
    ssa: &Ssa,
    packs: &[Pack],
    moved: &[(u32, Slot)],
    spare: u32,
    parameter: usize,
    register: u32,
) -> Result<u32, AllocError>
    ensures { IfOk result (λ k. k ≡ (if nat_eq (length (part moved.now parameter register).slots) 0
        then spare else holder (map description_of descriptions.now) ssa.now packs.now
        (part moved.now parameter register))) }
{
    let own = own_slots(alloc, moved, parameter)?;
    if own.len() == 0 {
        return Ok(spare);
    }
    let slots = Items::from_vec(own);
    holder(descriptions, ssa, packs, &Operand { register, slots })
}

/// The packs that parameters take.
fn packs_from(
    alloc: Global,
    descriptions: &[Description],
    ssa: &Ssa,
    packs: &[Pack],
    moved: &[(u32, Slot)],
    spare: u32,
    params: &[u32],
) -> Result<Vec<u32>, AllocError>
    ensures { IfOk result (λ taken. taken.items ≡ packs_from
        (holder (map description_of descriptions.now) ssa.now packs.now) moved.now spare 0
        params.now) }
{
    let mut taken = Vec::new(alloc);
    'params: for parameter in 0..params.len() {
        let register = params[parameter];
        let pack = pack_for(
            alloc,
            descriptions,
            ssa,
            packs,
            moved,
            spare,
            parameter,
            register,
        )?;
        taken.push(pack)?;
    }
    Ok(taken)
}

/// The packs that the parameters of a shuffle take which makes an operand.
fn packs_of(
    alloc: Global,
    descriptions: &[Description],
    ssa: &Ssa,
    packs: &[Pack],
    operand: &Operand,
    description: &Description,
) -> Result<Vec<u32>, AllocError>
    ensures { IfOk result (λ taken. taken.items ≡ packs_of (map description_of descriptions.now)
        ssa.now packs.now operand.now (description_of description.now)) }
{
    let slots = wanted_slots(alloc, operand)?;
    let moved = moved_slots(alloc, description, slots.as_slice())?;
    let moved = moved.as_slice();
    let params = description.params.as_slice();
    let parts = parts_of(alloc, moved, params)?;
    let spare = spare(descriptions, ssa, packs, parts.as_slice())?;
    packs_from(alloc, descriptions, ssa, packs, moved, spare, params)
}

/// The packs that the parameters of the shuffle of this number take, where it makes an operand.
pub fn shuffled_packs(
    alloc: Global,
    descriptions: &[Description],
    ssa: &Ssa,
    packs: &[Pack],
    operand: &Operand,
    number: u32,
) -> Result<Vec<u32>, AllocError>
    ensures { IfOk result (λ taken. taken.items ≡ packs_of (map description_of descriptions.now)
        ssa.now packs.now operand.now (description_in (map description_of descriptions.now)
        number)) }
{
    match descriptions.get(number as usize) {
        Some(found) => packs_of(alloc, descriptions, ssa, packs, operand, found),
        None => Ok(Vec::new(alloc)),
    }
}
