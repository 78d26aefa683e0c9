//! The shuffles that can be had, looked for among those that may be.

ghost use Rattle.std.specs.Prelude.{◌≡◌, ◌++◌, IfOk, OnOk, flat_map, map};
ghost use Rattle.vg_cost.specs.Had.{costs_had};
ghost use Rattle.vg_cost.specs.Places.{ArePlaces};
ghost use Rattle.vg_cost.specs.Shuffling.{AreShuffles, shuffle_at};
ghost use Rattle.vg_kernel_plans.specs.Shuffles.{shuffle_of, shuffles};
ghost use Rattle.vg_shapes.specs.Description.{description_of};

use crate::places::{may_have, places_of};
use crate::recipes::push_had;
use crate::shuffles::Shuffles;
use std::alloc::{AllocError, Global};
use vg_shapes::{Description, Operand, Pack, Ssa};

/// Appends what the shuffle of a description costs, if it can be had.
fn push_likely(
    alloc: Global,
    costs: &mut Vec<u32>,
    descriptions: &[Description],
    ssa: &Ssa,
    packs: &[Pack],
    places: &[bool],
    operand: &Operand,
    description: &Description,
) -> Result<(), AllocError>
    requires { ArePlaces (map description_of descriptions.now) ssa.now packs.now places.now }
    ensures { OnOk result (costs.new.items ≡ costs.old.items ++ costs_had
        (map description_of descriptions.now) ssa.now packs.now
        (shuffle_of operand.now (description_of description.now))) }
{
    if may_have(places, operand, description) {
        return push_had(alloc, costs, descriptions, ssa, packs, operand, description);
    }
    Ok(())
}

/// Appends what the shuffle of the description of a number costs, if it can be had.
fn push_numbered(
    alloc: Global,
    costs: &mut Vec<u32>,
    descriptions: &[Description],
    ssa: &Ssa,
    packs: &[Pack],
    places: &[bool],
    operand: &Operand,
    number: usize,
) -> Result<(), AllocError>
    requires { ArePlaces (map description_of descriptions.now) ssa.now packs.now places.now }
    ensures { OnOk result (costs.new.items ≡ costs.old.items ++ costs_had
        (map description_of descriptions.now) ssa.now packs.now
        (shuffle_at (map description_of descriptions.now) operand.now number)) }
{
    match descriptions.get(number) {
        None => Ok(()),
        Some(found) => push_likely(
            alloc,
            costs,
            descriptions,
            ssa,
            packs,
            places,
            operand,
            found,
        ),
    }
}

/// What the shuffles of these numbers that make an operand and can be had cost.
fn costs_of(
    alloc: Global,
    descriptions: &[Description],
    ssa: &Ssa,
    packs: &[Pack],
    numbers: &[usize],
    operand: &Operand,
) -> Result<Vec<u32>, AllocError>
    ensures { IfOk result (λ costs. costs.items ≡ costs_had (map description_of descriptions.now)
        ssa.now packs.now
        (flat_map (shuffle_at (map description_of descriptions.now) operand.now) numbers.now)) }
{
    let places = places_of(alloc, descriptions, ssa, packs)?;
    let places = places.as_slice();
    let mut costs = Vec::new(alloc);
    'numbers: for number in numbers {
        push_numbered(
            alloc,
            &mut costs,
            descriptions,
            ssa,
            packs,
            places,
            operand,
            *number,
        )?;
    }
    Ok(costs)
}

/// What the shuffles that make an operand and can be had cost.
pub(crate) fn costs_among(
    alloc: Global,
    descriptions: &[Description],
    ssa: &Ssa,
    packs: &[Pack],
    known: &Shuffles,
    operand: &Operand,
) -> Result<Vec<u32>, AllocError>
    requires { AreShuffles (map description_of descriptions.now) known.now }
    ensures { IfOk result (λ costs. costs.items ≡ costs_had (map description_of descriptions.now)
        ssa.now packs.now (shuffles (map description_of descriptions.now) operand.now)) }
{
    let numbers = known.numbers.as_slice();
    if numbers.is_empty() {
        return Ok(Vec::new(alloc));
    }
    costs_of(alloc, descriptions, ssa, packs, numbers, operand)
}
