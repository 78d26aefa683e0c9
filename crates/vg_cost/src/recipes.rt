//! What the recipes of operands cost, and which values they insert.

ghost use Rattle.std.specs.Prelude.{◌≡◌, ◌+◌, ◌++◌, [], IfOk, OnOk, flat_map, map, sum_by};
ghost use Rattle.std.specs.List.{list_all};
ghost use Rattle.vg_cost.specs.Had.{costs_had, least_of};
ghost use Rattle.vg_kernel_plans.specs.Packing.{packing};
ghost use Rattle.vg_kernel_plans.specs.Shuffles.{shuffle_of, shuffles};
ghost use Rattle.vg_plans.specs.World.{inserted, is_reused, recipe_cost};
ghost use Rattle.vg_shapes.specs.Description.{description_of};

use crate::price::plus;
use crate::shuffle::shuffle_of;
use std::alloc::{AllocError, Global};
use vg_kernel_plans::held::holds;
use vg_kernel_plans::wants::{is_constant, wanted_values};
use vg_shapes::{Description, Operand, Pack, Ssa};

/// Whether one of these packs holds an operand.
pub fn is_reused(descriptions: &[Description], ssa: &Ssa, packs: &[Pack], operand: &Operand) -> bool
    ensures { result ≡ is_reused (packing (map description_of descriptions.now) [] ssa.now [])
        packs.now operand.now }
{
    packs.iter().any(|p| holds(descriptions, ssa, p, operand))
}

/// Whether each of the parts of a shuffle is held by one of these packs.
pub fn are_reused(
    descriptions: &[Description],
    ssa: &Ssa,
    packs: &[Pack],
    parts: &[Operand],
) -> bool
    ensures { result ≡ list_all (is_reused (packing (map description_of descriptions.now) [] ssa.now
        []) packs.now) parts.now }
{
    parts
        .iter()
        .all(|part| is_reused(descriptions, ssa, packs, part))
}

/// Appends what the shuffle of an instance that makes an operand costs, if it can be had.
pub(crate) fn push_had(
    alloc: Global,
    costs: &mut Vec<u32>,
    descriptions: &[Description],
    ssa: &Ssa,
    packs: &[Pack],
    operand: &Operand,
    description: &Description,
) -> Result<(), AllocError>
    ensures { OnOk result (costs.new.items ≡ costs.old.items ++ costs_had
        (map description_of descriptions.now) ssa.now packs.now
        (shuffle_of operand.now (description_of description.now))) }
{
    let shuffle = shuffle_of(alloc, operand, description)?;
    match shuffle {
        None => Ok(()),
        Some(found) => {
            if are_reused(descriptions, ssa, packs, found.parts.as_slice()) {
                costs.push(found.cost)?;
            }
            Ok(())
        }
    }
}

/// What the shuffles that make an operand and can be had cost.
fn costs_had(
    alloc: Global,
    descriptions: &[Description],
    ssa: &Ssa,
    packs: &[Pack],
    operand: &Operand,
) -> Result<Vec<u32>, AllocError>
    ensures { IfOk result (λ costs. costs.items ≡ costs_had (map description_of descriptions.now)
        ssa.now packs.now (shuffles (map description_of descriptions.now) operand.now)) }
{
    let mut costs = Vec::new(alloc);
    'instances: for description in descriptions {
        push_had(
            alloc,
            &mut costs,
            descriptions,
            ssa,
            packs,
            operand,
            description,
        )?;
    }
    Ok(costs)
}

/// The least of costs, and at most this one.
pub(crate) fn least_of(costs: &[u32], cost: u64) -> u64
    ensures { result ≡ least_of cost costs.now }
{
    let mut least = cost;
    'costs: for cost in costs {
        least = u64::from(*cost).min(least);
    }
    least
}

/// Appends the values that the inserts of an operand take, and answers what its recipe costs.
fn push_recipe(
    alloc: Global,
    values: &mut Vec<u32>,
    descriptions: &[Description],
    ssa: &Ssa,
    packs: &[Pack],
    operand: &Operand,
) -> Result<u64, AllocError>
    ensures cost { IfOk result (λ c. c ≡ recipe_cost
        (packing (map description_of descriptions.now) [] ssa.now []) packs.now operand.now) }
    ensures values { OnOk result (values.new.items ≡ values.old.items ++ inserted
        (packing (map description_of descriptions.now) [] ssa.now []) packs.now operand.now) }
{
    if is_reused(descriptions, ssa, packs, operand) {
        return Ok(0);
    }
    if is_constant(operand) {
        return Ok(1);
    }
    let wanted = wanted_values(alloc, operand)?;
    let wanted = wanted.as_slice();
    let costs = costs_had(alloc, descriptions, ssa, packs, operand)?;
    let costs = costs.as_slice();
    if costs.len() == 0 {
        values.extend_from_slice(wanted)?;
    }
    let inserts = plus(1, wanted.len() as u64)?;
    Ok(least_of(costs, inserts))
}

/// What the recipes of operands cost, and the values that their inserts take.
#[derive(Drop)]
pub(crate) struct Gathered {
    pub(crate) cost: u64,
    pub(crate) values: Vec<u32>,
}

/// What the recipes of operands cost, and the values that their inserts take.
pub(crate) fn gather(
    alloc: Global,
    descriptions: &[Description],
    ssa: &Ssa,
    packs: &[Pack],
    operands: &[Operand],
) -> Result<Gathered, AllocError>
    ensures cost { IfOk result (λ g. g.cost ≡ sum_by
        (recipe_cost (packing (map description_of descriptions.now) [] ssa.now []) packs.now)
        operands.now) }
    ensures values { IfOk result (λ g. g.values.items ≡ flat_map
        (inserted (packing (map description_of descriptions.now) [] ssa.now []) packs.now)
        operands.now) }
{
    let mut cost = 0u64;
    let mut values = Vec::new(alloc);
    'operands: for operand in operands {
        let more = push_recipe(alloc, &mut values, descriptions, ssa, packs, operand)?;
        cost = plus(cost, more)?;
    }
    Ok(Gathered { cost, values })
}
