//! Which recipe an operand takes.

ghost use Rattle.std.specs.Prelude.{◌≡◌, IfOk, map};
ghost use Rattle.vg_gather.specs.Recipes.{ready_from, recipe_of, shuffled};
ghost use Rattle.vg_shapes.specs.Description.{description_of};

use crate::constant_bytes::constant_bytes;
use crate::shuffling::{cheapest_shuffle, holder, shuffled_packs};
use std::alloc::{AllocError, Global};
use vg_base::Items;
use vg_cost::recipes::is_reused;
use vg_kernel_plans::Recipe;
use vg_kernel_plans::wants::is_constant;
use vg_shapes::{Description, Operand, Pack, Plan, Ssa};

/// The recipe of an operand that is a shuffle, or else inserts.
fn build_shuffle(
    alloc: Global,
    operand: &Operand,
    packs: &[Pack],
    descriptions: &[Description],
    ssa: &Ssa,
) -> Result<Recipe, AllocError>
    ensures { IfOk result (λ recipe. recipe ≡ shuffled (map description_of descriptions.now) ssa.now
        packs.now operand.now (ready_from (map description_of descriptions.now) ssa.now packs.now
        operand.now 0 (map description_of descriptions.now))) }
{
    match cheapest_shuffle(alloc, descriptions, ssa, packs, operand)? {
        None => Ok(Recipe::Inserts),
        Some(description) => {
            let taken = shuffled_packs(alloc, descriptions, ssa, packs, operand, description)?;
            let packs = Items::from_vec(taken);
            Ok(Recipe::Shuffle { description, packs })
        }
    }
}

/// The recipe of an operand beside the packs of a plan: the register of the first pack that holds
/// it; where none does and it wants no value, its constants; else the shuffle of least cost that
/// can be had of what packs hold, the first of these; else inserts. Fails for want of memory, and
/// where an index has more than 32 bits.
pub fn build_operand(
    alloc: Global,
    operand: &Operand,
    plan: &Plan,
    descriptions: &[Description],
    ssa: &Ssa,
) -> Result<Recipe, AllocError>
    ensures { IfOk result (λ recipe. recipe ≡ recipe_of (map description_of descriptions.now)
        ssa.now plan.now operand.now) }
{
    let packs = plan.as_slice();
    if is_reused(descriptions, ssa, packs, operand) {
        let pack = holder(descriptions, ssa, packs, operand)?;
        return Ok(Recipe::Reuse(pack));
    }
    if is_constant(operand) {
        let bytes = constant_bytes(alloc, operand)?;
        return Ok(Recipe::Constant(Items::from_vec(bytes)));
    }
    build_shuffle(alloc, operand, packs, descriptions, ssa)
}

/// The recipes of operands beside the packs of a plan, in the order of the operands. Fails as
/// `build_operand` does.
pub fn recipes_of(
    alloc: Global,
    operands: &[Operand],
    plan: &Plan,
    descriptions: &[Description],
    ssa: &Ssa,
) -> Result<Vec<Recipe>, AllocError>
    ensures { IfOk result (λ recipes. recipes.items ≡ map
        (recipe_of (map description_of descriptions.now) ssa.now plan.now) operands.now) }
{
    let mut recipes = Vec::new(alloc);
    'operands: for operand in operands {
        let recipe = build_operand(alloc, operand, plan, descriptions, ssa)?;
        recipes.push(recipe)?;
    }
    Ok(recipes)
}
