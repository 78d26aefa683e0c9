//! The operands that a plan takes.

ghost use Rattle.std.specs.Prelude.{◌≡◌, ◌||◌, ◌++◌, [], IfOk, OnOk, filter_map, flat_map, length, map, sum_by};
ghost use Rattle.std.specs.List.{list_any, AllByRecursion};
ghost use Rattle.vg_cost.specs.LongerPlan.{IsKnown, all_packs, described};
ghost use Rattle.vg_cost.specs.Marks.{Marked};
ghost use Rattle.vg_cost.specs.Moves.{Moves};
ghost use Rattle.vg_cost.specs.Taken.{add_all, add_taken, inserted_for, kept_for, recipe_for, taken_for, taken_of};
ghost use Rattle.vg_cost.specs.Touch.{IsKnownBy};
ghost use Rattle.vg_kernel_plans.specs.SameAs.{same_operand};
ghost use Rattle.vg_kernel_plans.specs.Wants.{value_of};

use crate::copies::copy_operand;
use crate::counts::count_inserted;
use crate::lines::mark_wanted;
use crate::longer_plan::LongerPlan;
use crate::price::plus;
use crate::recipe_cost::{RecipeCost, recipe_cost};
use crate::touch::may_use_marked;
use std::alloc::{AllocError, Global};
use vg_kernel_plans::same::is_same_operand;
use vg_shapes::{Operand, Slot};

/// An operand that a plan takes, and what its recipe costs.
#[derive(Drop)]
pub(crate) struct Taken {
    pub(crate) operand: Operand,
    pub(crate) recipe: RecipeCost,
}

/// What the recipe of an operand of a plan costs in a longer one. It is looked at again only if the
/// pack after the plan may have one of the operand's values.
fn kept_recipe(alloc: Global, plan: &LongerPlan, taken: &Taken) -> Result<RecipeCost, AllocError>
    requires plan { IsKnown plan.now }
    requires known { IsKnownBy (described plan.now) plan.now.ssa.now (all_packs plan.now)
        plan.now.own.now taken.now }
    ensures { IfOk result (λ r. r ≡ recipe_for (described plan.now) plan.now.ssa.now
        (all_packs plan.now) taken.now.operand) }
{
    let operand = &taken.operand;
    if may_use_marked(plan.own, operand) {
        return recipe_cost(alloc, plan, operand);
    }
    Ok(taken.recipe)
}

/// An operand of a plan in a longer one.
fn keep(alloc: Global, plan: &LongerPlan, taken: &Taken) -> Result<Taken, AllocError>
    requires plan { IsKnown plan.now }
    requires known { IsKnownBy (described plan.now) plan.now.ssa.now (all_packs plan.now)
        plan.now.own.now taken.now }
    ensures { IfOk result (λ t. t ≡ kept_for (described plan.now) plan.now.ssa.now
        (all_packs plan.now) taken.now) }
{
    let operand = copy_operand(alloc, &taken.operand)?;
    let recipe = kept_recipe(alloc, plan, taken)?;
    Ok(Taken { operand, recipe })
}

/// The operands of a plan in a longer one.
pub(crate) fn keep_all(
    alloc: Global,
    plan: &LongerPlan,
    taken: &[Taken],
) -> Result<Vec<Taken>, AllocError>
    requires plan { IsKnown plan.now }
    requires known { AllByRecursion (IsKnownBy (described plan.now) plan.now.ssa.now
        (all_packs plan.now) plan.now.own.now) taken.now }
    ensures { IfOk result (λ kept. kept.items ≡ map (kept_for
        (described plan.now) plan.now.ssa.now (all_packs plan.now)) taken.now) }
{
    let mut kept = Vec::new(alloc);
    'taken: for one in taken {
        let longer = keep(alloc, plan, one)?;
        kept.push(longer)?;
    }
    Ok(kept)
}

fn has_operand(taken: &[Taken], operand: &Operand) -> bool
    ensures { result ≡ list_any (λ t. same_operand operand.now t.operand) taken.now }
{
    taken.iter().any(|t| is_same_operand(operand, &t.operand))
}

/// Whether an operand is among these or those.
fn is_there(taken: &[Taken], fresh: &[Taken], operand: &Operand) -> bool
    ensures { result ≡ (list_any (λ t. same_operand operand.now t.operand) taken.now
        || list_any (λ t. same_operand operand.now t.operand) fresh.now) }
{
    has_operand(taken, operand) || has_operand(fresh, operand)
}

/// Appends an operand, if it is neither there nor among the operands of a plan.
fn add_taken(
    alloc: Global,
    plan: &LongerPlan,
    fresh: &mut Vec<Taken>,
    taken: &[Taken],
    operand: &Operand,
) -> Result<(), AllocError>
    requires { IsKnown plan.now }
    ensures { OnOk result (map (kept_for (described plan.now) plan.now.ssa.now
        (all_packs plan.now)) taken.now ++ fresh.new.items ≡ add_taken
        (taken_for (described plan.now) plan.now.ssa.now (all_packs plan.now))
        (map (kept_for (described plan.now) plan.now.ssa.now (all_packs plan.now))
        taken.now ++ fresh.old.items) operand.now) }
{
    if is_there(taken, fresh.as_slice(), operand) {
        return Ok(());
    }
    let recipe = recipe_cost(alloc, plan, operand)?;
    let operand = copy_operand(alloc, operand)?;
    fresh.push(Taken { operand, recipe })?;
    Ok(())
}

/// Appends operands, those that are neither there nor among the operands of a plan.
pub(crate) fn add_all(
    alloc: Global,
    plan: &LongerPlan,
    fresh: &mut Vec<Taken>,
    taken: &[Taken],
    operands: &[Operand],
) -> Result<(), AllocError>
    requires { IsKnown plan.now }
    ensures { OnOk result (map (kept_for (described plan.now) plan.now.ssa.now
        (all_packs plan.now)) taken.now ++ fresh.new.items ≡ add_all
        (taken_for (described plan.now) plan.now.ssa.now (all_packs plan.now))
        (map (kept_for (described plan.now) plan.now.ssa.now (all_packs plan.now))
        taken.now ++ fresh.old.items) operands.now) }
{
    'operands: for operand in operands {
        add_taken(alloc, plan, fresh, taken, operand)?;
    }
    Ok(())
}

/// Marks the values that slots want.
fn mark_slots(needed: &mut [bool], slots: &[Slot])
    ensures { Marked (filter_map (λ s. value_of s.wanted) slots.now) needed.old needed.new }
{
    'slots: for slot in slots {
        mark_wanted(needed, slot.wanted);
    }
}

/// Marks the values that the inserts of an operand take.
fn mark_inserted(needed: &mut [bool], operand: &Operand, recipe: RecipeCost)
    ensures { Marked (inserted_for (taken_of operand.now recipe)) needed.old needed.new }
{
    if recipe.is_inserted {
        mark_slots(needed, operand.slots.as_slice());
    }
}

/// What the recipes of operands cost. Counts the values that their inserts take.
pub(crate) fn recipes_cost(
    counts: &mut [u32],
    changed: &mut [bool],
    taken: &[Taken],
) -> Result<u64, AllocError>
    requires { length changed.old ≡ length counts.old }
    ensures cost { IfOk result (λ c. c ≡ sum_by (λ t. t.recipe.lines) taken.now) }
    ensures counts { OnOk result (Moves [] (flat_map inserted_for taken.now) counts.old counts.new
        changed.old changed.new) }
{
    let mut sum = 0u64;
    'taken: for one in taken {
        count_inserted(counts, changed, &one.operand, false, one.recipe)?;
        sum = plus(sum, one.recipe.lines)?;
    }
    Ok(sum)
}

/// What the recipes of the operands of a plan cost in a longer one. Counts the values that their
/// inserts take, in place of those that they took.
pub(crate) fn kept_cost(
    alloc: Global,
    plan: &LongerPlan,
    counts: &mut [u32],
    changed: &mut [bool],
    taken: &[Taken],
) -> Result<u64, AllocError>
    requires long { length changed.old ≡ length counts.old }
    requires plan { IsKnown plan.now }
    requires known { AllByRecursion (IsKnownBy (described plan.now) plan.now.ssa.now
        (all_packs plan.now) plan.now.own.now) taken.now }
    ensures cost { IfOk result (λ c. c ≡ sum_by (λ t. (kept_for (described plan.now)
        plan.now.ssa.now (all_packs plan.now) t).recipe.lines) taken.now) }
    ensures counts { OnOk result (Moves (flat_map inserted_for taken.now) (flat_map
        (λ t. inserted_for (kept_for (described plan.now) plan.now.ssa.now (all_packs plan.now) t))
        taken.now) counts.old counts.new changed.old changed.new) }
{
    let mut sum = 0u64;
    'taken: for one in taken {
        let recipe = kept_recipe(alloc, plan, one)?;
        let before = one.recipe.is_inserted;
        count_inserted(counts, changed, &one.operand, before, recipe)?;
        sum = plus(sum, recipe.lines)?;
    }
    Ok(sum)
}

/// What the recipes of operands cost in a longer plan. Marks the values that their inserts take.
pub(crate) fn operands_cost(
    alloc: Global,
    plan: &LongerPlan,
    needed: &mut [bool],
    operands: &[Operand],
) -> Result<u64, AllocError>
    requires { IsKnown plan.now }
    ensures cost { IfOk result (λ c. c ≡ sum_by (λ o. (taken_for (described plan.now)
        plan.now.ssa.now (all_packs plan.now) o).recipe.lines) operands.now) }
    ensures marks { OnOk result (Marked (flat_map (λ o. inserted_for (taken_for (described plan.now)
        plan.now.ssa.now (all_packs plan.now) o)) operands.now) needed.old needed.new) }
{
    let mut sum = 0u64;
    'operands: for operand in operands {
        let recipe = recipe_cost(alloc, plan, operand)?;
        mark_inserted(needed, operand, recipe);
        sum = plus(sum, recipe.lines)?;
    }
    Ok(sum)
}
