//! What the recipe of an operand costs.

ghost use Rattle.std.specs.Prelude.{◌≡◌, ◌&&◌, [], IfOk, false, filter, length, nat_eq, nat_lt};
ghost use Rattle.vg_cost.specs.Had.{costs_had};
ghost use Rattle.vg_cost.specs.LongerPlan.{IsKnown, all_packs, described};
ghost use Rattle.vg_cost.specs.Taken.{inserts_for, recipe_for};
ghost use Rattle.vg_kernel_plans.specs.Packing.{packing};
ghost use Rattle.vg_kernel_plans.specs.Shuffles.{shuffles};
ghost use Rattle.vg_kernel_plans.specs.Wants.{is_constant, wants_value};
ghost use Rattle.vg_plans.specs.World.{is_reused};

use crate::copies::longer;
use crate::longer_plan::LongerPlan;
use crate::price::plus;
use crate::recipes::{is_reused, least_of};
use crate::scan::costs_among;
use crate::touch::may_be_all_given;
use std::alloc::{AllocError, Global};
use vg_kernel_plans::held::holds;
use vg_kernel_plans::wants::{is_constant, wanted_values, wants_value};
use vg_shapes::{Operand, Slot};

/// What the recipe of an operand costs, and whether it inserts the operand's values.
#[derive(Clone, Copy)]
pub(crate) struct RecipeCost {
    pub(crate) lines: u64,
    pub(crate) is_inserted: bool,
}

/// Whether as many values are inserted where so many shuffles can be had.
fn is_inserted(values: usize, shuffles: usize) -> bool
    ensures { result ≡ (nat_lt 0 values && nat_eq shuffles 0) }
{
    values > 0 && shuffles == 0
}

/// What the shuffles that make an operand and can be had cost, by a plan with a pack after it.
fn costs_behind(alloc: Global, plan: &LongerPlan, operand: &Operand) -> Result<Vec<u32>, AllocError>
    requires { IsKnown plan.now }
    ensures { IfOk result (λ costs. costs.items ≡ costs_had (described plan.now)
        plan.now.ssa.now (all_packs plan.now) (shuffles (described plan.now) operand.now)) }
{
    let packs = longer(alloc, plan.packs, plan.last)?;
    costs_among(
        alloc,
        plan.descriptions,
        plan.ssa,
        packs.as_slice(),
        plan.shuffles,
        operand,
    )
}

/// What the recipe of an operand costs that is neither reused nor constant.
fn made_cost(alloc: Global, plan: &LongerPlan, operand: &Operand) -> Result<RecipeCost, AllocError>
    requires known { IsKnown plan.now }
    requires free { is_reused (packing (described plan.now) [] plan.now.ssa.now [])
        (all_packs plan.now) operand.now ≡ false }
    requires some { is_constant operand.now ≡ false }
    ensures { IfOk result (λ r. r ≡ recipe_for (described plan.now) plan.now.ssa.now
        (all_packs plan.now) operand.now) }
{
    let wanted = wanted_values(alloc, operand)?;
    let wanted = wanted.as_slice();
    let costs = costs_behind(alloc, plan, operand)?;
    let costs = costs.as_slice();
    let inserts = plus(1, wanted.len() as u64)?;
    Ok(RecipeCost {
        lines: least_of(costs, inserts),
        is_inserted: is_inserted(wanted.len(), costs.len()),
    })
}

#[tactic(auto, using(crate::proofs::MarkTests::any_behind))]
/// Whether a pack, or one of a plan, holds an operand.
fn is_reused_behind(plan: &LongerPlan, operand: &Operand) -> bool
    ensures { result ≡ is_reused (packing (described plan.now) [] plan.now.ssa.now [])
        (all_packs plan.now) operand.now }
{
    holds(plan.descriptions, plan.ssa, plan.last, operand)
        || is_reused(plan.descriptions, plan.ssa, plan.packs, operand)
}

/// What the recipe of an operand costs of which packs may have all values.
fn met_cost(alloc: Global, plan: &LongerPlan, operand: &Operand) -> Result<RecipeCost, AllocError>
    requires { IsKnown plan.now }
    ensures { IfOk result (λ r. r ≡ recipe_for (described plan.now) plan.now.ssa.now
        (all_packs plan.now) operand.now) }
{
    if is_reused_behind(plan, operand) {
        return Ok(RecipeCost {
            lines: 0,
            is_inserted: false,
        });
    }
    if is_constant(operand) {
        return Ok(RecipeCost {
            lines: 1,
            is_inserted: false,
        });
    }
    made_cost(alloc, plan, operand)
}

/// How many values an operand wants.
fn count_wanted(slots: &[Slot]) -> usize
    ensures { result ≡ length (filter (λ s. wants_value s.wanted) slots.now) }
{
    slots.iter().filter(|s| wants_value(s.wanted)).count()
}

/// What the recipe of an operand costs of which no pack has all values: they are inserted.
fn unmet_cost(operand: &Operand) -> Result<RecipeCost, AllocError>
    ensures { IfOk result (λ r. r ≡ inserts_for operand.now) }
{
    let values = count_wanted(operand.slots.as_slice());
    let lines = plus(1, values as u64)?;
    Ok(RecipeCost {
        lines,
        is_inserted: values > 0,
    })
}

/// What the recipe of an operand costs, by a plan with a pack after it, of which the units are
/// marked. Descriptions are looked at only if packs may have all of the operand's values and none
/// holds it.
pub(crate) fn recipe_cost(
    alloc: Global,
    plan: &LongerPlan,
    operand: &Operand,
) -> Result<RecipeCost, AllocError>
    requires { IsKnown plan.now }
    ensures { IfOk result (λ r. r ≡ recipe_for (described plan.now) plan.now.ssa.now
        (all_packs plan.now) operand.now) }
{
    if plan.shuffles.are_tight && !may_be_all_given(plan.marks, operand) {
        return unmet_cost(operand);
    }
    met_cost(alloc, plan, operand)
}
