//! Plans that are completed.

ghost use Rattle.std.specs.Prelude.{◌≡◌, ◌∷◌, [], IfOk, map};
ghost use Rattle.vg_cost.specs.Running.{StandsFor};
ghost use Rattle.vg_kernel_plans.specs.Completed.{turns_of};
ghost use Rattle.vg_kernel_plans.specs.Fed.{IsPlanBy, groups_by};
ghost use Rattle.vg_kernel_plans.specs.Taken.{MatchesNear};
ghost use Rattle.vg_packs.specs.Walk.{NameEarlierUnits};
ghost use Rattle.vg_plans.specs.Completed.{careful_with, careful_with_all, completed};
ghost use Rattle.vg_plans.specs.Levels.{first_least};
ghost use Rattle.vg_plans.specs.Members.{Every, Has};
ghost use Rattle.vg_plans.specs.PlainPlan.{plain_plan};
ghost use Rattle.vg_beam.specs.Chosen.{HaveShortPacksBy};
ghost use Rattle.vg_beam.specs.BeamPlan.{AreKept, plan_of, plans_of};
ghost use Rattle.vg_beam.specs.SearchSpace.{HasGroups, choice_of, cost_in, described, world_of};

use crate::beam_plan::{BeamPlan, kept_at};
use crate::priced_plan::{PricedPlan, empty_priced, lesser_plan, price};
use crate::search_space::SearchSpace;
use std::alloc::{AllocError, Global};
use vg_cost::Running;
use vg_packs::{completed_plan, completed_with, groups_by, plain_plan_by};
use vg_shapes::Pack;

/// The completed plan of a plan that was kept.
fn complete(
    alloc: Global,
    plan: &[Pack],
    known: &Running,
    space: &SearchSpace,
) -> Result<PricedPlan, AllocError>
    requires near { MatchesNear space.now.table.now }
    requires known { StandsFor (described space.now) space.now.table.now space.now.ssa.now
        known.now }
    requires earlier { NameEarlierUnits space.now.ssa.now space.now.deps.now }
    requires groups { HasGroups space.now }
    requires short { HaveShortPacksBy (choice_of space.now) (described space.now)
        space.now.table.now space.now.ssa.now space.now.deps.now }
    requires plan { IsPlanBy (choice_of space.now) (described space.now) space.now.table.now
        space.now.ssa.now space.now.deps.now plan.now }
    ensures plan { IfOk result (λ whole. whole.plan ≡ completed (world_of space.now) (turns_of
        space.now.ssa.now) plan.now) }
    ensures cost { IfOk result (λ whole. whole.cost ≡ cost_in space.now whole.plan) }
{
    let whole = completed_plan(
        alloc,
        space.descriptions,
        space.table,
        space.ssa,
        space.deps,
        space.groups,
        plan,
    )?;
    let priced = price(alloc, whole, known, space)?;
    Ok(priced)
}

/// The first of the least cost, of a plan and the completed plan of one that was kept. That is made only
/// where the packs of the plan that was kept cost less by themselves.
fn lesser_with(
    alloc: Global,
    best: PricedPlan,
    kept: &BeamPlan,
    known: &Running,
    space: &SearchSpace,
) -> Result<PricedPlan, AllocError>
    requires near { MatchesNear space.now.table.now }
    requires known { StandsFor (described space.now) space.now.table.now space.now.ssa.now
        known.now }
    requires earlier { NameEarlierUnits space.now.ssa.now space.now.deps.now }
    requires groups { HasGroups space.now }
    requires short { HaveShortPacksBy (choice_of space.now) (described space.now)
        space.now.table.now space.now.ssa.now space.now.deps.now }
    requires plan { IsPlanBy (choice_of space.now) (described space.now) space.now.table.now
        space.now.ssa.now space.now.deps.now (plan_of kept.now) }
    requires stands { StandsFor (described space.now) space.now.table.now space.now.ssa.now
        kept.now.running }
    requires cost { best.cost ≡ cost_in space.now best.plan }
    ensures plan { IfOk result (λ better. better.plan ≡ first_least (cost_in space.now) best.plan
        (completed (world_of space.now) (turns_of space.now.ssa.now) (plan_of kept.now) ∷ [])) }
    ensures cost { IfOk result (λ better. better.cost ≡ cost_in space.now better.plan) }
{
    let price = kept.running.price();
    let dear = price >= best.cost;
    if dear {
        return Ok(best);
    }
    let whole = complete(alloc, kept.running.packs(), known, space)?;
    Ok(lesser_plan(best, whole))
}

/// The first of the least cost, in a list of a plan and the completed plans of a level.
pub(crate) fn lesser_completed(
    alloc: Global,
    best: PricedPlan,
    level: &[BeamPlan],
    known: &Running,
    space: &SearchSpace,
) -> Result<PricedPlan, AllocError>
    requires near { MatchesNear space.now.table.now }
    requires known { StandsFor (described space.now) space.now.table.now space.now.ssa.now
        known.now }
    requires earlier { NameEarlierUnits space.now.ssa.now space.now.deps.now }
    requires groups { HasGroups space.now }
    requires short { HaveShortPacksBy (choice_of space.now) (described space.now)
        space.now.table.now space.now.ssa.now space.now.deps.now }
    requires level { AreKept (choice_of space.now) (described space.now) space.now.table.now
        space.now.ssa.now level.now }
    requires plans { Every (IsPlanBy (choice_of space.now) (described space.now) space.now.table.now
        space.now.ssa.now space.now.deps.now) (plans_of level.now) }
    requires cost { best.cost ≡ cost_in space.now best.plan }
    ensures plan { IfOk result (λ better. better.plan ≡ first_least (cost_in space.now) best.plan
        (map (completed (world_of space.now) (turns_of space.now.ssa.now)) (plans_of level.now))) }
    ensures cost { IfOk result (λ better. better.cost ≡ cost_in space.now better.plan) }
{
    let mut least = best;
    'plans: for place in 0..level.len() {
        let kept = kept_at(level, place);
        let better = lesser_with(alloc, least, kept, known, space)?;
        least = better;
    }
    Ok(least)
}

/// The completed plan with a store group in place of a plan that stays one with it, where it costs less;
/// else the plan.
fn careful_with(
    alloc: Global,
    best: PricedPlan,
    group: &Pack,
    known: &Running,
    space: &SearchSpace,
) -> Result<PricedPlan, AllocError>
    requires near { MatchesNear space.now.table.now }
    requires known { StandsFor (described space.now) space.now.table.now space.now.ssa.now
        known.now }
    requires earlier { NameEarlierUnits space.now.ssa.now space.now.deps.now }
    requires groups { HasGroups space.now }
    requires short { HaveShortPacksBy (choice_of space.now) (described space.now)
        space.now.table.now space.now.ssa.now space.now.deps.now }
    requires group { Has group.now (groups_by (choice_of space.now) space.now.ssa.now) }
    requires plan { IsPlanBy (choice_of space.now) (described space.now) space.now.table.now
        space.now.ssa.now space.now.deps.now best.plan }
    requires cost { best.cost ≡ cost_in space.now best.plan }
    ensures plan { IfOk result (λ better. better.plan ≡ careful_with (world_of space.now) (turns_of
        space.now.ssa.now) best.plan group.now) }
    ensures cost { IfOk result (λ better. better.cost ≡ cost_in space.now better.plan) }
{
    let whole = completed_with(
        alloc,
        space.descriptions,
        space.table,
        space.ssa,
        space.deps,
        space.groups,
        best.plan.as_slice(),
        group,
    )?;
    match whole {
        None => Ok(best),
        Some(plan) => {
            let priced = price(alloc, plan, known, space)?;
            Ok(lesser_plan(best, priced))
        }
    }
}

/// The careful plain plan: each store group that is tried is taken, and what the plan then takes is
/// completed, only where that costs less.
fn careful_plan(
    alloc: Global,
    groups: &[Pack],
    known: &Running,
    space: &SearchSpace,
) -> Result<PricedPlan, AllocError>
    requires near { MatchesNear space.now.table.now }
    requires known { StandsFor (described space.now) space.now.table.now space.now.ssa.now
        known.now }
    requires earlier { NameEarlierUnits space.now.ssa.now space.now.deps.now }
    requires load_groups { HasGroups space.now }
    requires short { HaveShortPacksBy (choice_of space.now) (described space.now)
        space.now.table.now space.now.ssa.now space.now.deps.now }
    requires groups { groups.now ≡ groups_by (choice_of space.now) space.now.ssa.now }
    ensures plan { IfOk result (λ careful. careful.plan ≡ careful_with_all (world_of space.now)
        (turns_of space.now.ssa.now) [] groups.now) }
    ensures cost { IfOk result (λ careful. careful.cost ≡ cost_in space.now careful.plan) }
{
    let mut best = empty_priced(alloc, known, space)?;
    'groups: for group in groups {
        let better = careful_with(alloc, best, group, known, space)?;
        best = better;
    }
    Ok(best)
}

/// The first of the least cost, in a list of the empty plan, the plain plan of the store groups that are
/// tried, and the careful plain plan.
pub(crate) fn first_fed(
    alloc: Global,
    known: &Running,
    space: &SearchSpace,
) -> Result<PricedPlan, AllocError>
    requires near { MatchesNear space.now.table.now }
    requires known { StandsFor (described space.now) space.now.table.now space.now.ssa.now
        known.now }
    requires earlier { NameEarlierUnits space.now.ssa.now space.now.deps.now }
    requires groups { HasGroups space.now }
    requires short { HaveShortPacksBy (choice_of space.now) (described space.now)
        space.now.table.now space.now.ssa.now space.now.deps.now }
    ensures plan { IfOk result (λ first. first.plan ≡ first_least (cost_in space.now) [] (plain_plan
        (world_of space.now) (turns_of space.now.ssa.now) ∷ careful_with_all (world_of space.now)
        (turns_of space.now.ssa.now) [] (groups_by (choice_of space.now) space.now.ssa.now) ∷ [])) }
    ensures cost { IfOk result (λ first. first.cost ≡ cost_in space.now first.plan) }
{
    let choice = space.groups.choice;
    let plain = plain_plan_by(
        alloc,
        space.descriptions,
        space.table,
        space.ssa,
        space.deps,
        choice,
    )?;
    let groups = groups_by(alloc, choice, space.ssa)?;
    let careful = careful_plan(alloc, groups.as_slice(), known, space)?;
    let empty = empty_priced(alloc, known, space)?;
    let priced = price(alloc, plain, known, space)?;
    let first = lesser_plan(empty, priced);
    Ok(lesser_plan(first, careful))
}
