//! A plan and its cost.

ghost use Rattle.std.specs.Prelude.{◌≡◌, ◌<◌, ◌∷◌, [], IfOk, length, map};
ghost use Rattle.vg_cost.specs.Running.{StandsFor};
ghost use Rattle.vg_kernel_plans.specs.Packing.{plain_of};
ghost use Rattle.vg_kernel_plans.specs.Taken.{IsShort, MatchesNear};
ghost use Rattle.std.specs.List.{AllByRecursion};
ghost use Rattle.vg_packs.specs.Walk.{NameEarlierUnits};
ghost use Rattle.vg_plans.specs.Levels.{first_least};
ghost use Rattle.vg_plans.specs.Members.{Every};
ghost use Rattle.vg_beam.specs.Candidate.{IsPlaced, grown_plan};
ghost use Rattle.vg_beam.specs.Chosen.{HaveShortPacks};
ghost use Rattle.vg_beam.specs.Priced.{priced_plans};
ghost use Rattle.vg_beam.specs.SearchSpace.{cost_in, described};

use crate::beam_plan::{BeamPlan, kept_at};
use crate::candidate::{Candidate, least_below};
use crate::pack_table::PackTable;
use crate::search_space::SearchSpace;
use std::alloc::{AllocError, Global};
use vg_cost::Running;
use vg_kernel_plans::copies::{copy_pack, copy_packs};
use vg_packs::plain_plan;
use vg_shapes::Plan;

/// A plan and its cost.
#[derive(Drop)]
pub(crate) struct PricedPlan {
    pub(crate) plan: Plan,
    pub(crate) cost: u64,
}

/// A plan with its cost, by what is known of the descriptions beside any other plan.
pub(crate) fn price(
    alloc: Global,
    plan: Plan,
    known: &Running,
    space: &SearchSpace,
) -> Result<PricedPlan, AllocError>
    requires near { MatchesNear space.now.table.now }
    requires known { StandsFor (described space.now) space.now.table.now space.now.ssa.now
        known.now }
    requires short { AllByRecursion IsShort plan }
    ensures plan { IfOk result (λ priced. priced.plan ≡ plan) }
    ensures cost { IfOk result (λ priced. priced.cost ≡ cost_in space.now priced.plan) }
{
    let packs = plan.as_slice();
    let cost = known.cost_of(alloc, packs, space.descriptions, space.table, space.ssa)?;
    Ok(PricedPlan { plan, cost })
}

/// The empty plan.
pub(crate) fn empty_priced(
    alloc: Global,
    known: &Running,
    space: &SearchSpace,
) -> Result<PricedPlan, AllocError>
    requires near { MatchesNear space.now.table.now }
    requires known { StandsFor (described space.now) space.now.table.now space.now.ssa.now
        known.now }
    ensures plan { IfOk result (λ priced. priced.plan ≡ []) }
    ensures cost { IfOk result (λ priced. priced.cost ≡ cost_in space.now priced.plan) }
{
    let empty = Plan::from_vec(Vec::new(alloc));
    price(alloc, empty, known, space)
}

/// The second plan where it costs less, else the first.
pub(crate) fn lesser_plan(first: PricedPlan, second: PricedPlan) -> PricedPlan
    ensures { result ≡ first_least (λ p. p.cost) first (second ∷ []) }
{
    if second.cost < first.cost {
        second
    } else {
        first
    }
}

/// The empty plan, or the plain plan where that costs less.
pub(crate) fn first_plan(
    alloc: Global,
    known: &Running,
    space: &SearchSpace,
) -> Result<PricedPlan, AllocError>
    requires near { MatchesNear space.now.table.now }
    requires known { StandsFor (described space.now) space.now.table.now space.now.ssa.now
        known.now }
    requires earlier { NameEarlierUnits space.now.ssa.now space.now.deps.now }
    requires short { HaveShortPacks (described space.now) space.now.table.now space.now.ssa.now
        space.now.deps.now }
    ensures plan { IfOk result (λ first. first.plan ≡ first_least (cost_in space.now) [] (plain_of
        (described space.now) space.now.table.now space.now.ssa.now space.now.deps.now ∷ [])) }
    ensures cost { IfOk result (λ first. first.cost ≡ cost_in space.now first.plan) }
{
    let plain = plain_plan(
        alloc,
        space.descriptions,
        space.table,
        space.ssa,
        space.deps,
    )?;
    let empty = empty_priced(alloc, known, space)?;
    let priced = price(alloc, plain, known, space)?;
    Ok(lesser_plan(empty, priced))
}

/// The plan of a candidate of a level.
fn plan_of(
    alloc: Global,
    pack_table: &PackTable,
    level: &[BeamPlan],
    candidate: Candidate,
) -> Result<Plan, AllocError>
    requires parent { candidate.parent < length level.now }
    requires pack { candidate.pack < length pack_table.now.packs.items }
    ensures { IfOk result (λ plan. plan ≡ grown_plan pack_table.now.packs.items level.now candidate) }
{
    let parent = kept_at(level, candidate.parent);
    let mut packs = copy_packs(alloc, parent.running.packs())?;
    let last = copy_pack(alloc, pack_table.pack(candidate.pack))?;
    packs.push(last)?;
    Ok(Plan::from_vec(packs))
}

/// The first of the least cost, in a list of a plan and the candidates of a level.
pub(crate) fn lesser(
    alloc: Global,
    best: PricedPlan,
    pack_table: &PackTable,
    level: &[BeamPlan],
    met: &[Candidate],
) -> Result<PricedPlan, AllocError>
    requires { Every (IsPlaced pack_table.now.packs.items level.now) met.now }
    ensures { IfOk result (λ better. better ≡ first_least (λ p. p.cost) best
        (priced_plans pack_table.now.packs.items level.now met.now)) }
{
    match least_below(met, best.cost) {
        None => Ok(best),
        Some(candidate) => {
            let plan = plan_of(alloc, pack_table, level, candidate)?;
            Ok(PricedPlan {
                plan,
                cost: candidate.cost,
            })
        }
    }
}
