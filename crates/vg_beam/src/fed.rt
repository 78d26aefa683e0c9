//! The plan that is chosen where load groups may feed operands.

ghost use Rattle.std.specs.Prelude.{◌≡◌, ◌≤◌, ◌++◌, [], IfOk, map};
ghost use Rattle.vg_cost.specs.Running.{StandsFor};
ghost use Rattle.vg_kernel_plans.specs.Completed.{chosen_fed_of, turns_of};
ghost use Rattle.vg_kernel_plans.specs.Fed.{fed_aligned};
ghost use Rattle.vg_kernel_plans.specs.Taken.{MatchesNear};
ghost use Rattle.vg_packs.specs.Walk.{NameEarlierUnits};
ghost use Rattle.vg_plans.specs.Completed.{completed};
ghost use Rattle.vg_plans.specs.Levels.{first_least, kept_within, met_within};
ghost use Rattle.vg_plans.specs.World.{follows, same_packs};
ghost use Rattle.vg_shapes.specs.Description.{description_of};
ghost use Rattle.vg_beam.specs.Chosen.{HaveShortPacksBy, IsChosenFed};
ghost use Rattle.vg_beam.specs.SearchSpace.{HasGroups, choice_of, cost_in, described, world_of};

use crate::beam_plan::empty_plan;
use crate::choosing::sizes_of;
use crate::completing::{first_fed, lesser_completed};
use crate::pack_table::PackTable;
use crate::priced_plan::{PricedPlan, empty_priced, lesser_plan};
use crate::search_space::SearchSpace;
use crate::turn::turn;
use std::alloc::{AllocError, Global};
use vg_cost::Running;
use vg_kernel_plans::{
    Choice, LoadGroups, chosen_fed_plans_are_optimal, chosen_fed_plans_fit, plans_hold_by_choice,
};
use vg_shapes::{DepList, Description, MatchTable, Plan, Ssa};

/// The first of the least cost, in a list of a first plan that costs at most as much as the empty one, all
/// plans that are met up to so many packs, and then the completed plans of those that are kept.
fn search_completed(
    alloc: Global,
    first: PricedPlan,
    known: &Running,
    space: &SearchSpace,
    width: usize,
    sizes: usize,
) -> Result<Plan, AllocError>
    requires near { MatchesNear space.now.table.now }
    requires known { StandsFor (described space.now) space.now.table.now space.now.ssa.now
        known.now }
    requires earlier { NameEarlierUnits space.now.ssa.now space.now.deps.now }
    requires groups { HasGroups space.now }
    requires short { HaveShortPacksBy (choice_of space.now) (described space.now)
        space.now.table.now space.now.ssa.now space.now.deps.now }
    requires cost { first.cost ≡ cost_in space.now first.plan }
    requires least { cost_in space.now first.plan ≤ cost_in space.now [] }
    ensures { IfOk result (λ plan. plan ≡ first_least (cost_in space.now) first.plan (met_within
        (follows (world_of space.now)) (same_packs (world_of space.now)) (cost_in space.now) width
        sizes ++ map (completed (world_of space.now) (turns_of space.now.ssa.now)) (kept_within
        (follows (world_of space.now)) (same_packs (world_of space.now)) (cost_in space.now) width
        sizes))) }
{
    let none = sizes == 0;
    if none {
        return Ok(first.plan);
    }
    let mut pack_table = PackTable::new(alloc);
    let empty = empty_plan(alloc, &mut pack_table, space)?;
    let mut level = Vec::new(alloc);
    level.push(empty)?;
    let mut best = first;
    let mut whole = empty_priced(alloc, known, space)?;
    'sizes: for _size in 0..sizes {
        let turned = turn(alloc, &mut pack_table, level.as_slice(), best, space, width)?;
        level = turned.next;
        best = turned.better;
        let more = lesser_completed(alloc, whole, level.as_slice(), known, space)?;
        whole = more;
    }
    Ok(lesser_plan(best, whole).plan)
}

/// The plan of a kernel that is chosen where load groups may feed operands and store groups are aligned:
/// the first of the least cost among the empty plan, the plain plan of the aligned store groups, the careful
/// plain plan, all plans that are met where the search keeps at most `width` of each size, and the
/// completed plans of those that are kept. A kernel of more than 256 units is not searched. The dependences
/// name earlier units alone. Fails for want of memory, and where a kernel has more than some 2^24 units or
/// packs.
pub fn choose_fed(
    alloc: Global,
    descriptions: &[Description],
    table: &MatchTable,
    ssa: &Ssa,
    deps: &DepList,
    width: u32,
) -> Result<Plan, AllocError>
    requires near { MatchesNear table.now }
    requires earlier { NameEarlierUnits ssa.now deps.now }
    requires short { HaveShortPacksBy fed_aligned (map description_of descriptions.now) table.now
        ssa.now deps.now }
    ensures plan { IfOk result (λ plan. plan ≡ chosen_fed_of (map description_of descriptions.now)
        table.now ssa.now deps.now width) }
    ensures chosen { IfOk result (IsChosenFed (map description_of descriptions.now) table.now
        ssa.now deps.now width) }
{
    chosen_fed_plans_fit();
    chosen_fed_plans_are_optimal();
    plans_hold_by_choice();
    let choice = Choice {
        fed: true,
        aligned: true,
    };
    let groups = LoadGroups::new(alloc, choice, ssa)?;
    let space = SearchSpace {
        descriptions,
        table,
        ssa,
        deps,
        groups: &groups,
    };
    let known = Running::new(alloc, descriptions, table, ssa)?;
    let first = first_fed(alloc, &known, &space)?;
    let sizes = sizes_of(ssa);
    let width = width as usize;
    let plan = search_completed(alloc, first, &known, &space, width, sizes)?;
    Ok(plan)
}
