//! The chosen plan.

ghost use Rattle.std.specs.Prelude.{◌≡◌, IfOk, map};
ghost use Rattle.vg_kernel_plans.specs.Packing.{chosen_of, sizes_of};
ghost use Rattle.vg_kernel_plans.specs.Taken.{MatchesNear};
ghost use Rattle.vg_packs.specs.Walk.{NameEarlierUnits};
ghost use Rattle.vg_plans.specs.Levels.{first_least, met_within};
ghost use Rattle.vg_plans.specs.World.{follows, same_packs};
ghost use Rattle.vg_shapes.specs.Description.{description_of};
ghost use Rattle.vg_beam.specs.Chosen.{HaveShortPacks, HaveShortPacksBy, IsChosen};
ghost use Rattle.vg_beam.specs.SearchSpace.{HasGroups, choice_of, cost_in, described, world_of};

use crate::beam_plan::empty_plan;
use crate::pack_table::PackTable;
use crate::priced_plan::{PricedPlan, first_plan};
use crate::search_space::SearchSpace;
use crate::turn::turn;
use std::alloc::{AllocError, Global};
use vg_cost::Running;
use vg_kernel_plans::{
    Choice, LoadGroups, chosen_plans_are_optimal, chosen_plans_fit, kernel_plans_are_short,
};
use vg_shapes::{DepList, Description, MatchTable, Plan, Ssa};

/// The greatest number of units of a kernel whose plans are searched.
const MOST: usize = 256;

/// The first of the least cost, in a list of a first plan and all plans that are met up to so many
/// packs.
fn search(
    alloc: Global,
    first: PricedPlan,
    space: &SearchSpace,
    width: usize,
    sizes: usize,
) -> Result<Plan, AllocError>
    requires near { MatchesNear space.now.table.now }
    requires earlier { NameEarlierUnits space.now.ssa.now space.now.deps.now }
    requires groups { HasGroups space.now }
    requires short { HaveShortPacksBy (choice_of space.now) (described space.now)
        space.now.table.now space.now.ssa.now space.now.deps.now }
    requires cost { first.cost ≡ cost_in space.now first.plan }
    ensures { IfOk result (λ plan. plan ≡ first_least (cost_in space.now) first.plan (met_within
        (follows (world_of space.now)) (same_packs (world_of space.now)) (cost_in space.now) width
        sizes)) }
{
    let none = sizes == 0;
    if none {
        return Ok(first.plan);
    }
    let mut pack_table = PackTable::new(alloc);
    let empty = empty_plan(alloc, &mut pack_table, space)?;
    let mut level = Vec::new(alloc);
    level.push(empty)?;
    let mut best = first;
    'sizes: for _size in 0..sizes {
        let turned = turn(alloc, &mut pack_table, level.as_slice(), best, space, width)?;
        level = turned.next;
        best = turned.better;
    }
    Ok(best.plan)
}

/// The greatest number of packs of plans that are searched: none in a kernel of more than 256 units.
pub(crate) fn sizes_of(ssa: &Ssa) -> usize
    ensures { result ≡ sizes_of ssa.now }
{
    let units = ssa.units.as_slice().len();
    if units <= MOST { units } else { 0 }
}

/// The plan of a kernel that is chosen where the search keeps at most `width` plans of each size: the
/// first of the least cost among the empty plan, the plain plan and all plans that are met. A kernel of
/// more than 256 units is not searched. The dependences name earlier units alone. Fails for want of
/// memory, and where a kernel has more than some 2^24 units or packs.
pub fn choose(
    alloc: Global,
    descriptions: &[Description],
    table: &MatchTable,
    ssa: &Ssa,
    deps: &DepList,
    width: u32,
) -> Result<Plan, AllocError>
    requires near { MatchesNear table.now }
    requires earlier { NameEarlierUnits ssa.now deps.now }
    requires short { HaveShortPacks (map description_of descriptions.now) table.now ssa.now
        deps.now }
    ensures plan { IfOk result (λ plan.
        plan ≡ chosen_of (map description_of descriptions.now) table.now ssa.now deps.now width) }
    ensures chosen { IfOk result
        (IsChosen (map description_of descriptions.now) table.now ssa.now deps.now width) }
{
    chosen_plans_fit();
    chosen_plans_are_optimal();
    kernel_plans_are_short();
    let choice = Choice {
        fed: false,
        aligned: false,
    };
    let groups = LoadGroups::new(alloc, choice, ssa)?;
    let space = SearchSpace {
        descriptions,
        table,
        ssa,
        deps,
        groups: &groups,
    };
    let known = Running::new(alloc, descriptions, table, ssa)?;
    let first = first_plan(alloc, &known, &space)?;
    let sizes = sizes_of(ssa);
    let width = width as usize;
    let plan = search(alloc, first, &space, width, sizes)?;
    Ok(plan)
}
