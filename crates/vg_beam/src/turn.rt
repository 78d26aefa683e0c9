//! Turns of the search.

ghost use Rattle.std.specs.Prelude.{◌≡◌, IfOk};
ghost use Rattle.vg_kernel_plans.specs.Fed.{IsPlanBy};
ghost use Rattle.vg_kernel_plans.specs.Taken.{MatchesNear};
ghost use Rattle.vg_packs.specs.Walk.{NameEarlierUnits};
ghost use Rattle.vg_plans.specs.Members.{Every};
ghost use Rattle.vg_beam.specs.PackTable.{IsPackTable};
ghost use Rattle.vg_beam.specs.Chosen.{HaveShortPacksBy};
ghost use Rattle.vg_beam.specs.BeamPlan.{IsKept, plans_of};
ghost use Rattle.vg_beam.specs.SearchSpace.{HasGroups, choice_of, cost_in, described};
ghost use Rattle.vg_beam.specs.Turn.{IsTurn};

use crate::beam_plan::{BeamPlan, grow_all};
use crate::candidate::keep;
use crate::pack_table::PackTable;
use crate::priced_plan::{PricedPlan, lesser};
use crate::search::candidates;
use crate::search_space::SearchSpace;
use std::alloc::{AllocError, Global};

/// What a turn of the search leaves.
#[derive(Drop)]
pub(crate) struct Turned {
    /// The plans of the next level.
    pub(crate) next: Vec<BeamPlan>,
    /// The first of the least cost so far.
    pub(crate) better: PricedPlan,
}

/// The plans of one pack more than those of a level that are kept, at most so many, and the first of the
/// least cost in a list of a plan and all that are met.
pub(crate) fn turn(
    alloc: Global,
    pack_table: &mut PackTable,
    level: &[BeamPlan],
    best: PricedPlan,
    space: &SearchSpace,
    width: usize,
) -> Result<Turned, AllocError>
    requires near { MatchesNear space.now.table.now }
    requires earlier { NameEarlierUnits space.now.ssa.now space.now.deps.now }
    requires groups { HasGroups space.now }
    requires short { HaveShortPacksBy (choice_of space.now) (described space.now)
        space.now.table.now space.now.ssa.now space.now.deps.now }
    requires pack_table { IsPackTable (choice_of space.now) (described space.now)
        space.now.table.now space.now.ssa.now pack_table.old }
    requires level { Every (IsKept (choice_of space.now) (described space.now) space.now.table.now
        space.now.ssa.now pack_table.old.packs.items) level.now }
    requires plans { Every (IsPlanBy (choice_of space.now) (described space.now) space.now.table.now
        space.now.ssa.now space.now.deps.now) (plans_of level.now) }
    requires cost { best.cost ≡ cost_in space.now best.plan }
    ensures { IfOk result (IsTurn (choice_of space.now) (described space.now) space.now.table.now
        space.now.ssa.now space.now.deps.now width (plans_of level.now) best.plan pack_table.new) }
{
    let met = candidates(alloc, pack_table, level, space)?;
    let better = lesser(alloc, best, pack_table, level, met.as_slice())?;
    let kept = keep(met, width)?;
    let next = grow_all(alloc, pack_table, level, kept.as_slice(), space)?;
    Ok(Turned { next, better })
}
