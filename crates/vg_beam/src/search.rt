//! Growing the plans of a level by one pack.

ghost use Rattle.std.specs.Prelude.{◌≡◌, ◌<◌, ◌∷◌, [], IfOk, OnOk, length, map};
ghost use Rattle.vg_cost.specs.PriceScratch.{IsScratchFor};
ghost use Rattle.vg_kernel_plans.specs.Fed.{IsPlanBy};
ghost use Rattle.vg_kernel_plans.specs.Taken.{MatchesNear};
ghost use Rattle.vg_packs.specs.PlanMarks.{MarksPlan};
ghost use Rattle.vg_packs.specs.PlanSpans.{SpansPlan};
ghost use Rattle.vg_packs.specs.Walk.{NameEarlierUnits};
ghost use Rattle.vg_plans.specs.Levels.{candidates};
ghost use Rattle.vg_plans.specs.Members.{Every, Has};
ghost use Rattle.vg_plans.specs.World.{follows, same_packs, tried};
ghost use Rattle.vg_beam.specs.PackTable.{IsPackTable, pack_at};
ghost use Rattle.vg_beam.specs.Candidate.{IsCandidate, grown_plans};
ghost use Rattle.vg_beam.specs.Chosen.{HaveShortPacksBy};
ghost use Rattle.vg_beam.specs.BeamPlan.{IsKept, plan_at, plans_of};
ghost use Rattle.vg_beam.specs.MetPlans.{IsMet, Meets};
ghost use Rattle.vg_beam.specs.SearchSpace.{choice_of, described, world_of};

use crate::beam_plan::{BeamPlan, kept_at};
use crate::candidate::Candidate;
use crate::key::with_number;
use crate::met_plans::MetPlans;
use crate::pack_table::PackTable;
use crate::search_space::SearchSpace;
use std::alloc::{AllocError, Global};
use vg_cost::PriceScratch;
use vg_packs::{PlanMarks, PlanSpans};

/// Meets a plan of a level with a pack after it that is tried there, if it stays a plan and none of the
/// same packs was met.
fn meet(
    alloc: Global,
    pack_table: &PackTable,
    level: &[BeamPlan],
    parent: usize,
    marks: &PlanMarks,
    spans: &PlanSpans,
    scratch: &mut PriceScratch,
    pack: u32,
    met: &mut MetPlans,
    space: &SearchSpace,
) -> Result<(), AllocError>
    requires near { MatchesNear space.now.table.now }
    requires earlier { NameEarlierUnits space.now.ssa.now space.now.deps.now }
    requires short { HaveShortPacksBy (choice_of space.now) (described space.now)
        space.now.table.now space.now.ssa.now space.now.deps.now }
    requires pack_table { IsPackTable (choice_of space.now) (described space.now)
        space.now.table.now space.now.ssa.now pack_table.now }
    requires level { Every (IsKept (choice_of space.now) (described space.now) space.now.table.now
        space.now.ssa.now pack_table.now.packs.items) level.now }
    requires parent { parent < length level.now }
    requires plan { IsPlanBy (choice_of space.now) (described space.now) space.now.table.now
        space.now.ssa.now space.now.deps.now (plan_at level.now parent) }
    requires marks { MarksPlan space.now.ssa.now (plan_at level.now parent) marks.now }
    requires spans { SpansPlan space.now.table.now space.now.ssa.now space.now.deps.now (plan_at
        level.now parent) spans.now }
    requires scratch { IsScratchFor space.now.ssa.now (plan_at level.now parent) scratch.old }
    requires pack { pack < length pack_table.now.packs.items }
    requires tried { Has (pack_at pack_table.now.packs.items pack) (tried (world_of space.now)
        (plan_at level.now parent)) }
    requires met { IsMet (choice_of space.now) (described space.now) space.now.table.now
        space.now.ssa.now space.now.deps.now pack_table.now.packs.items level.now met.old }
    ensures scratch { scratch.new ≡ scratch.old }
    ensures met { OnOk result (Meets (choice_of space.now) (described space.now) space.now.table.now
        space.now.ssa.now space.now.deps.now pack_table.now.packs.items level.now (plan_at level.now
        parent) (pack_at pack_table.now.packs.items pack ∷ []) met.old met.new) }
{
    let kept = kept_at(level, parent);
    let last = pack_table.pack(pack);
    let packs = kept.running.packs();
    let key = with_number(alloc, kept.key.as_slice(), pack)?;
    let known = met.has(key.as_slice());
    if known {
        return Ok(());
    }
    let stays = marks.stays_by_spans(
        alloc,
        packs,
        spans,
        last,
        space.table,
        space.ssa,
        space.deps,
    )?;
    if !stays {
        return Ok(());
    }
    let operands = pack_table.operands(pack);
    let cost = kept.running.cost_with(
        alloc,
        scratch,
        last,
        operands,
        space.descriptions,
        space.table,
        space.ssa,
    )?;
    met.add(key, Candidate { parent, pack, cost })?;
    Ok(())
}

/// Meets a plan of a level with each pack after it that may follow it.
fn meet_all(
    alloc: Global,
    pack_table: &PackTable,
    level: &[BeamPlan],
    parent: usize,
    met: &mut MetPlans,
    space: &SearchSpace,
) -> Result<(), AllocError>
    requires near { MatchesNear space.now.table.now }
    requires earlier { NameEarlierUnits space.now.ssa.now space.now.deps.now }
    requires short { HaveShortPacksBy (choice_of space.now) (described space.now)
        space.now.table.now space.now.ssa.now space.now.deps.now }
    requires pack_table { IsPackTable (choice_of space.now) (described space.now)
        space.now.table.now space.now.ssa.now pack_table.now }
    requires level { Every (IsKept (choice_of space.now) (described space.now) space.now.table.now
        space.now.ssa.now pack_table.now.packs.items) level.now }
    requires parent { parent < length level.now }
    requires plan { IsPlanBy (choice_of space.now) (described space.now) space.now.table.now
        space.now.ssa.now space.now.deps.now (plan_at level.now parent) }
    requires met { IsMet (choice_of space.now) (described space.now) space.now.table.now
        space.now.ssa.now space.now.deps.now pack_table.now.packs.items level.now met.old }
    ensures { OnOk result (Meets (choice_of space.now) (described space.now) space.now.table.now
        space.now.ssa.now space.now.deps.now pack_table.now.packs.items level.now (plan_at level.now
        parent) (tried (world_of space.now) (plan_at level.now parent)) met.old met.new) }
{
    let kept = kept_at(level, parent);
    let packs = kept.running.packs();
    let marks = PlanMarks::new(alloc, space.ssa, packs)?;
    let spans = PlanSpans::new(alloc, space.table, space.ssa, space.deps, packs)?;
    let mut scratch = PriceScratch::new(alloc, space.ssa, packs)?;
    let numbers = kept.tried.as_slice();
    'packs: for pack in numbers {
        meet(
            alloc,
            pack_table,
            level,
            parent,
            &marks,
            &spans,
            &mut scratch,
            *pack,
            met,
            space,
        )?;
    }
    Ok(())
}

/// The plans of one pack more than those of a level, none of the same packs as an earlier one.
pub(crate) fn candidates(
    alloc: Global,
    pack_table: &PackTable,
    level: &[BeamPlan],
    space: &SearchSpace,
) -> Result<Vec<Candidate>, AllocError>
    requires near { MatchesNear space.now.table.now }
    requires earlier { NameEarlierUnits space.now.ssa.now space.now.deps.now }
    requires short { HaveShortPacksBy (choice_of space.now) (described space.now)
        space.now.table.now space.now.ssa.now space.now.deps.now }
    requires pack_table { IsPackTable (choice_of space.now) (described space.now)
        space.now.table.now space.now.ssa.now pack_table.now }
    requires level { Every (IsKept (choice_of space.now) (described space.now) space.now.table.now
        space.now.ssa.now pack_table.now.packs.items) level.now }
    requires plans { Every (IsPlanBy (choice_of space.now) (described space.now) space.now.table.now
        space.now.ssa.now space.now.deps.now) (plans_of level.now) }
    ensures candidates { IfOk result (λ met. Every (IsCandidate (choice_of space.now) (described
        space.now) space.now.table.now space.now.ssa.now space.now.deps.now
        pack_table.now.packs.items level.now) met.items) }
    ensures plans { IfOk result (λ met. grown_plans pack_table.now.packs.items level.now met.items ≡
        candidates (follows (world_of space.now)) (same_packs (world_of space.now)) (plans_of
        level.now)) }
{
    let mut met = MetPlans::new(alloc);
    'plans: for parent in 0..level.len() {
        meet_all(alloc, pack_table, level, parent, &mut met, space)?;
    }
    Ok(met.candidates)
}
