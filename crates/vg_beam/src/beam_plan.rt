//! Plans that are kept.

ghost use Rattle.std.specs.Prelude.{◌≡◌, ◌<◌, ◌++◌, [], IfOk, OnOk, filter, length, map};
ghost use Rattle.vg_kernel_plans.specs.Taken.{MatchesNear};
ghost use Rattle.vg_packs.specs.PlanMarks.{MarksPlan};
ghost use Rattle.vg_plans.specs.Members.{Every, Has};
ghost use Rattle.vg_shapes.specs.declared.ssa.Ssa.{Ssa as Numbered};
ghost use Rattle.vg_beam.specs.PackTable.{IsPackTable, pack_at, produced_at};
ghost use Rattle.vg_beam.specs.Candidate.{AreGrown, CanGrow, IsGrown};
ghost use Rattle.vg_beam.specs.BeamPlan.{IsKept, is_apart, plan_at, plan_of};
ghost use Rattle.vg_beam.specs.SearchSpace.{HasGroups, choice_of, described};

use crate::candidate::Candidate;
use crate::key::with_number;
use crate::pack_table::PackTable;
use crate::search_space::SearchSpace;
use std::alloc::{AllocError, Global};
use vg_base::Items;
use vg_cost::Running;
use vg_packs::{PlanMarks, groups_by};
use vg_shapes::Pack;

/// A plan that may grow: the plan with its cost, the numbers of its packs, rising, and the numbers of
/// the packs that are tried after it and share no unit with it.
pub(crate) struct BeamPlan {
    pub(crate) running: Running,
    pub(crate) key: Items<u32>,
    pub(crate) tried: Items<u32>,
}

/// Written out, so that the exits of an owner call it: a derived one would be proved anew at each.
impl Drop for BeamPlan {
    fn drop(self) {
        let BeamPlan {
            running: _,
            key: _,
            tried: _,
        } = self;
    }
}

/// The plan at a place of a level.
pub(crate) fn kept_at(level: &[BeamPlan], place: usize) -> &BeamPlan
    requires { place < length level.now }
    ensures member { Has result.now level.now }
    ensures plan { plan_of result.now ≡ plan_at level.now place }
{
    &level[place]
}

/// The empty plan, after which the store groups are tried.
pub(crate) fn empty_plan(
    alloc: Global,
    pack_table: &mut PackTable,
    space: &SearchSpace,
) -> Result<BeamPlan, AllocError>
    requires near { MatchesNear space.now.table.now }
    requires groups { HasGroups space.now }
    requires pack_table { IsPackTable (choice_of space.now) (described space.now)
        space.now.table.now space.now.ssa.now pack_table.old }
    ensures pack_table { OnOk result (IsPackTable (choice_of space.now) (described space.now)
        space.now.table.now space.now.ssa.now pack_table.new) }
    ensures kept { IfOk result (IsKept (choice_of space.now) (described space.now)
        space.now.table.now space.now.ssa.now pack_table.new.packs.items) }
    ensures plan { IfOk result (λ kept. plan_of kept ≡ []) }
{
    let running = Running::new(alloc, space.descriptions, space.table, space.ssa)?;
    let groups = groups_by(alloc, space.groups.choice, space.ssa)?;
    let tried = pack_table.number_all(alloc, groups.as_slice(), space)?;
    Ok(BeamPlan {
        running,
        key: Items::from_vec(Vec::new(alloc)),
        tried: Items::from_vec(tried),
    })
}

/// Puts after a list those numbers whose packs share no unit with a plan.
fn push_apart(
    pack_table: &PackTable,
    plan: &[Pack],
    marks: &PlanMarks,
    numbers: &[u32],
    apart: &mut Vec<u32>,
) -> Result<(), AllocError>
    requires marks { (ssa : Numbered) × MarksPlan ssa plan.now marks.now }
    requires inside { Every (λ n. n < length pack_table.now.packs.items) numbers.now }
    ensures { OnOk result (apart.new.items ≡ apart.old.items ++ filter (λ n. is_apart plan.now
        (pack_at pack_table.now.packs.items n)) numbers.now) }
{
    'numbers: for number in numbers {
        let overlap = marks.overlaps(plan, pack_table.pack(*number));
        if !overlap {
            apart.push(*number)?;
        }
    }
    Ok(())
}

/// The numbers of the packs that are tried after a plan to which a pack was added, those left out that
/// share a unit with it.
fn tried_after(
    alloc: Global,
    pack_table: &PackTable,
    parent: &BeamPlan,
    plan: &[Pack],
    pack: u32,
    space: &SearchSpace,
) -> Result<Items<u32>, AllocError>
    requires pack { pack < length pack_table.now.produced.items }
    requires before { Every (λ n. n < length pack_table.now.packs.items) parent.now.tried }
    requires produced { Every (λ n. n < length pack_table.now.packs.items) (produced_at
        pack_table.now pack) }
    ensures { IfOk result (λ tried. tried ≡ filter (λ n. is_apart plan.now (pack_at
        pack_table.now.packs.items n)) (parent.now.tried ++ produced_at pack_table.now pack)) }
{
    let marks = PlanMarks::new(alloc, space.ssa, plan)?;
    let mut apart = Vec::new(alloc);
    let before = parent.tried.as_slice();
    push_apart(pack_table, plan, &marks, before, &mut apart)?;
    let produced = pack_table.produced(pack);
    push_apart(pack_table, plan, &marks, produced, &mut apart)?;
    Ok(Items::from_vec(apart))
}

/// The plan of a candidate of a level.
fn grow(
    alloc: Global,
    pack_table: &mut PackTable,
    level: &[BeamPlan],
    candidate: &Candidate,
    space: &SearchSpace,
) -> Result<BeamPlan, AllocError>
    requires near { MatchesNear space.now.table.now }
    requires groups { HasGroups space.now }
    requires pack_table { IsPackTable (choice_of space.now) (described space.now)
        space.now.table.now space.now.ssa.now pack_table.old }
    requires level { Every (IsKept (choice_of space.now) (described space.now) space.now.table.now
        space.now.ssa.now pack_table.old.packs.items) level.now }
    requires candidate { CanGrow (choice_of space.now) (described space.now) space.now.table.now
        space.now.ssa.now pack_table.old.packs.items level.now candidate.now }
    ensures { IfOk result (IsGrown (choice_of space.now) (described space.now) space.now.table.now
        space.now.ssa.now pack_table.old pack_table.new level.now candidate.now) }
{
    let parent = kept_at(level, candidate.parent);
    let pack = pack_table.pack(candidate.pack);
    let running = parent
        .running
        .with(alloc, pack, space.descriptions, space.table, space.ssa)?;
    let key = with_number(alloc, parent.key.as_slice(), candidate.pack)?;
    pack_table.open(alloc, candidate.pack, space)?;
    let plan = running.packs();
    let tried = tried_after(alloc, pack_table, parent, plan, candidate.pack, space)?;
    Ok(BeamPlan {
        running,
        key: Items::from_vec(key),
        tried,
    })
}

/// The plans of candidates of a level.
pub(crate) fn grow_all(
    alloc: Global,
    pack_table: &mut PackTable,
    level: &[BeamPlan],
    candidates: &[Candidate],
    space: &SearchSpace,
) -> Result<Vec<BeamPlan>, AllocError>
    requires near { MatchesNear space.now.table.now }
    requires groups { HasGroups space.now }
    requires pack_table { IsPackTable (choice_of space.now) (described space.now)
        space.now.table.now space.now.ssa.now pack_table.old }
    requires level { Every (IsKept (choice_of space.now) (described space.now) space.now.table.now
        space.now.ssa.now pack_table.old.packs.items) level.now }
    requires candidates { Every (CanGrow (choice_of space.now) (described space.now)
        space.now.table.now space.now.ssa.now pack_table.old.packs.items level.now) candidates.now }
    ensures { IfOk result (λ next. AreGrown (choice_of space.now) (described space.now)
        space.now.table.now space.now.ssa.now pack_table.old pack_table.new level.now candidates.now
        next.items) }
{
    let mut next = Vec::new(alloc);
    'candidates: for candidate in candidates {
        let kept = grow(alloc, pack_table, level, candidate, space)?;
        next.push(kept)?;
    }
    Ok(next)
}
