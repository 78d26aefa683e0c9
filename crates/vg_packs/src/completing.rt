//! Completed plans.

ghost use Rattle.std.specs.Prelude.{◌≡◌, [], IfOk, OnOk, flat_map, map};
ghost use Rattle.vg_plans.specs.Completed.{completed, fed_for, fed_for_all};
ghost use Rattle.vg_kernel_plans.specs.Completed.{turns_of};
ghost use Rattle.vg_kernel_plans.specs.Fed.{IsPlanBy, packing_by};
ghost use Rattle.vg_kernel_plans.specs.LoadTable.{AreLoadGroups};
ghost use Rattle.vg_kernel_plans.specs.Packing.{packing};
ghost use Rattle.vg_kernel_plans.specs.Taken.{MatchesNear, operands_of};
ghost use Rattle.vg_shapes.specs.Description.{description_of};
ghost use Rattle.vg_packs.specs.Completing.{IsCompletedWith, StayInTurn};
ghost use Rattle.vg_packs.specs.Floor.{IsGrown};
ghost use Rattle.vg_packs.specs.Walk.{NameEarlierUnits};

use crate::growing::GrowingPlan;
use crate::plain::{is_settled, produced, push_each};
use crate::taking::taken_by;
use std::alloc::{AllocError, Global};
use vg_kernel_plans::LoadGroups;
use vg_kernel_plans::copies::copy_pack;
use vg_shapes::{DepList, Description, MatchTable, Operand, Pack, Plan, Ssa};

/// Puts after a plan each load group that feeds an operand and with which the plan stays one, unless the
/// operand is there already or needs no pack.
fn feed(
    alloc: Global,
    descriptions: &[Description],
    table: &MatchTable,
    ssa: &Ssa,
    deps: &DepList,
    groups: &LoadGroups,
    plan: &mut GrowingPlan,
    operand: &Operand,
) -> Result<(), AllocError>
    requires earlier { NameEarlierUnits ssa.now deps.now }
    requires groups { AreLoadGroups ssa.now groups.now }
    requires grown { IsGrown table.now ssa.now deps.now plan.old }
    ensures plan { OnOk result (plan.new.packs.items ≡ fed_for (packing_by groups.now.choice (map
        description_of descriptions.now) table.now ssa.now deps.now) plan.old.packs.items
        operand.now) }
    ensures grown { OnOk result (IsGrown table.now ssa.now deps.now plan.new) }
{
    if is_settled(descriptions, ssa, plan.packs(), operand) {
        return Ok(());
    }
    let feeders = groups.feeders(alloc, operand)?;
    push_each(alloc, plan, feeders, table, ssa, deps)?;
    Ok(())
}

/// The same for one operand after the other.
fn feed_all(
    alloc: Global,
    descriptions: &[Description],
    table: &MatchTable,
    ssa: &Ssa,
    deps: &DepList,
    groups: &LoadGroups,
    plan: &mut GrowingPlan,
    operands: Vec<Operand>,
) -> Result<(), AllocError>
    requires earlier { NameEarlierUnits ssa.now deps.now }
    requires groups { AreLoadGroups ssa.now groups.now }
    requires grown { IsGrown table.now ssa.now deps.now plan.old }
    ensures plan { OnOk result (plan.new.packs.items ≡ fed_for_all (packing_by groups.now.choice
        (map description_of descriptions.now) table.now ssa.now deps.now) plan.old.packs.items
        operands.items) }
    ensures grown { OnOk result (IsGrown table.now ssa.now deps.now plan.new) }
{
    'operands: for operand in operands {
        feed(
            alloc,
            descriptions,
            table,
            ssa,
            deps,
            groups,
            plan,
            &operand,
        )?;
    }
    Ok(())
}

/// The operands of the packs of a plan, in their order.
fn all_taken(
    alloc: Global,
    descriptions: &[Description],
    table: &MatchTable,
    ssa: &Ssa,
    plan: &[Pack],
) -> Result<Vec<Operand>, AllocError>
    requires near { MatchesNear table.now }
    ensures { IfOk result (λ operands. operands.items
        ≡ flat_map (operands_of (map description_of descriptions.now) table.now ssa.now) plan.now) }
{
    let mut operands = Vec::new(alloc);
    'packs: for pack in plan {
        let mut taken = taken_by(alloc, descriptions, table, ssa, pack)?;
        operands.append(&mut taken)?;
    }
    Ok(operands)
}

/// A plan in which what its packs take is produced, and what then is not there is fed.
fn completed(
    alloc: Global,
    descriptions: &[Description],
    table: &MatchTable,
    ssa: &Ssa,
    deps: &DepList,
    groups: &LoadGroups,
    plan: GrowingPlan,
) -> Result<Plan, AllocError>
    requires near { MatchesNear table.now }
    requires earlier { NameEarlierUnits ssa.now deps.now }
    requires groups { AreLoadGroups ssa.now groups.now }
    requires grown { IsGrown table.now ssa.now deps.now plan }
    ensures { IfOk result (λ whole. whole ≡ completed (packing_by groups.now.choice (map
        description_of descriptions.now) table.now ssa.now deps.now) (turns_of ssa.now)
        plan.packs.items) }
{
    let mut grown = produced(alloc, descriptions, table, ssa, deps, plan)?;
    let operands = all_taken(alloc, descriptions, table, ssa, grown.packs())?;
    feed_all(
        alloc,
        descriptions,
        table,
        ssa,
        deps,
        groups,
        &mut grown,
        operands,
    )?;
    Ok(Plan::from_vec(grown.into_packs()))
}

/// A plan as one that grows.
fn growing(
    alloc: Global,
    table: &MatchTable,
    ssa: &Ssa,
    deps: &DepList,
    packs: &[Pack],
) -> Result<GrowingPlan, AllocError>
    requires earlier { NameEarlierUnits ssa.now deps.now }
    requires plan { StayInTurn (packing [] table.now ssa.now deps.now) [] packs.now }
    ensures packs { IfOk result (λ plan. plan.packs.items ≡ packs.now) }
    ensures grown { IfOk result (IsGrown table.now ssa.now deps.now) }
{
    let mut plan = GrowingPlan::new(alloc, table, ssa, deps)?;
    'packs: for pack in packs {
        let copy = copy_pack(alloc, pack)?;
        plan.push(alloc, table, ssa, deps, copy)?;
    }
    Ok(plan)
}

/// A plan, with a producer for each operand that waits, and then with the load groups that feed those
/// that no pack holds. The dependences name earlier units alone.
pub fn completed_plan(
    alloc: Global,
    descriptions: &[Description],
    table: &MatchTable,
    ssa: &Ssa,
    deps: &DepList,
    groups: &LoadGroups,
    plan: &[Pack],
) -> Result<Plan, AllocError>
    requires near { MatchesNear table.now }
    requires earlier { NameEarlierUnits ssa.now deps.now }
    requires groups { AreLoadGroups ssa.now groups.now }
    requires plan { IsPlanBy groups.now.choice (map description_of descriptions.now) table.now
        ssa.now deps.now plan.now }
    ensures { IfOk result (λ whole. whole ≡ completed (packing_by groups.now.choice (map
        description_of descriptions.now) table.now ssa.now deps.now) (turns_of ssa.now) plan.now) }
{
    let start = growing(alloc, table, ssa, deps, plan)?;
    let whole = completed(alloc, descriptions, table, ssa, deps, groups, start)?;
    Ok(whole)
}

/// A plan with a pack after it, completed, where it stays a plan with that pack.
pub fn completed_with(
    alloc: Global,
    descriptions: &[Description],
    table: &MatchTable,
    ssa: &Ssa,
    deps: &DepList,
    groups: &LoadGroups,
    plan: &[Pack],
    pack: &Pack,
) -> Result<Option<Plan>, AllocError>
    requires near { MatchesNear table.now }
    requires earlier { NameEarlierUnits ssa.now deps.now }
    requires groups { AreLoadGroups ssa.now groups.now }
    requires plan { IsPlanBy groups.now.choice (map description_of descriptions.now) table.now
        ssa.now deps.now plan.now }
    ensures { IfOk result (IsCompletedWith (packing_by groups.now.choice (map description_of
        descriptions.now) table.now ssa.now deps.now) (turns_of ssa.now) plan.now pack.now) }
{
    let mut start = growing(alloc, table, ssa, deps, plan)?;
    let stays = start.stays(alloc, table, ssa, deps, pack)?;
    if !stays {
        return Ok(None);
    }
    let copy = copy_pack(alloc, pack)?;
    start.push(alloc, table, ssa, deps, copy)?;
    let whole = completed(alloc, descriptions, table, ssa, deps, groups, start)?;
    Ok(Some(whole))
}
