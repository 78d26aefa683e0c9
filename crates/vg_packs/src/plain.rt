//! The plain plan.

ghost use Rattle.std.specs.Prelude.{◌≡◌, ◌++◌, ◌||◌, ◌∷◌, [], find, flat_map, IfOk, OnOk, map};
ghost use Rattle.std.specs.List.{list_any};
ghost use Rattle.vg_plans.specs.Completed.{produced};
ghost use Rattle.vg_plans.specs.PlainPlan.{plain_plan, walk, with_groups};
ghost use Rattle.vg_plans.specs.World.{stays_plan};
ghost use Rattle.vg_kernel_plans.specs.Completed.{turns_of};
ghost use Rattle.vg_kernel_plans.specs.Fed.{packing_by};
ghost use Rattle.vg_kernel_plans.specs.Held.{holds};
ghost use Rattle.vg_kernel_plans.specs.Packing.{packing, plain_of};
ghost use Rattle.vg_kernel_plans.specs.Taken.{MatchesNear, operands_of};
ghost use Rattle.vg_kernel_plans.specs.Wants.{is_constant};
ghost use Rattle.vg_shapes.specs.Description.{description_of};
ghost use Rattle.vg_packs.specs.Floor.{IsGrown};
ghost use Rattle.vg_packs.specs.Plain.{IsTurn, plain_among};
ghost use Rattle.vg_packs.specs.Walk.{IsFree, NameEarlierUnits};

use crate::aligned::groups_by;
use crate::groups::store_groups;
use crate::growing::GrowingPlan;
use crate::producing::producers;
use crate::taking::taken_by;
use std::alloc::{AllocError, Global};
use std::collections::VecDeque;
use vg_kernel_plans::Choice;
use vg_kernel_plans::held::holds;
use vg_kernel_plans::wants::is_constant;
use vg_shapes::{DepList, Description, MatchTable, Operand, Pack, Plan, Ssa};

/// The greatest number of units of a kernel that has a plain plan.
const MOST: usize = 1 << 24;

fn push_all(queue: &mut VecDeque<Operand>, operands: Vec<Operand>) -> Result<(), AllocError>
    ensures { OnOk result (queue.new.items ≡ queue.old.items ++ operands.items) }
{
    'operands: for operand in operands {
        queue.push_back(operand)?;
    }
    Ok(())
}

/// Appends the operands of a pack to those that wait.
fn push_operands(
    alloc: Global,
    queue: &mut VecDeque<Operand>,
    descriptions: &[Description],
    table: &MatchTable,
    ssa: &Ssa,
    pack: &Pack,
) -> Result<(), AllocError>
    requires near { MatchesNear table.now }
    ensures { OnOk result (queue.new.items ≡ queue.old.items ++ operands_of (map description_of
        descriptions.now) table.now ssa.now pack.now) }
{
    let operands = taken_by(alloc, descriptions, table, ssa, pack)?;
    push_all(queue, operands)
}

/// The operands of the packs of a plan, in their order.
fn first_queue(
    alloc: Global,
    descriptions: &[Description],
    table: &MatchTable,
    ssa: &Ssa,
    plan: &[Pack],
) -> Result<VecDeque<Operand>, AllocError>
    requires near { MatchesNear table.now }
    ensures { IfOk result (λ queue. queue.items
        ≡ flat_map (operands_of (map description_of descriptions.now) table.now ssa.now) plan.now) }
{
    let mut queue = VecDeque::new(alloc);
    'packs: for pack in plan {
        push_operands(alloc, &mut queue, descriptions, table, ssa, pack)?;
    }
    Ok(queue)
}

/// Puts a pack after a plan, if the plan stays one with it.
fn push_if_stays(
    alloc: Global,
    plan: &mut GrowingPlan,
    pack: Pack,
    table: &MatchTable,
    ssa: &Ssa,
    deps: &DepList,
) -> Result<(), AllocError>
    requires earlier { NameEarlierUnits ssa.now deps.now }
    requires grown { IsGrown table.now ssa.now deps.now plan.old }
    ensures plan { OnOk result (plan.new.packs.items
        ≡ with_groups (packing [] table.now ssa.now deps.now) plan.old.packs.items (pack ∷ [])) }
    ensures grown { OnOk result (IsGrown table.now ssa.now deps.now plan.new) }
{
    let stays = plan.stays(alloc, table, ssa, deps, &pack)?;
    if stays {
        plan.push(alloc, table, ssa, deps, pack)?;
    }
    Ok(())
}

/// Puts each of these packs after a plan with which it stays one, one after the other.
pub(crate) fn push_each(
    alloc: Global,
    plan: &mut GrowingPlan,
    packs: Vec<Pack>,
    table: &MatchTable,
    ssa: &Ssa,
    deps: &DepList,
) -> Result<(), AllocError>
    requires earlier { NameEarlierUnits ssa.now deps.now }
    requires grown { IsGrown table.now ssa.now deps.now plan.old }
    ensures plan { OnOk result (plan.new.packs.items
        ≡ with_groups (packing [] table.now ssa.now deps.now) plan.old.packs.items packs.items) }
    ensures grown { OnOk result (IsGrown table.now ssa.now deps.now plan.new) }
{
    'packs: for pack in packs {
        push_if_stays(alloc, plan, pack, table, ssa, deps)?;
    }
    Ok(())
}

/// Whether a pack of a plan holds an operand.
fn is_reused(descriptions: &[Description], ssa: &Ssa, plan: &[Pack], operand: &Operand) -> bool
    ensures { result ≡ list_any (λ p. holds (map description_of descriptions.now) ssa.now p
        operand.now) plan.now }
{
    plan.iter().any(|p| holds(descriptions, ssa, p, operand))
}

/// Whether an operand needs no pack: a pack of the plan holds it, or it wants no value.
pub(crate) fn is_settled(
    descriptions: &[Description],
    ssa: &Ssa,
    plan: &[Pack],
    operand: &Operand,
) -> bool
    ensures { result ≡ (list_any (λ p. holds (map description_of descriptions.now) ssa.now p
        operand.now) plan.now || is_constant operand.now) }
{
    is_reused(descriptions, ssa, plan, operand) || is_constant(operand)
}

/// The first of these packs with which a plan stays one.
fn first_that_stays(
    alloc: Global,
    plan: &GrowingPlan,
    packs: Vec<Pack>,
    table: &MatchTable,
    ssa: &Ssa,
    deps: &DepList,
) -> Result<Option<Pack>, AllocError>
    requires earlier { NameEarlierUnits ssa.now deps.now }
    requires grown { IsGrown table.now ssa.now deps.now plan.now }
    ensures { IfOk result (λ found. found ≡ find (stays_plan (packing [] table.now ssa.now deps.now)
        plan.now.packs.items) packs.items) }
{
    'packs: for pack in packs {
        let stays = plan.stays(alloc, table, ssa, deps, &pack)?;
        if stays {
            return Ok(Some(pack));
        }
    }
    Ok(None)
}

/// Takes one operand that waited: puts the first pack after the plan that produces it and with which
/// the plan stays one, unless it needs none, and has the operands of that pack wait.
fn turn(
    alloc: Global,
    descriptions: &[Description],
    table: &MatchTable,
    ssa: &Ssa,
    deps: &DepList,
    plan: &mut GrowingPlan,
    queue: &mut VecDeque<Operand>,
    operand: &Operand,
) -> Result<(), AllocError>
    requires near { MatchesNear table.now }
    requires earlier { NameEarlierUnits ssa.now deps.now }
    requires grown { IsGrown table.now ssa.now deps.now plan.old }
    ensures turn { OnOk result (IsTurn (packing (map description_of descriptions.now) table.now
        ssa.now deps.now) plan.old.packs.items (operand.now ∷ queue.old.items) plan.new.packs.items
        queue.new.items) }
    ensures grown { OnOk result (IsGrown table.now ssa.now deps.now plan.new) }
{
    if is_settled(descriptions, ssa, plan.packs(), operand) {
        return Ok(());
    }
    let packs = producers(alloc, operand, descriptions, table, ssa)?;
    let found = first_that_stays(alloc, plan, packs, table, ssa, deps)?;
    match found {
        None => Ok(()),
        Some(pack) => {
            push_operands(alloc, queue, descriptions, table, ssa, &pack)?;
            plan.push(alloc, table, ssa, deps, pack)?;
            Ok(())
        }
    }
}

/// A plan with a pack for each operand that waits, or for those of at most twice as many turns as there
/// are units.
fn walk_on(
    alloc: Global,
    descriptions: &[Description],
    table: &MatchTable,
    ssa: &Ssa,
    deps: &DepList,
    start: GrowingPlan,
    waiting: VecDeque<Operand>,
) -> Result<GrowingPlan, AllocError>
    requires near { MatchesNear table.now }
    requires earlier { NameEarlierUnits ssa.now deps.now }
    requires grown { IsGrown table.now ssa.now deps.now start }
    ensures plan { IfOk result (λ plan. plan.packs.items
        ≡ walk (packing (map description_of descriptions.now) table.now ssa.now deps.now)
        (turns_of ssa.now) start.packs.items waiting.items) }
    ensures grown { IfOk result (IsGrown table.now ssa.now deps.now) }
{
    let count = ssa.units.as_slice().len();
    if count > MOST {
        return Err(AllocError);
    }
    let mut turns = 2 * count;
    let mut plan = start;
    let mut queue = waiting;
    'turns: while turns > 0 {
        match queue.pop_front() {
            None => return Ok(plan),
            Some(operand) => {
                turn(
                    alloc,
                    descriptions,
                    table,
                    ssa,
                    deps,
                    &mut plan,
                    &mut queue,
                    &operand,
                )?;
                turns -= 1;
            }
        }
    }
    Ok(plan)
}

/// A plan with a producer for each operand that waits: at first the operands of its packs.
pub(crate) fn produced(
    alloc: Global,
    descriptions: &[Description],
    table: &MatchTable,
    ssa: &Ssa,
    deps: &DepList,
    plan: GrowingPlan,
) -> Result<GrowingPlan, AllocError>
    requires near { MatchesNear table.now }
    requires earlier { NameEarlierUnits ssa.now deps.now }
    requires grown { IsGrown table.now ssa.now deps.now plan }
    ensures plan { IfOk result (λ grown. grown.packs.items
        ≡ produced (packing (map description_of descriptions.now) table.now ssa.now deps.now)
        (turns_of ssa.now) plan.packs.items) }
    ensures grown { IfOk result (IsGrown table.now ssa.now deps.now) }
{
    let queue = first_queue(alloc, descriptions, table, ssa, plan.packs())?;
    let grown = walk_on(alloc, descriptions, table, ssa, deps, plan, queue)?;
    Ok(grown)
}

/// The plan of these store groups with which it stays one, with a producer for each operand that waits.
fn grown_plan(
    alloc: Global,
    descriptions: &[Description],
    table: &MatchTable,
    ssa: &Ssa,
    deps: &DepList,
    groups: Vec<Pack>,
) -> Result<GrowingPlan, AllocError>
    requires near { MatchesNear table.now }
    requires earlier { NameEarlierUnits ssa.now deps.now }
    ensures plain { IfOk result (λ plan. plan.packs.items
        ≡ plain_among (packing (map description_of descriptions.now) table.now ssa.now deps.now)
        (turns_of ssa.now) groups.items) }
    ensures grown { IfOk result (IsGrown table.now ssa.now deps.now) }
{
    let mut plan = GrowingPlan::new(alloc, table, ssa, deps)?;
    push_each(alloc, &mut plan, groups, table, ssa, deps)?;
    let grown = produced(alloc, descriptions, table, ssa, deps, plan)?;
    Ok(grown)
}

/// The plain plan of a kernel: each store group with which it stays a plan, then for each operand that
/// waits, first in, first out, the first pack that produces it and with which it stays a plan. The
/// dependences name earlier units alone, as those of a kernel do. Where a kernel has more than some
/// 2^24 units there is no memory.
pub fn plain_plan(
    alloc: Global,
    descriptions: &[Description],
    table: &MatchTable,
    ssa: &Ssa,
    deps: &DepList,
) -> Result<Plan, AllocError>
    requires near { MatchesNear table.now }
    requires earlier { NameEarlierUnits ssa.now deps.now }
    ensures plain { IfOk result (λ plan. plan ≡ plain_of (map description_of descriptions.now)
        table.now ssa.now deps.now) }
    ensures free { IfOk result (λ plan. IsFree table.now ssa.now deps.now plan) }
{
    let groups = store_groups(alloc, ssa)?;
    let plan = grown_plan(alloc, descriptions, table, ssa, deps, groups)?;
    Ok(Plan::from_vec(plan.into_packs()))
}

/// The plain plan of the store groups that a choice tries, as `plain_plan` is that of all.
pub fn plain_plan_by(
    alloc: Global,
    descriptions: &[Description],
    table: &MatchTable,
    ssa: &Ssa,
    deps: &DepList,
    choice: Choice,
) -> Result<Plan, AllocError>
    requires near { MatchesNear table.now }
    requires earlier { NameEarlierUnits ssa.now deps.now }
    ensures { IfOk result (λ plan. plan ≡ plain_plan (packing_by choice (map description_of
        descriptions.now) table.now ssa.now deps.now) (turns_of ssa.now)) }
{
    let groups = groups_by(alloc, choice, ssa)?;
    let plan = grown_plan(alloc, descriptions, table, ssa, deps, groups)?;
    Ok(Plan::from_vec(plan.into_packs()))
}
