//! Which packs may follow a plan.

ghost use Rattle.std.specs.Prelude.{◌≡◌, ◌↔◌, ◌++◌, [], IfOk, IsTrue, OnOk, flat_map, map};
ghost use Rattle.std.specs.List.{list_any};
ghost use Rattle.vg_kernel_plans.specs.Fed.{packing_by, unfed};
ghost use Rattle.vg_kernel_plans.specs.LoadTable.{AreLoadGroups};
ghost use Rattle.vg_kernel_plans.specs.Packing.{packing};
ghost use Rattle.vg_kernel_plans.specs.SameAs.{same_pack};
ghost use Rattle.vg_kernel_plans.specs.Taken.{MatchesNear, operands_of};
ghost use Rattle.vg_plans.specs.Members.{Has};
ghost use Rattle.vg_plans.specs.World.{follows, has_pack, tried, tried_for};
ghost use Rattle.vg_shapes.specs.Description.{description_of};
ghost use Rattle.vg_packs.specs.Walk.{IsFree, NameUnits};

use crate::groups::store_groups;
use crate::producing::producers;
use crate::taking::taken_by;
use crate::walk::stays_plan;
use std::alloc::{AllocError, Global};
use vg_kernel_plans::same::is_same_pack;
use vg_kernel_plans::{Choice, LoadGroups};
use vg_shapes::{DepList, Description, MatchTable, Operand, Pack, Plan, Ssa};

/// Appends the packs that are tried for an operand: those that produce it, then load groups that feed it.
fn push_for(
    alloc: Global,
    packs: &mut Vec<Pack>,
    descriptions: &[Description],
    table: &MatchTable,
    ssa: &Ssa,
    groups: &LoadGroups,
    operand: &Operand,
) -> Result<(), AllocError>
    requires near { MatchesNear table.now }
    requires groups { AreLoadGroups ssa.now groups.now }
    ensures { OnOk result (packs.new.items ≡ packs.old.items ++ tried_for (packing_by
        groups.now.choice (map description_of descriptions.now) table.now ssa.now []) operand.now) }
{
    let mut produce = producers(alloc, operand, descriptions, table, ssa)?;
    packs.append(&mut produce)?;
    let mut feed = groups.feeders(alloc, operand)?;
    packs.append(&mut feed)?;
    Ok(())
}

/// Appends the packs that are tried for operands.
fn push_for_all(
    alloc: Global,
    packs: &mut Vec<Pack>,
    descriptions: &[Description],
    table: &MatchTable,
    ssa: &Ssa,
    groups: &LoadGroups,
    operands: &[Operand],
) -> Result<(), AllocError>
    requires near { MatchesNear table.now }
    requires groups { AreLoadGroups ssa.now groups.now }
    ensures { OnOk result (packs.new.items ≡ packs.old.items ++ flat_map (tried_for (packing_by
        groups.now.choice (map description_of descriptions.now) table.now ssa.now []))
        operands.now) }
{
    'operands: for operand in operands {
        push_for(alloc, packs, descriptions, table, ssa, groups, operand)?;
    }
    Ok(())
}

/// Appends the packs that are tried for what a pack takes.
fn push_tried(
    alloc: Global,
    packs: &mut Vec<Pack>,
    descriptions: &[Description],
    table: &MatchTable,
    ssa: &Ssa,
    groups: &LoadGroups,
    pack: &Pack,
) -> Result<(), AllocError>
    requires near { MatchesNear table.now }
    requires groups { AreLoadGroups ssa.now groups.now }
    ensures { OnOk result (packs.new.items ≡ packs.old.items ++ flat_map (tried_for (packing_by
        groups.now.choice (map description_of descriptions.now) table.now ssa.now [])) (operands_of
        (map description_of descriptions.now) table.now ssa.now pack.now)) }
{
    let operands = taken_by(alloc, descriptions, table, ssa, pack)?;
    push_for_all(
        alloc,
        packs,
        descriptions,
        table,
        ssa,
        groups,
        operands.as_slice(),
    )
}

/// The packs that are tried for what a pack takes: for each operand those that produce it, then the load
/// groups that feed it, if any are tried. Where it has more than 64 loads or stores, or more than some
/// 2^24 lanes, there is no memory.
pub fn tried_by(
    alloc: Global,
    descriptions: &[Description],
    table: &MatchTable,
    ssa: &Ssa,
    groups: &LoadGroups,
    pack: &Pack,
) -> Result<Vec<Pack>, AllocError>
    requires near { MatchesNear table.now }
    requires groups { AreLoadGroups ssa.now groups.now }
    ensures { IfOk result (λ packs. packs.items ≡ flat_map (tried_for (packing_by groups.now.choice
        (map description_of descriptions.now) table.now ssa.now [])) (operands_of (map
        description_of descriptions.now) table.now ssa.now pack.now)) }
{
    let mut packs = Vec::new(alloc);
    push_tried(alloc, &mut packs, descriptions, table, ssa, groups, pack)?;
    Ok(packs)
}

/// No load groups: of the packs of loads only those are tried that produce what packs take.
fn no_groups(alloc: Global, ssa: &Ssa) -> Result<LoadGroups, AllocError>
    ensures groups { IfOk result (AreLoadGroups ssa.now) }
    ensures choice { IfOk result (λ groups. groups.choice ≡ unfed) }
{
    let choice = Choice {
        fed: false,
        aligned: false,
    };
    LoadGroups::new(alloc, choice, ssa)
}

/// The packs that are tried after a plan: the store groups of the kernel, then for each pack of the plan
/// those that produce its operands. Where a pack of the plan has more than 64 loads or stores, or more
/// than some 2^24 lanes, there is no memory.
pub fn tried(
    alloc: Global,
    plan: &[Pack],
    descriptions: &[Description],
    table: &MatchTable,
    ssa: &Ssa,
) -> Result<Vec<Pack>, AllocError>
    requires near { MatchesNear table.now }
    ensures { IfOk result (λ packs. packs.items ≡ tried (packing (map description_of
        descriptions.now) table.now ssa.now []) plan.now) }
{
    let groups = no_groups(alloc, ssa)?;
    let mut packs = store_groups(alloc, ssa)?;
    'plan: for pack in plan {
        push_tried(alloc, &mut packs, descriptions, table, ssa, &groups, pack)?;
    }
    Ok(packs)
}

fn is_among(pack: &Pack, packs: &[Pack]) -> bool
    ensures { result ≡ list_any (same_pack pack.now) packs.now }
{
    packs.iter().any(|other| is_same_pack(pack, other))
}

/// Whether a pack may follow the packs of a plan that has no cycle: it is one of those that are tried
/// after the plan, and the plan stays one with it. Any pack may be asked. The dependences name units
/// alone. Where a pack of the plan has more than 64 loads or stores, or more than some 2^24 lanes, there
/// is no memory.
pub fn may_follow(
    alloc: Global,
    plan: &[Pack],
    pack: &Pack,
    descriptions: &[Description],
    table: &MatchTable,
    ssa: &Ssa,
    deps: &DepList,
) -> Result<bool, AllocError>
    requires near { MatchesNear table.now }
    requires names { NameUnits ssa.now deps.now }
    requires free { IsFree table.now ssa.now deps.now plan.now }
    ensures same { IfOk result (λ b. b ≡ has_pack (packing (map description_of descriptions.now)
        table.now ssa.now deps.now) (follows (packing (map description_of descriptions.now)
        table.now ssa.now deps.now) plan.now) pack.now) }
    ensures member { IfOk result (λ b. IsTrue b ↔ Has pack.now (follows (packing (map description_of
        descriptions.now) table.now ssa.now deps.now) plan.now)) }
{
    let packs = tried(alloc, plan, descriptions, table, ssa)?;
    if !is_among(pack, packs.as_slice()) {
        return Ok(false);
    }
    stays_plan(alloc, plan, pack, table, ssa, deps)
}

/// Whether a pack may follow a plan, as `may_follow` tells it of the plan's packs. Fails as that does.
pub fn compatible(
    alloc: Global,
    plan: &Plan,
    pack: &Pack,
    descriptions: &[Description],
    table: &MatchTable,
    ssa: &Ssa,
    deps: &DepList,
) -> Result<bool, AllocError>
    requires near { MatchesNear table.now }
    requires names { NameUnits ssa.now deps.now }
    requires free { IsFree table.now ssa.now deps.now plan.now }
    ensures same { IfOk result (λ b. b ≡ has_pack (packing (map description_of descriptions.now)
        table.now ssa.now deps.now) (follows (packing (map description_of descriptions.now)
        table.now ssa.now deps.now) plan.now) pack.now) }
    ensures member { IfOk result (λ b. IsTrue b ↔ Has pack.now (follows (packing (map description_of
        descriptions.now) table.now ssa.now deps.now) plan.now)) }
{
    may_follow(alloc, plan.as_slice(), pack, descriptions, table, ssa, deps)
}
