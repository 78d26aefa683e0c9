//! What plans cost that grow by one pack at a time.

ghost use Rattle.std.specs.Prelude.{◌≡◌, [], IfOk};
ghost use Rattle.vg_cost.specs.Running.{StandsFor};
ghost use Rattle.vg_kernel_plans.specs.Laws.{IsPlanFor};
ghost use Rattle.vg_kernel_plans.specs.Taken.{MatchesNear};
ghost use Rattle.vg_packs.specs.Walk.{IsFree, NameUnits};

use crate::kernels::copied;
use crate::plans::{Two, is_short, pack_of};
use std::alloc::Global;
use std::test::Fail;
use vg_base::Items;
use vg_cost::Running;
use vg_packs::may_follow;
use vg_shapes::{DepList, MatchTable, Ssa};

/// A plan of loads and stores with a pack after it, which must be one that may follow it.
fn grown(
    alloc: Global,
    plan: &Running,
    two: Two,
    table: &MatchTable,
    ssa: &Ssa,
    deps: &DepList,
) -> Result<Running, Fail>
    requires near { MatchesNear table.now }
    requires names { NameUnits ssa.now deps.now }
    requires free { IsFree table.now ssa.now deps.now plan.now.packs.items }
    requires plan { IsPlanFor [] table.now ssa.now deps.now plan.now.packs.items }
    requires stands { StandsFor [] table.now ssa.now plan.now }
    ensures free { IfOk result (λ r. IsFree table.now ssa.now deps.now r.packs.items) }
    ensures plan { IfOk result (λ r. IsPlanFor [] table.now ssa.now deps.now r.packs.items) }
    ensures stands { IfOk result (StandsFor [] table.now ssa.now) }
{
    let pack = pack_of(alloc, two)?;
    let is_next = may_follow(alloc, plan.packs(), &pack, &[], table, ssa, deps)?;
    if !is_next {
        return Err(Fail::new("a pack that may not follow"));
    }
    if !is_short(&pack) {
        return Err(Fail::new("a wide pack"));
    }
    let longer = plan.with(alloc, &pack, &[], table, ssa)?;
    Ok(longer)
}

/// Nothing depends on anything, which changes no cost.
fn no_deps(alloc: Global) -> DepList
    ensures { result ≡ [] }
{
    DepList::from_rows(Items::from_vec(Vec::new(alloc)))
}

/// What the empty plan costs, the plan of the first pack, and that of both.
fn costs_of(alloc: Global, ssa: &Ssa, first: Two, second: Two) -> Result<[u64; 3], Fail> {
    let table = MatchTable::from_vec(Vec::new(alloc));
    let deps = no_deps(alloc);
    let empty = Running::new(alloc, &[], &table, ssa)?;
    let one = grown(alloc, &empty, first, &table, ssa, &deps)?;
    let both = grown(alloc, &one, second, &table, ssa, &deps)?;
    Ok([empty.cost(), one.cost(), both.cost()])
}

#[test]
fn a_plan_that_grows_costs_what_it_costs_anew(rt: HostRuntime) -> Result<(), Fail> {
    let alloc = rt.alloc();
    let ssa = copied(alloc)?;
    let costs = costs_of(alloc, &ssa, Two::Stores(3, 5), Two::Loads(2, 4))?;
    assert!(rt; costs == [4, 6, 2], "scalars, two inserts, two packs");
    Ok(())
}
