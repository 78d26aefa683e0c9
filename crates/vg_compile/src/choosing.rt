//! The plan that is chosen for the numbered values of a kernel, emitted and told of alike.

ghost use Rattle.std.specs.Prelude.{◌≡◌, IfOk, map};
ghost use Rattle.std.specs.List.{AllByRecursion};
ghost use Rattle.vg_compile.specs.Chosen.{IsChosenPlan};
ghost use Rattle.vg_emission.specs.Truth.{IsCallable};
ghost use Rattle.vg_shapes.specs.Depends.{dependences};
ghost use Rattle.vg_shapes.specs.Description.{description_of};
ghost use Rattle.vg_shapes.specs.Sound.{IsSound};

use std::alloc::{AllocError, Global};
use vg_beam::choose;
use vg_deps::depends;
use vg_match::build;
use vg_shapes::{DepList, Description, MatchTable, Plan, Ssa};

/// A plan of numbered values, with what it was chosen over.
#[derive(Drop)]
pub(crate) struct ChosenPlan {
    pub(crate) table: MatchTable,
    pub(crate) deps: DepList,
    pub(crate) plan: Plan,
}

/// The chosen plan of numbered values, where the search keeps `width` plans of each size.
pub(crate) fn choose_plan(
    alloc: Global,
    descriptions: &[Description],
    ssa: &Ssa,
    width: u32,
) -> Result<ChosenPlan, AllocError>
    requires sound { IsSound ssa.now }
    requires callable { AllByRecursion IsCallable (map description_of descriptions.now) }
    ensures plan { IfOk result (λ c. IsChosenPlan (map description_of descriptions.now) c.table
        ssa.now width c.plan) }
    ensures deps { IfOk result (λ c. c.deps ≡ dependences ssa.now) }
{
    let table = build(alloc, descriptions, ssa)?;
    let deps = depends(alloc, ssa)?;
    let plan = choose(alloc, descriptions, &table, ssa, &deps, width)?;
    Ok(ChosenPlan { table, deps, plan })
}
