//! The plan of a kernel.

ghost use Rattle.std.specs.Prelude.{◌≡◌, IfOk, map};
ghost use Rattle.std.specs.List.{AllByRecursion};
ghost use Rattle.vg_catalog.specs.Catalogs.{entries_in};
ghost use Rattle.vg_catalog.specs.Extensions.{bits_in};
ghost use Rattle.vg_compile.specs.Described.{IsPlanBy};
ghost use Rattle.vg_compile.specs.Planned.{IsPlanOf, IsPlanned};
ghost use Rattle.vg_emission.specs.Truth.{IsCallable};
ghost use Rattle.vg_descriptions.specs.Descriptions.{AreOf, descriptions};
ghost use Rattle.vg_kernel.specs.Cost.{scalar_cost};
ghost use Rattle.vg_kernel.specs.Tree.{tree_of};
ghost use Rattle.vg_kernel.specs.WellFormed.{IsWellFormed};
ghost use Rattle.vg_shapes.specs.Depends.{dependences};
ghost use Rattle.vg_shapes.specs.Description.{description_of};
ghost use Rattle.vg_shapes.specs.Sound.{IsSound};

use crate::choosing::{ChosenPlan, choose_plan};
use std::alloc::{AllocError, Global};
use vg_catalog::{Catalog, Extensions};
use vg_cost::plan_cost;
use vg_descriptions::descriptions_of;
use vg_kernel::{Kernel, scalar_cost};
use vg_packs::plain_plan;
use vg_shapes::{Description, Plan, Ssa};
use vg_ssa::number_values;

/// The chosen plan of numbered values, with what it and the plain plan cost.
#[derive(Drop)]
pub(crate) struct Planned {
    pub(crate) chosen: ChosenPlan,
    pub(crate) cost: u64,
    pub(crate) plain: u64,
}

/// The chosen plan of numbered values, where the search keeps `width` plans of each size, and what is told
/// of it.
pub(crate) fn plan_units(
    alloc: Global,
    descriptions: &[Description],
    ssa: &Ssa,
    width: u32,
) -> Result<Planned, AllocError>
    requires sound { IsSound ssa.now }
    requires callable { AllByRecursion IsCallable (map description_of descriptions.now) }
    ensures planned { IfOk result (λ p. IsPlanned (map description_of descriptions.now)
        p.chosen.table ssa.now width p.chosen.plan p.cost p.plain) }
    ensures deps { IfOk result (λ p. p.chosen.deps ≡ dependences ssa.now) }
{
    let chosen = choose_plan(alloc, descriptions, ssa, width)?;
    let plain = plain_plan(alloc, descriptions, &chosen.table, ssa, &chosen.deps)?;
    let cost = plan_cost(alloc, &chosen.plan, descriptions, &chosen.table, ssa)?;
    let plain_cost = plan_cost(alloc, &plain, descriptions, &chosen.table, ssa)?;
    Ok(Planned {
        chosen,
        cost,
        plain: plain_cost,
    })
}

/// The plan of a kernel, with what it and others cost.
#[derive(Drop)]
pub struct Priced {
    /// The packs of the plan, in the order in which it grew, their units numbered as by `number_values`.
    pub plan: Plan,
    /// What the plan costs.
    pub cost: u64,
    /// What the plain plan costs.
    pub plain: u64,
    /// What the kernel costs with a line for each load, operation and store.
    pub scalar: u32,
}

/// What `plan_of` gives of a catalogue and a set of extensions, by their descriptions, as
/// `descriptions_of` gives them: a pack names an instance by its index there. Fails for want of
/// memory, also at the bounds of `compile_described`.
pub fn plan_described(
    alloc: Global,
    descriptions: &[Description],
    kernel: &Kernel,
    width: u32,
) -> Result<Priced, AllocError>
    requires kernel { IsWellFormed (tree_of kernel.now) }
    requires callable { AllByRecursion IsCallable (map description_of descriptions.now) }
    ensures plan { IfOk result (λ p. IsPlanBy (map description_of descriptions.now)
        (tree_of kernel.now) width p.plan p.cost p.plain) }
    ensures scalar { IfOk result (λ p. p.scalar ≡ scalar_cost (tree_of kernel.now)) }
{
    let ssa = number_values(alloc, kernel)?;
    let planned = plan_units(alloc, descriptions, &ssa, width)?;
    let Planned {
        chosen,
        cost,
        plain,
    } = planned;
    let ChosenPlan {
        table: _,
        deps: _,
        plan,
    } = chosen;
    Ok(Priced {
        plan,
        cost,
        plain,
        scalar: scalar_cost(kernel),
    })
}

/// The plan of a kernel, with the descriptions by which its packs name the instances that they call.
#[derive(Drop)]
pub struct Chosen {
    /// The packs of the plan, in the order in which it grew, their units numbered as by `number_values`.
    pub plan: Plan,
    /// The instances of the catalogue that packs may call: a pack names one by its index here.
    pub descriptions: Vec<Description>,
    /// What the plan costs.
    pub cost: u64,
    /// What the plain plan costs.
    pub plain: u64,
    /// What the kernel costs with a line for each load, operation and store.
    pub scalar: u32,
}

/// The chosen plan of a kernel, which may call the instructions of a catalogue whose extension is in the
/// set. The search keeps `width` plans of each size, 1 to 4,096 on the command line and any number here; a
/// kernel of more than 256 loads, operations and stores is not searched, and gets the cheaper of the plain
/// and the empty plan.
///
/// It is the plan that `compile` emits, since there is one (`there_is_one_plan`). The descriptions
/// are true of the instances that they are of. Fails for want of memory, also at the bounds of
/// `compile`.
pub fn plan_of(
    alloc: Global,
    catalog: &Catalog,
    allowed: Extensions,
    kernel: &Kernel,
    width: u32,
) -> Result<Chosen, AllocError>
    requires kernel { IsWellFormed (tree_of kernel.now) }
    ensures plan { IfOk result (λ c. IsPlanOf (entries_in catalog.now) (bits_in allowed)
        (tree_of kernel.now) width c.plan c.cost c.plain) }
    ensures descriptions { IfOk result (λ c. map description_of c.descriptions.items
        ≡ descriptions (bits_in allowed) (entries_in catalog.now)) }
    ensures truth { IfOk result (λ c. AreOf (entries_in catalog.now)
        (map description_of c.descriptions.items)) }
    ensures scalar { IfOk result (λ c. c.scalar ≡ scalar_cost (tree_of kernel.now)) }
{
    let descriptions = descriptions_of(alloc, catalog, allowed)?;
    let priced = plan_described(alloc, descriptions.as_slice(), kernel, width)?;
    let Priced {
        plan,
        cost,
        plain,
        scalar,
    } = priced;
    Ok(Chosen {
        plan,
        descriptions,
        cost,
        plain,
        scalar,
    })
}
