//! The plan that is chosen of a kernel with more plans: over each list of its units the cheapest of the
//! chosen plan, the chosen wide plan and the chosen fed plan, and of these the cheapest.

ghost use Rattle.std.specs.Prelude.{◌≡◌, ◌&&◌, IfOk, Option, map, nat_le, nat_lt, if◌then◌else◌};
ghost use Rattle.std.specs.List.{AllByRecursion};
ghost use Rattle.vg_compile.specs.Chosen.{IsChosenFedPlan, IsTableOf, cost_of};
ghost use Rattle.vg_compile.specs.Listed.{IsBetter, IsPlannedList};
ghost use Rattle.vg_compile.specs.Planned.{IsPlanned, IsPlannedMore, with_plan};
ghost use Rattle.vg_emission.specs.Truth.{IsCallable};
ghost use Rattle.vg_kernel.specs.Tree.{tree_of};
ghost use Rattle.vg_kernel.specs.WellFormed.{IsWellFormed};
ghost use Rattle.vg_rewrite.specs.Rewritten.{IsSoundIfSome};
ghost use Rattle.vg_shapes.specs.Depends.{dependences};
ghost use Rattle.vg_shapes.specs.Description.{description_of};
ghost use Rattle.vg_shapes.specs.Sound.{IsSound};

use crate::choosing::ChosenPlan;
use crate::lists::{Lists, lists_of};
use crate::planning::{Planned, plan_units};
use crate::rewriting::Rewriting;
use crate::uncut::uncut;
use std::alloc::{AllocError, Global};
use vg_beam::choose_fed;
use vg_cost::plan_cost;
use vg_kernel::Kernel;
use vg_shapes::{Description, Plan, Ssa};

/// A chosen plan with the values that it is of, and what is told of it.
#[derive(Drop)]
pub(crate) struct PlannedValues {
    pub(crate) ssa: Ssa,
    pub(crate) planned: Planned,
}

/// The plan that is chosen over one list of units, and what the plain plan costs, over values which
/// lanes fit whole alone.
#[derive(Drop)]
pub(crate) struct PlannedList {
    pub(crate) values: PlannedValues,
    pub(crate) plain: u64,
}

/// The best of the plans over several lists of units, and over which.
#[derive(Drop)]
pub(crate) struct BestPlan {
    pub(crate) rewriting: Rewriting,
    pub(crate) values: PlannedValues,
}

/// The plan that is chosen of a kernel with more plans, and what the plain plan costs, over a kernel's
/// own units.
#[derive(Drop)]
pub(crate) struct PlannedMore {
    pub(crate) best: BestPlan,
    pub(crate) plain: u64,
}

/// A plan and what it costs.
#[derive(Drop)]
pub(crate) struct FedPlan {
    pub(crate) plan: Plan,
    pub(crate) cost: u64,
}

/// The chosen plan of numbered values, with them.
fn plan_values(
    alloc: Global,
    descriptions: &[Description],
    ssa: Ssa,
    width: u32,
) -> Result<PlannedValues, AllocError>
    requires sound { IsSound ssa }
    requires callable { AllByRecursion IsCallable (map description_of descriptions.now) }
    ensures ssa { IfOk result (λ v. v.ssa ≡ ssa) }
    ensures planned { IfOk result (λ v. IsPlanned (map description_of descriptions.now)
        v.planned.chosen.table ssa width v.planned.chosen.plan v.planned.cost v.planned.plain) }
    ensures deps { IfOk result (λ v. v.planned.chosen.deps ≡ dependences ssa) }
{
    let planned = plan_units(alloc, descriptions, &ssa, width)?;
    Ok(PlannedValues { ssa, planned })
}

/// The chosen fed plan of values, by the matches and the dependences of their chosen plan.
fn plan_fed(
    alloc: Global,
    descriptions: &[Description],
    values: &PlannedValues,
    width: u32,
) -> Result<FedPlan, AllocError>
    requires sound { IsSound values.now.ssa }
    requires callable { AllByRecursion IsCallable (map description_of descriptions.now) }
    requires table { IsTableOf (map description_of descriptions.now) values.now.ssa
        values.now.planned.chosen.table }
    requires deps { values.now.planned.chosen.deps ≡ dependences values.now.ssa }
    ensures chosen { IfOk result (λ f. IsChosenFedPlan (map description_of descriptions.now)
        values.now.planned.chosen.table values.now.ssa width f.plan) }
    ensures cost { IfOk result (λ f. f.cost ≡ cost_of (map description_of descriptions.now)
        values.now.planned.chosen.table values.now.ssa f.plan) }
{
    let ssa = &values.ssa;
    let chosen = &values.planned.chosen;
    let plan = choose_fed(alloc, descriptions, &chosen.table, ssa, &chosen.deps, width)?;
    let cost = plan_cost(alloc, &plan, descriptions, &chosen.table, ssa)?;
    Ok(FedPlan { plan, cost })
}

/// The values with another plan of theirs.
fn with_plan(values: PlannedValues, fed: FedPlan) -> PlannedValues
    ensures { result ≡ with_plan values fed }
{
    let PlannedValues { ssa, planned } = values;
    let Planned {
        chosen,
        cost: _,
        plain,
    } = planned;
    let ChosenPlan {
        table,
        deps,
        plan: _,
    } = chosen;
    let FedPlan { plan, cost } = fed;
    let chosen = ChosenPlan { table, deps, plan };
    let planned = Planned {
        chosen,
        cost,
        plain,
    };
    PlannedValues { ssa, planned }
}

/// The first of the least cost of the chosen plan, the chosen wide plan, and the chosen fed plan of the
/// same values as that.
fn cheapest(whole: PlannedValues, wide: PlannedValues, fed: FedPlan) -> PlannedValues
    ensures { result ≡ (if nat_lt fed.cost whole.planned.cost && nat_lt fed.cost wide.planned.cost
        then with_plan wide fed
        else if nat_le whole.planned.cost wide.planned.cost then whole else wide) }
{
    if fed.cost < whole.planned.cost && fed.cost < wide.planned.cost {
        with_plan(wide, fed)
    } else if whole.planned.cost <= wide.planned.cost {
        whole
    } else {
        wide
    }
}

/// The plan that is chosen over one list of units, whose values with cut terms these are, where each of
/// the three searches keeps `width` plans of each size.
fn plan_list(
    alloc: Global,
    descriptions: &[Description],
    values: Ssa,
    width: u32,
) -> Result<PlannedList, AllocError>
    requires sound { IsSound values }
    requires callable { AllByRecursion IsCallable (map description_of descriptions.now) }
    ensures { IfOk result (λ l. IsPlannedList (map description_of descriptions.now) values width
        l.values l.plain) }
{
    let whole_values = uncut(alloc, &values)?;
    let whole = plan_values(alloc, descriptions, whole_values, width)?;
    let wide = plan_values(alloc, descriptions, values, width)?;
    let fed = plan_fed(alloc, descriptions, &wide, width)?;
    let plain = whole.planned.plain;
    let values = cheapest(whole, wide, fed);
    Ok(PlannedList { values, plain })
}

/// The first where it costs no more, else the second.
fn cheaper(best: BestPlan, other: BestPlan) -> BestPlan
    ensures { result ≡ (if nat_le best.values.planned.cost other.values.planned.cost then best
        else other) }
{
    if best.values.planned.cost <= other.values.planned.cost {
        best
    } else {
        other
    }
}

/// The best plan so far, or that over another list where it costs less.
fn or_list(
    alloc: Global,
    descriptions: &[Description],
    best: BestPlan,
    rewriting: Rewriting,
    values: Ssa,
    width: u32,
) -> Result<BestPlan, AllocError>
    requires sound { IsSound values }
    requires callable { AllByRecursion IsCallable (map description_of descriptions.now) }
    ensures { IfOk result
        (IsBetter (map description_of descriptions.now) width best rewriting (Option.Some values)) }
{
    let list = plan_list(alloc, descriptions, values, width)?;
    let PlannedList { values, plain: _ } = list;
    let other = BestPlan { rewriting, values };
    Ok(cheaper(best, other))
}

/// The same where there is another list.
fn or_cheaper(
    alloc: Global,
    descriptions: &[Description],
    best: BestPlan,
    rewriting: Rewriting,
    values: Option<Ssa>,
    width: u32,
) -> Result<BestPlan, AllocError>
    requires sound { IsSoundIfSome values }
    requires callable { AllByRecursion IsCallable (map description_of descriptions.now) }
    ensures { IfOk result
        (IsBetter (map description_of descriptions.now) width best rewriting values) }
{
    match values {
        None => Ok(best),
        Some(ssa) => or_list(alloc, descriptions, best, rewriting, ssa, width),
    }
}

/// The plan that is chosen of a kernel with more plans, where each search keeps `width` plans of each
/// size, and what is told of it.
pub(crate) fn plan_more(
    alloc: Global,
    descriptions: &[Description],
    kernel: &Kernel,
    width: u32,
) -> Result<PlannedMore, AllocError>
    requires kernel { IsWellFormed (tree_of kernel.now) }
    requires callable { AllByRecursion IsCallable (map description_of descriptions.now) }
    ensures { IfOk result (λ m. IsPlannedMore (map description_of descriptions.now)
        (tree_of kernel.now) width m.best.rewriting m.best.values m.plain) }
{
    let lists = lists_of(alloc, kernel)?;
    let Lists {
        own,
        repeated,
        narrowed,
        both,
    } = lists;
    let list = plan_list(alloc, descriptions, own, width)?;
    let PlannedList { values, plain } = list;
    let first = BestPlan {
        rewriting: Rewriting::Own,
        values,
    };
    let kind = Rewriting::Repeated;
    let second = or_cheaper(alloc, descriptions, first, kind, repeated, width)?;
    let kind = Rewriting::Narrowed;
    let third = or_cheaper(alloc, descriptions, second, kind, narrowed, width)?;
    let kind = Rewriting::NarrowedRepeated;
    let best = or_cheaper(alloc, descriptions, third, kind, both, width)?;
    Ok(PlannedMore { best, plain })
}
