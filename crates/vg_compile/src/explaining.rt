//! What is told of the plan of a kernel.

ghost use Rattle.std.specs.Prelude.{◌≡◌, ◌++◌, true, false, IfOk, OnOk, map};
ghost use Rattle.std.specs.List.{AllByRecursion};
ghost use Rattle.vg_catalog.specs.Catalogs.{entries_in};
ghost use Rattle.vg_catalog.specs.Extensions.{bits_in};
ghost use Rattle.vg_compile.specs.Described.{IsExplainedBy};
ghost use Rattle.vg_compile.specs.Means.{param_of};
ghost use Rattle.vg_compile.specs.Planned.{IsExplained, costs_told, rewriting_line};
ghost use Rattle.vg_emission.specs.Truth.{IsCallable};
ghost use Rattle.vg_kernel.specs.Tree.{tree_of};
ghost use Rattle.vg_kernel.specs.WellFormed.{IsWellFormed};
ghost use Rattle.vg_plan_text.specs.PlanText.{plan_text};
ghost use Rattle.vg_shapes.specs.Description.{description_of};

use crate::more_plans::plan_more;
use crate::params::params_of;
use crate::planning::{Planned, plan_units};
use crate::rewriting::Rewriting;
use std::alloc::{AllocError, Global};
use vg_catalog::{Catalog, Extensions};
use vg_descriptions::descriptions_of;
use vg_kernel::{Kernel, scalar_cost};
use vg_plan_text::{Costs, print_plan};
use vg_shapes::{Description, Ssa};
use vg_ssa::number_values;

/// The lines on a plan of a kernel: its packs, and what it, the plain plan and the kernel cost.
fn lines_on(
    alloc: Global,
    kernel: &Kernel,
    descriptions: &[Description],
    ssa: &Ssa,
    planned: &Planned,
    plain: u64,
) -> Result<Vec<u8>, AllocError>
    requires { IsWellFormed (tree_of kernel.now) }
    ensures { IfOk result (λ text. text.items ≡ plan_text (map param_of (tree_of kernel.now).params)
        (map description_of descriptions.now) ssa.now planned.now.chosen.plan
        (costs_told (tree_of kernel.now) planned.now.cost plain)) }
{
    let params = params_of(alloc, kernel.params.as_slice())?;
    let costs = Costs {
        plan: planned.cost,
        plain,
        scalar: u64::from(scalar_cost(kernel)),
    };
    print_plan(
        alloc,
        params.as_slice(),
        descriptions,
        ssa,
        &planned.chosen.plan,
        costs,
    )
}

/// The lines on the chosen plan of a kernel, by the descriptions of instances.
fn explain_chosen(
    alloc: Global,
    descriptions: &[Description],
    kernel: &Kernel,
    width: u32,
) -> Result<Vec<u8>, AllocError>
    requires kernel { IsWellFormed (tree_of kernel.now) }
    requires callable { AllByRecursion IsCallable (map description_of descriptions.now) }
    ensures { IfOk result (λ text. IsExplainedBy (map description_of descriptions.now)
        (tree_of kernel.now) width false text.items) }
{
    let ssa = number_values(alloc, kernel)?;
    let planned = plan_units(alloc, descriptions, &ssa, width)?;
    lines_on(alloc, kernel, descriptions, &ssa, &planned, planned.plain)
}

/// Appends the line on the units that a plan is over.
fn put_rewriting(to: &mut Vec<u8>, rewriting: Rewriting) -> Result<(), AllocError>
    ensures { OnOk result (to.new.items ≡ to.old.items ++ rewriting_line rewriting) }
{
    match rewriting {
        Rewriting::Own => Ok(()),
        Rewriting::Repeated => to.extend_from_slice(b"rewritten repeated\n"),
        Rewriting::Narrowed => to.extend_from_slice(b"rewritten narrowed\n"),
        Rewriting::NarrowedRepeated => to.extend_from_slice(b"rewritten narrowed repeated\n"),
    }
}

/// The lines on the cheapest plan of a kernel with more plans, by the descriptions of instances.
fn explain_cheapest(
    alloc: Global,
    descriptions: &[Description],
    kernel: &Kernel,
    width: u32,
) -> Result<Vec<u8>, AllocError>
    requires kernel { IsWellFormed (tree_of kernel.now) }
    requires callable { AllByRecursion IsCallable (map description_of descriptions.now) }
    ensures { IfOk result (λ text. IsExplainedBy (map description_of descriptions.now)
        (tree_of kernel.now) width true text.items) }
{
    let more = plan_more(alloc, descriptions, kernel, width)?;
    let values = &more.best.values;
    let lines = lines_on(
        alloc,
        kernel,
        descriptions,
        &values.ssa,
        &values.planned,
        more.plain,
    )?;
    let mut text = Vec::new(alloc);
    put_rewriting(&mut text, more.best.rewriting)?;
    text.extend_from_slice(lines.as_slice())?;
    Ok(text)
}

/// What `explain_by` gives of a catalogue and a set of extensions, by their descriptions, as
/// `descriptions_of` gives them. Fails for want of memory, also at the bounds of
/// `compile_described`.
pub fn explain_described(
    alloc: Global,
    descriptions: &[Description],
    kernel: &Kernel,
    width: u32,
    more: bool,
) -> Result<Vec<u8>, AllocError>
    requires kernel { IsWellFormed (tree_of kernel.now) }
    requires callable { AllByRecursion IsCallable (map description_of descriptions.now) }
    ensures { IfOk result (λ text. IsExplainedBy (map description_of descriptions.now)
        (tree_of kernel.now) width more text.items) }
{
    if more {
        explain_cheapest(alloc, descriptions, kernel, width)
    } else {
        explain_chosen(alloc, descriptions, kernel, width)
    }
}

/// The lines on the chosen plan of a kernel, where the search keeps `width` plans of each size, as for
/// `compile`: a line for each pack, in the order of the plan, and one on what the plan, the plain plan and the
/// kernel cost. It is the plan that `compile` emits. Fails for want of memory, also at the bounds of
/// `compile`.
pub fn explain(
    alloc: Global,
    catalog: &Catalog,
    allowed: Extensions,
    kernel: &Kernel,
    width: u32,
) -> Result<Vec<u8>, AllocError>
    requires kernel { IsWellFormed (tree_of kernel.now) }
    ensures { IfOk result (λ text. IsExplained (entries_in catalog.now) (bits_in allowed)
        (tree_of kernel.now) width false text.items) }
{
    explain_by(alloc, catalog, allowed, kernel, width, false)
}

/// The lines on the plan of a kernel that `compile_more` emits: first, where it is not over the kernel's
/// own units, over which. The cost of the plain plan, over the kernel's own units and with lanes that
/// fit whole alone, is that which `explain` tells. Fails for want of memory, also at
/// the bounds of `compile`.
pub fn explain_more(
    alloc: Global,
    catalog: &Catalog,
    allowed: Extensions,
    kernel: &Kernel,
    width: u32,
) -> Result<Vec<u8>, AllocError>
    requires kernel { IsWellFormed (tree_of kernel.now) }
    ensures { IfOk result (λ text. IsExplained (entries_in catalog.now) (bits_in allowed)
        (tree_of kernel.now) width true text.items) }
{
    explain_by(alloc, catalog, allowed, kernel, width, true)
}

/// What `explain_more` gives where more plans are asked for, else what `explain` gives.
pub fn explain_by(
    alloc: Global,
    catalog: &Catalog,
    allowed: Extensions,
    kernel: &Kernel,
    width: u32,
    more: bool,
) -> Result<Vec<u8>, AllocError>
    requires kernel { IsWellFormed (tree_of kernel.now) }
    ensures { IfOk result (λ text. IsExplained (entries_in catalog.now) (bits_in allowed)
        (tree_of kernel.now) width more text.items) }
{
    let descriptions = descriptions_of(alloc, catalog, allowed)?;
    explain_described(alloc, descriptions.as_slice(), kernel, width, more)
}
