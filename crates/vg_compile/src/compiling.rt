//! The program of a kernel.

ghost use Rattle.std.specs.Prelude.{true, false, IfOk, map};
ghost use Rattle.std.specs.List.{AllByRecursion};
ghost use Rattle.vg_catalog.specs.Catalogs.{entries_in};
ghost use Rattle.vg_catalog.specs.Extensions.{bits_in};
ghost use Rattle.vg_compile.specs.Compiled.{IsCompiled};
ghost use Rattle.vg_compile.specs.Described.{IsCompiledBy};
ghost use Rattle.vg_emission.specs.Truth.{IsCallable};
ghost use Rattle.vg_kernel.specs.Tree.{tree_of};
ghost use Rattle.vg_kernel.specs.WellFormed.{IsWellFormed};
ghost use Rattle.vg_shapes.specs.Description.{description_of};

use crate::emitting::{emit_plan, with_scalar};
use crate::more_plans::plan_more;
use crate::units::compile_units;
use std::alloc::{AllocError, Global};
use vg_catalog::{Catalog, Extensions};
use vg_descriptions::descriptions_of;
use vg_kernel::{Kernel, scalar_cost};
use vg_program::Program;
use vg_shapes::Description;
use vg_ssa::number_values;

/// The program of the chosen plan of a kernel, by the descriptions of instances.
fn compile_chosen(
    alloc: Global,
    descriptions: &[Description],
    kernel: &Kernel,
    width: u32,
) -> Result<Program, AllocError>
    requires kernel { IsWellFormed (tree_of kernel.now) }
    requires callable { AllByRecursion IsCallable (map description_of descriptions.now) }
    ensures { IfOk result (IsCompiledBy (map description_of descriptions.now) (tree_of kernel.now)
        width false) }
{
    let ssa = number_values(alloc, kernel)?;
    compile_units(alloc, descriptions, &ssa, width)
}

/// The program of the cheapest plan of a kernel with more plans, by the descriptions of instances.
fn compile_cheapest(
    alloc: Global,
    descriptions: &[Description],
    kernel: &Kernel,
    width: u32,
) -> Result<Program, AllocError>
    requires kernel { IsWellFormed (tree_of kernel.now) }
    requires callable { AllByRecursion IsCallable (map description_of descriptions.now) }
    ensures { IfOk result (IsCompiledBy (map description_of descriptions.now) (tree_of kernel.now)
        width true) }
{
    let planned = plan_more(alloc, descriptions, kernel, width)?;
    let values = &planned.best.values;
    let chosen = &values.planned.chosen;
    let program = emit_plan(
        alloc,
        descriptions,
        &chosen.plan,
        &chosen.table,
        &values.ssa,
        &chosen.deps,
    )?;
    Ok(with_scalar(program, scalar_cost(kernel)))
}

/// What `compile_by` gives of a catalogue and a set of extensions, by their descriptions, as
/// `descriptions_of` gives them: so the entries of a catalogue are described once for many kernels.
///
/// Fails for want of memory, also past 2^24 matches and leaves that they bind, together, or 2^24
/// packs that a search meets.
pub fn compile_described(
    alloc: Global,
    descriptions: &[Description],
    kernel: &Kernel,
    width: u32,
    more: bool,
) -> Result<Program, AllocError>
    requires kernel { IsWellFormed (tree_of kernel.now) }
    requires callable { AllByRecursion IsCallable (map description_of descriptions.now) }
    ensures { IfOk result (IsCompiledBy (map description_of descriptions.now) (tree_of kernel.now)
        width more) }
{
    if more {
        compile_cheapest(alloc, descriptions, kernel, width)
    } else {
        compile_chosen(alloc, descriptions, kernel, width)
    }
}

/// The program of a kernel, which may call the instructions of a catalogue whose extension is in the set.
///
/// It leaves the memory that the kernel leaves and traps where the kernel traps, in each layout that
/// respects noalias, each call giving what the text of its entry means. It states the kernel's
/// scalar cost, costs at most that and at most what the plain plan costs, and is the program of the
/// chosen plan, which `explain` tells of, in its one order, where the search keeps `width` plans of
/// each size: 1 to 4,096 on the command line, any number here. So it is the same program for the
/// same catalogue, set, kernel and width.
///
/// Fails for want of memory, also at the bounds of the code (docs/limits.md): those of `descriptions_of`, and
/// past 2^24 matches and leaves that they bind, together, or 2^24 packs that the search meets.
pub fn compile(
    alloc: Global,
    catalog: &Catalog,
    allowed: Extensions,
    kernel: &Kernel,
    width: u32,
) -> Result<Program, AllocError>
    requires kernel { IsWellFormed (tree_of kernel.now) }
    ensures { IfOk result
        (IsCompiled (entries_in catalog.now) (bits_in allowed) (tree_of kernel.now) width false) }
{
    compile_by(alloc, catalog, allowed, kernel, width, false)
}

/// The same with more plans: the program of the first of the least cost of the plan that `compile`
/// chooses, the wide plan that it would choose if lanes fitted cut terms too, as they are or turned,
/// and the fed plan that it would then choose of aligned store groups if load groups could feed
/// operands; and of these three over the units of the kernel repeated, narrowed, and both, each list
/// where it has at most 8,192 loads and operations. Each search keeps `width` plans of each size. So
/// the program costs at most what `compile` gives for the same.
///
/// Fails for want of memory, also at the bounds of `compile`.
pub fn compile_more(
    alloc: Global,
    catalog: &Catalog,
    allowed: Extensions,
    kernel: &Kernel,
    width: u32,
) -> Result<Program, AllocError>
    requires kernel { IsWellFormed (tree_of kernel.now) }
    ensures { IfOk result
        (IsCompiled (entries_in catalog.now) (bits_in allowed) (tree_of kernel.now) width true) }
{
    compile_by(alloc, catalog, allowed, kernel, width, true)
}

/// What `compile_more` gives where more plans are asked for, else what `compile` gives.
pub fn compile_by(
    alloc: Global,
    catalog: &Catalog,
    allowed: Extensions,
    kernel: &Kernel,
    width: u32,
    more: bool,
) -> Result<Program, AllocError>
    requires kernel { IsWellFormed (tree_of kernel.now) }
    ensures { IfOk result
        (IsCompiled (entries_in catalog.now) (bits_in allowed) (tree_of kernel.now) width more) }
{
    let descriptions = descriptions_of(alloc, catalog, allowed)?;
    compile_described(alloc, descriptions.as_slice(), kernel, width, more)
}
