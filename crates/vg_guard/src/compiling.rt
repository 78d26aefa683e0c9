//! The guarded program of a kernel.

ghost use Rattle.std.specs.Prelude.{false, true, IfOk, map};
ghost use Rattle.std.specs.List.{AllByRecursion};
ghost use Rattle.vg_catalog.specs.Catalogs.{entries_in};
ghost use Rattle.vg_catalog.specs.Extensions.{bits_in};
ghost use Rattle.vg_emission.specs.Truth.{IsCallable};
ghost use Rattle.vg_guard.specs.Compiled.{IsCompiledGuarded, IsGuardedBy};
ghost use Rattle.vg_kernel.specs.Tree.{tree_of};
ghost use Rattle.vg_kernel.specs.WellFormed.{IsWellFormed};
ghost use Rattle.vg_shapes.specs.Description.{description_of};

use crate::guarded::Guarded;
use crate::kernel_checks::checks_of;
use crate::noalias::all_noalias;
use std::alloc::{AllocError, Global};
use vg_base::Items;
use vg_catalog::{Catalog, Extensions};
use vg_compile::compile_described;
use vg_descriptions::descriptions_of;
use vg_kernel::Kernel;
use vg_shapes::Description;

/// What `compile_guarded` gives of a catalogue and a set of extensions, by their descriptions, as
/// `descriptions_of` gives them. Fails for want of memory, also at the bounds of
/// `compile_described`.
pub fn compile_guarded_described(
    alloc: Global,
    descriptions: &[Description],
    kernel: &Kernel,
    width: u32,
    more: bool,
) -> Result<Guarded, AllocError>
    requires kernel { IsWellFormed (tree_of kernel.now) }
    requires callable { AllByRecursion IsCallable (map description_of descriptions.now) }
    ensures { IfOk result (IsGuardedBy (map description_of descriptions.now) (tree_of kernel.now)
        width more) }
{
    let checks = checks_of(alloc, kernel)?;
    let noalias = all_noalias(alloc, kernel)?;
    let fast = compile_described(alloc, descriptions, &noalias, width, more)?;
    let slow = compile_described(alloc, descriptions, kernel, width, more)?;
    Ok(Guarded {
        checks: Items::from_vec(checks),
        fast,
        slow,
    })
}

// The guarded program of a kernel, with more plans or without.
fn compile_by(
    alloc: Global,
    catalog: &Catalog,
    allowed: Extensions,
    kernel: &Kernel,
    width: u32,
    more: bool,
) -> Result<Guarded, AllocError>
    requires kernel { IsWellFormed (tree_of kernel.now) }
    ensures { IfOk result
        (IsCompiledGuarded (entries_in catalog.now) (bits_in allowed) (tree_of kernel.now) width
        more) }
{
    let descriptions = descriptions_of(alloc, catalog, allowed)?;
    compile_guarded_described(alloc, descriptions.as_slice(), kernel, width, more)
}

/// The guarded program of a kernel: its checks, a program that has what `compile` promises for it
/// with every pointer noalias, and one that has what it promises for the kernel as it is; they may
/// call the instructions of a catalogue whose extension is in the set.
///
/// It leaves the memory that the kernel leaves and traps where the kernel traps, in each layout
/// that respects the kernel's own noalias, each call giving what the text of its entry means. Each
/// side costs at most the kernel's scalar cost, and is the program of the plan that is chosen of
/// its kernel, where the search keeps `width` plans of each size: 1 to 4,096 on the command line,
/// any number here.
///
/// Fails for want of memory, also at the bounds of `compile`.
pub fn compile_guarded(
    alloc: Global,
    catalog: &Catalog,
    allowed: Extensions,
    kernel: &Kernel,
    width: u32,
) -> Result<Guarded, AllocError>
    requires kernel { IsWellFormed (tree_of kernel.now) }
    ensures { IfOk result
        (IsCompiledGuarded (entries_in catalog.now) (bits_in allowed) (tree_of kernel.now) width
        false) }
{
    compile_by(alloc, catalog, allowed, kernel, width, false)
}

/// The same with more plans: each side has what `compile_more` promises. Fails as `compile_guarded`
/// does.
pub fn compile_guarded_more(
    alloc: Global,
    catalog: &Catalog,
    allowed: Extensions,
    kernel: &Kernel,
    width: u32,
) -> Result<Guarded, AllocError>
    requires kernel { IsWellFormed (tree_of kernel.now) }
    ensures { IfOk result
        (IsCompiledGuarded (entries_in catalog.now) (bits_in allowed) (tree_of kernel.now) width
        true) }
{
    compile_by(alloc, catalog, allowed, kernel, width, true)
}
