//! The guarded loop of a loop.

ghost use Rattle.std.specs.Prelude.{◌≤◌, length, IfOk, OnOk, map};
ghost use Rattle.std.specs.List.{AllByRecursion};
ghost use Rattle.vg_catalog.specs.Catalogs.{entries_in};
ghost use Rattle.vg_catalog.specs.Extensions.{bits_in};
ghost use Rattle.vg_emission.specs.Truth.{IsCallable};
ghost use Rattle.vg_guarded_loop.specs.GuardedLoop.{guarded_loop_text};
ghost use Rattle.vg_loop_guard.specs.CompiledGuardedLoop.{IsCompiledGuardedLoop, IsGuardedLoopBy};
ghost use Rattle.vg_loops.specs.Formed.{IsLoop};
ghost use Rattle.vg_loops.specs.View.{loop_of};
ghost use Rattle.vg_shapes.specs.Description.{description_of};

use std::alloc::{AllocError, Global};
use vg_base::Items;
use vg_catalog::{Catalog, Extensions};
use vg_compile::compile_described;
use vg_descriptions::descriptions_of;
use vg_guard::compile_guarded_described;
use vg_guarded_loop::{GuardedLoop, print_guarded_loop};
use vg_loops::{Loop, turns_of, unroll};
use vg_program::MOST_BYTES;
use vg_shapes::Description;

/// Fails where the text of a guarded loop has more than 4 MiB, and for want of memory.
fn check_size(alloc: Global, compiled: &GuardedLoop) -> Result<(), AllocError>
    requires { length compiled.now.steps ≤ 16 }
    ensures { OnOk result (length (guarded_loop_text compiled.now) ≤ 4194304) }
{
    let text = print_guarded_loop(alloc, compiled)?;
    if text.len() > MOST_BYTES {
        return Err(AllocError);
    }
    Ok(())
}

/// What `compile_guarded_loop` gives of a catalogue and a set of extensions, by their descriptions,
/// as `descriptions_of` gives them. Fails for want of memory, also at the bounds of
/// `compile_described`, and where the text would have more than 4 MiB.
pub fn compile_guarded_loop_described(
    alloc: Global,
    descriptions: &[Description],
    source: &Loop,
    width: u32,
    more: bool,
) -> Result<GuardedLoop, AllocError>
    requires source { IsLoop (loop_of source.now) }
    requires callable { AllByRecursion IsCallable (map description_of descriptions.now) }
    ensures { IfOk result (IsGuardedLoopBy (map description_of descriptions.now)
        (loop_of source.now) width more) }
{
    let turns = turns_of(source);
    let kernel = unroll(alloc, source, turns)?;
    let block = compile_guarded_described(alloc, descriptions, &kernel, width, more)?;
    let rest = compile_described(alloc, descriptions, &source.kernel, width, more)?;
    let steps = Vec::from_slice(alloc, source.steps.as_slice())?;
    let compiled = GuardedLoop {
        block,
        rest,
        times: source.times,
        steps: Items::from_vec(steps),
        turns,
    };
    check_size(alloc, &compiled)?;
    Ok(compiled)
}

/// The guarded loop of a loop, whose programs may call the instructions of a catalogue whose
/// extension is in the set: as a block the guarded program of the kernel of as many turns as one
/// kernel may have, and a rest of one turn. The checks are those of that kernel, so they are made
/// anew for each block, at the places that the pointers have reached.
///
/// It leaves the memory that the loop leaves and traps where a turn of the loop traps, in each layout
/// in which the accesses of all turns respect the kernel's own noalias and each pointer stays below
/// 2^64 after all turns. The block has what `compile_guarded` promises of the kernel of so many
/// turns, and the rest what `compile` promises of the kernel of one, or with `more` what
/// `compile_more` promises.
///
/// Fails for want of memory, also at the bounds of `compile`, and where the text would have more
/// than 4 MiB.
pub fn compile_guarded_loop(
    alloc: Global,
    catalog: &Catalog,
    allowed: Extensions,
    source: &Loop,
    width: u32,
    more: bool,
) -> Result<GuardedLoop, AllocError>
    requires source { IsLoop (loop_of source.now) }
    ensures { IfOk result (IsCompiledGuardedLoop (entries_in catalog.now) (bits_in allowed)
        (loop_of source.now) width more) }
{
    let descriptions = descriptions_of(alloc, catalog, allowed)?;
    compile_guarded_loop_described(alloc, descriptions.as_slice(), source, width, more)
}
