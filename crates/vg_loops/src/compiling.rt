//! The looped text of a loop.

ghost use Rattle.std.specs.Prelude.{false, true, IfOk, map};
ghost use Rattle.std.specs.List.{AllByRecursion};
ghost use Rattle.vg_catalog.specs.Catalogs.{entries_in};
ghost use Rattle.vg_catalog.specs.Extensions.{bits_in};
ghost use Rattle.vg_emission.specs.Truth.{IsCallable};
ghost use Rattle.vg_loops.specs.CompiledLoop.{IsCompiledLoop, IsLoopBy};
ghost use Rattle.vg_loops.specs.Formed.{IsLoop};
ghost use Rattle.vg_loops.specs.View.{loop_of};
ghost use Rattle.vg_shapes.specs.Description.{description_of};

use crate::counted::Loop;
use crate::limits::turns_of;
use crate::unrolling::unroll;
use std::alloc::{AllocError, Global};
use vg_base::Items;
use vg_catalog::{Catalog, Extensions};
use vg_compile::compile_described;
use vg_descriptions::descriptions_of;
use vg_looped::Looped;
use vg_shapes::Description;

/// What `compile_loop` gives of a catalogue and a set of extensions, by their descriptions, as
/// `descriptions_of` gives them. Fails for want of memory, also at the bounds of
/// `compile_described`.
pub fn compile_loop_described(
    alloc: Global,
    descriptions: &[Description],
    source: &Loop,
    width: u32,
    more: bool,
) -> Result<Looped, AllocError>
    requires source { IsLoop (loop_of source.now) }
    requires callable { AllByRecursion IsCallable (map description_of descriptions.now) }
    ensures { IfOk result (IsLoopBy (map description_of descriptions.now) (loop_of source.now)
        width more) }
{
    let turns = turns_of(source);
    let kernel = unroll(alloc, source, turns)?;
    let block = compile_described(alloc, descriptions, &kernel, width, more)?;
    let rest = compile_described(alloc, descriptions, &source.kernel, width, more)?;
    let steps = Vec::from_slice(alloc, source.steps.as_slice())?;
    Ok(Looped {
        block,
        rest,
        times: source.times,
        steps: Items::from_vec(steps),
        turns,
    })
}

// The looped text of a loop, with more plans or without.
fn compile_by(
    alloc: Global,
    catalog: &Catalog,
    allowed: Extensions,
    source: &Loop,
    width: u32,
    more: bool,
) -> Result<Looped, AllocError>
    requires source { IsLoop (loop_of source.now) }
    ensures { IfOk result (IsCompiledLoop (entries_in catalog.now) (bits_in allowed) (loop_of
        source.now) width more) }
{
    let descriptions = descriptions_of(alloc, catalog, allowed)?;
    compile_loop_described(alloc, descriptions.as_slice(), source, width, more)
}

/// The looped text of a loop, whose programs may call the instructions of a catalogue whose
/// extension is in the set: a block of as many turns as one kernel may have, and a rest of one turn.
///
/// It leaves the memory that the loop leaves and traps where a turn of the loop traps, in each layout
/// in which the accesses of all turns respect noalias and each pointer stays below 2^64 after all
/// turns. Each of its programs has what `compile` promises of the program of its kernel.
///
/// Fails for want of memory, also at the bounds of `compile`.
pub fn compile_loop(
    alloc: Global,
    catalog: &Catalog,
    allowed: Extensions,
    source: &Loop,
    width: u32,
) -> Result<Looped, AllocError>
    requires source { IsLoop (loop_of source.now) }
    ensures { IfOk result (IsCompiledLoop (entries_in catalog.now) (bits_in allowed) (loop_of
        source.now) width false) }
{
    compile_by(alloc, catalog, allowed, source, width, false)
}

/// The same with more plans: each of its programs has what `compile_more` promises. Fails as
/// `compile_loop` does.
pub fn compile_loop_more(
    alloc: Global,
    catalog: &Catalog,
    allowed: Extensions,
    source: &Loop,
    width: u32,
) -> Result<Looped, AllocError>
    requires source { IsLoop (loop_of source.now) }
    ensures { IfOk result (IsCompiledLoop (entries_in catalog.now) (bits_in allowed) (loop_of
        source.now) width true) }
{
    compile_by(alloc, catalog, allowed, source, width, true)
}
