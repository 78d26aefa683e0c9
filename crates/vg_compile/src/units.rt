//! The program of numbered values.

ghost use Rattle.std.specs.Prelude.{IfOk, map};
ghost use Rattle.std.specs.List.{AllByRecursion};
ghost use Rattle.vg_compile.specs.Emitted.{IsProgramFor};
ghost use Rattle.vg_emission.specs.Truth.{IsCallable};
ghost use Rattle.vg_shapes.specs.Description.{description_of};
ghost use Rattle.vg_shapes.specs.Sound.{IsSound};

use crate::choosing::choose_plan;
use crate::emitting::emit_plan;
use std::alloc::{AllocError, Global};
use vg_program::Program;
use vg_shapes::{Description, Ssa};

/// A program for numbered values by the descriptions of instances that it may call: that of the
/// chosen plan, where the search keeps `width` plans of each size, any number. Where the
/// descriptions are true it leaves the memory that the units leave, or traps where they do; it
/// costs at most a line for each unit.
///
/// Fails for want of memory, also past 2^24 descriptions, past 2^24 matches and leaves that they
/// bind, together, or past 2^24 packs that the search meets.
pub fn compile_units(
    alloc: Global,
    descriptions: &[Description],
    ssa: &Ssa,
    width: u32,
) -> Result<Program, AllocError>
    requires sound { IsSound ssa.now }
    requires callable { AllByRecursion IsCallable (map description_of descriptions.now) }
    ensures { IfOk result (IsProgramFor (map description_of descriptions.now) ssa.now width) }
{
    let chosen = choose_plan(alloc, descriptions, ssa, width)?;
    emit_plan(
        alloc,
        descriptions,
        &chosen.plan,
        &chosen.table,
        ssa,
        &chosen.deps,
    )
}
