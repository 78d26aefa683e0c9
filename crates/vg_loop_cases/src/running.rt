//! Loops and looped texts that are run.

ghost use Rattle.std.specs.Prelude.{IfOk, map};
ghost use Rattle.vg_catalog.specs.Called.{headers_of};
ghost use Rattle.vg_catalog.specs.Entries.{entry_of};
ghost use Rattle.vg_catalog.specs.Written.{AllWritten};
ghost use Rattle.vg_looped.specs.Looped.{IsLooped};
ghost use Rattle.vg_loops.specs.Formed.{IsLoop};
ghost use Rattle.vg_loops.specs.View.{loop_of};

use std::alloc::Global;
use std::test::Fail;
use vg_kernel::Kernel;
use vg_keval::{KState, run_kernel};
use vg_looped::{Looped, print_looped};
use vg_loops::{Loop, Outcome, parse_loop, run_loop, run_looped, stay_near, turns_asked};
use vg_machine::Machine;
use vg_range::Checked;

/// The loop of a text.
pub fn read(alloc: Global, text: &str) -> Result<Loop, Fail>
    ensures { IfOk result (λ l. IsLoop (loop_of l)) }
{
    match parse_loop(alloc, text.as_bytes()) {
        Ok(source) => Ok(source),
        Err(_) => Err("a loop is refused".into()),
    }
}

/// What pointers and integers are.
#[derive(Clone, Copy)]
pub struct Inputs<'a> {
    pub places: &'a [u64],
    pub args: &'a [u64],
}

/// Whether two runs leave the same, or both trap.
pub fn are_same(one: &Option<Vec<u8>>, other: &Option<Vec<u8>>) -> bool {
    match (one, other) {
        (Some(one), Some(other)) => one.as_slice() == other.as_slice(),
        (None, None) => true,
        _ => false,
    }
}

/// What a loop leaves of a memory. None where it traps.
pub fn left_by_loop(
    alloc: Global,
    source: &Loop,
    inputs: Inputs<'_>,
    memory: &[u8],
) -> Result<Option<Vec<u8>>, Fail> {
    let Inputs { places, args } = inputs;
    let steps = source.steps.as_slice();
    let turns = turns_asked(source.times, args);
    if places.len() > 16 || !stay_near(steps, turns, places) {
        return Err("places that no loop may have".into());
    }
    let mut state = KState::new(alloc, &source.kernel)?;
    let mut memory = memory.to_vec(alloc)?;
    match run_loop(source, &mut state, memory.as_mut_slice(), places, args) {
        Outcome::Done => Ok(Some(memory)),
        Outcome::Trap => Ok(None),
    }
}

/// What a looped text leaves of a memory. None where it traps.
pub fn left_by_looped(
    alloc: Global,
    entries: &[Checked],
    looped: &Looped,
    inputs: Inputs<'_>,
    memory: &[u8],
) -> Result<Option<Vec<u8>>, Fail>
    requires written { AllWritten (map entry_of entries.now) }
    requires rules { IsLooped (headers_of (map entry_of entries.now)) looped.now }
{
    let Inputs { places, args } = inputs;
    let steps = looped.steps.as_slice();
    let turns = turns_asked(looped.times, args);
    if places.len() > 16 || !stay_near(steps, turns, places) {
        return Err("places that no looped text may have".into());
    }
    let mut block = Machine::new(alloc, entries, &looped.block)?;
    let mut rest = Machine::new(alloc, entries, &looped.rest)?;
    let mut memory = memory.to_vec(alloc)?;
    match run_looped(
        looped,
        &mut block,
        &mut rest,
        memory.as_mut_slice(),
        places,
        args,
    ) {
        Outcome::Done => Ok(Some(memory)),
        Outcome::Trap => Ok(None),
    }
}

/// What the kernel of a block leaves of a memory. None where it traps.
pub fn left_by_kernel(
    alloc: Global,
    kernel: &Kernel,
    inputs: Inputs<'_>,
    memory: &[u8],
) -> Result<Option<Vec<u8>>, Fail> {
    let Inputs { places, args } = inputs;
    let mut state = KState::new(alloc, kernel)?;
    let mut memory = memory.to_vec(alloc)?;
    match run_kernel(kernel, &mut state, memory.as_mut_slice(), places, args) {
        Outcome::Done => Ok(Some(memory)),
        Outcome::Trap => Ok(None),
    }
}

/// The text of a looped text.
pub fn printed(alloc: Global, looped: &Looped) -> Result<Vec<u8>, Fail> {
    if looped.steps.as_slice().len() > 16 {
        return Err("a looped text has too many pointers".into());
    }
    Ok(print_looped(alloc, looped)?)
}
