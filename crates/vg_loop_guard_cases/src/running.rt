//! Loops and guarded loops that are run.

ghost use Rattle.std.specs.Prelude.{IfOk, map};
ghost use Rattle.vg_catalog.specs.Called.{headers_of};
ghost use Rattle.vg_catalog.specs.Entries.{entry_of};
ghost use Rattle.vg_catalog.specs.Written.{AllWritten};
ghost use Rattle.vg_guarded_loop.specs.GuardedLoop.{IsGuardedLoop};
ghost use Rattle.vg_loops.specs.Formed.{IsLoop};
ghost use Rattle.vg_loops.specs.View.{loop_of};

use std::alloc::Global;
use std::test::Fail;
use vg_guarded_loop::{GuardedLoop, print_guarded_loop};
use vg_keval::KState;
use vg_loop_guard::{Outcome, run_guarded_loop};
use vg_loops::{Loop, parse_loop, run_loop, stay_near, turns_asked};
use vg_machine::Machine;
use vg_range::Checked;

/// The loop of a text.
pub fn read(alloc: Global, text: &str) -> Result<Loop, Fail>
    ensures { IfOk result (λ l. IsLoop (loop_of l)) }
{
    match parse_loop(alloc, text.as_bytes()) {
        Ok(source) => Ok(source),
        Err(_) => Err("a loop is refused".into()),
    }
}

/// What pointers and integers are.
#[derive(Clone, Copy)]
pub struct Inputs<'a> {
    pub places: &'a [u64],
    pub args: &'a [u64],
}

/// Whether two runs leave the same, or both trap.
pub fn are_same(one: &Option<Vec<u8>>, other: &Option<Vec<u8>>) -> bool {
    match (one, other) {
        (Some(one), Some(other)) => one.as_slice() == other.as_slice(),
        (None, None) => true,
        _ => false,
    }
}

/// What a loop leaves of a memory. None where it traps.
pub fn left_by_loop(
    alloc: Global,
    source: &Loop,
    inputs: Inputs<'_>,
    memory: &[u8],
) -> Result<Option<Vec<u8>>, Fail> {
    let Inputs { places, args } = inputs;
    let turns = turns_asked(source.times, args);
    if places.len() > 16 || !stay_near(source.steps.as_slice(), turns, places) {
        return Err("places that no loop may have".into());
    }
    let mut state = KState::new(alloc, &source.kernel)?;
    let mut memory = memory.to_vec(alloc)?;
    match run_loop(source, &mut state, memory.as_mut_slice(), places, args) {
        Outcome::Done => Ok(Some(memory)),
        Outcome::Trap => Ok(None),
    }
}

/// What a guarded loop leaves of a memory. None where it traps.
pub fn left_by_guarded(
    alloc: Global,
    entries: &[Checked],
    guarded: &GuardedLoop,
    inputs: Inputs<'_>,
    memory: &[u8],
) -> Result<Option<Vec<u8>>, Fail>
    requires written { AllWritten (map entry_of entries.now) }
    requires rules { IsGuardedLoop (headers_of (map entry_of entries.now)) guarded.now }
{
    let Inputs { places, args } = inputs;
    let turns = turns_asked(guarded.times, args);
    if places.len() > 16 || !stay_near(guarded.steps.as_slice(), turns, places) {
        return Err("places that no guarded loop may have".into());
    }
    let mut fast = Machine::new(alloc, entries, &guarded.block.fast)?;
    let mut slow = Machine::new(alloc, entries, &guarded.block.slow)?;
    let mut rest = Machine::new(alloc, entries, &guarded.rest)?;
    let mut memory = memory.to_vec(alloc)?;
    match run_guarded_loop(
        guarded,
        &mut fast,
        &mut slow,
        &mut rest,
        memory.as_mut_slice(),
        places,
        args,
    ) {
        Outcome::Done => Ok(Some(memory)),
        Outcome::Trap => Ok(None),
    }
}

/// The text of a guarded loop.
pub fn printed(alloc: Global, guarded: &GuardedLoop) -> Result<Vec<u8>, Fail> {
    if guarded.steps.as_slice().len() > 16 {
        return Err("a guarded loop has too many pointers".into());
    }
    Ok(print_guarded_loop(alloc, guarded)?)
}
