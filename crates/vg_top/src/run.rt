//! The command `run`.

ghost use Rattle.std.specs.Prelude.{Some, IfSome, IfErr};
ghost use Rattle.vg_catalog.specs.Called.{called_by, headers_of};
ghost use Rattle.vg_catalog.specs.Catalogs.{entries_in};
ghost use Rattle.vg_guard.specs.Guarded.{guarded_meaning, IsGuarded};
ghost use Rattle.vg_guarded_loop.specs.GuardedLoop.{IsGuardedLoop};
ghost use Rattle.vg_loop_guard.specs.Meaning.{guarded_loop_meaning};
ghost use Rattle.vg_looped.specs.Looped.{IsLooped};
ghost use Rattle.vg_loops.specs.Inputs.{looped_meaning};
ghost use Rattle.vg_program.specs.Meaning.{meaning};
ghost use Rattle.vg_program.specs.Valid.{KeepsRules};
ghost use Rattle.vg_request.specs.Binding.{bindings_in};
ghost use Rattle.vg_request.specs.Request.{run as run_asked};
ghost use Rattle.vg_top.specs.Files.{Tells};
ghost use Rattle.vg_top.specs.Inputs.{inputs_seen};
ghost use Rattle.vg_top.specs.Left.{left_by, memory_or_trap, near_inputs, AreLeft};
ghost use Rattle.vg_top.specs.ProgramFile.{program_seen, KeepsAll};
ghost use Rattle.vg_top.specs.Run.{ran, ran_bound, ran_on};
ghost use Rattle.vg_top.specs.Works.{Works, IsOfRun, ending_of};

use crate::ending::{Ending, FileNumber};
use crate::files::{INSTRUCTIONS_LIMIT, MEMORY_LIMIT, PROGRAM_LIMIT, fetch};
use crate::inputs::{Inputs, bind};
use crate::instruction_file::catalog_of_text;
use crate::program_file::{ProgramFile, program_of_text};
use std::alloc::Global;
use vg_catalog::Catalog;
use vg_guard::{Guarded, checks_hold};
use vg_guarded_loop::GuardedLoop;
use vg_loop_guard::run_guarded_loop;
use vg_looped::Looped;
use vg_loops::{run_looped, stay_near, turns_asked};
use vg_machine::{Machine, Outcome};
use vg_outside::{Bytes, Shelf};
use vg_program::Program;
use vg_request::binding::bindings_of;

/// What a program leaves of a memory, where it may call the instructions of a catalogue.
fn run_program(
    alloc: Global,
    catalog: &Catalog,
    program: &Program,
    inputs: &Inputs,
    memory: Vec<u8>,
) -> Result<Vec<u8>, Ending>
    requires rules { KeepsRules (headers_of (entries_in catalog.now)) program.now }
    ensures told { Tells AreLeft result (memory_or_trap (meaning
        (called_by (entries_in catalog.now)) program.now memory.items
        inputs.now.places.items inputs.now.args.items)) }
    ensures refusal { IfErr result IsOfRun }
{
    let entries = catalog.entries();
    let Ok(machine) = Machine::new(alloc, entries, program) else {
        return Err(Ending::Memory);
    };
    let mut machine = machine;
    let mut memory = memory;
    match machine.run(
        memory.as_mut_slice(),
        inputs.places.as_slice(),
        inputs.args.as_slice(),
    ) {
        Outcome::Done => Ok(memory),
        Outcome::Trap => Err(Ending::Trap),
    }
}

/// What a guarded program leaves of a memory: what the side leaves that its checks name.
fn run_guarded(
    alloc: Global,
    catalog: &Catalog,
    guarded: &Guarded,
    inputs: &Inputs,
    memory: Vec<u8>,
) -> Result<Vec<u8>, Ending>
    requires rules { IsGuarded (headers_of (entries_in catalog.now)) guarded.now }
    ensures told { Tells AreLeft result (memory_or_trap (guarded_meaning
        (called_by (entries_in catalog.now)) guarded.now memory.items
        inputs.now.places.items inputs.now.args.items)) }
    ensures refusal { IfErr result IsOfRun }
{
    if checks_hold(guarded, inputs.places.as_slice()) {
        run_program(alloc, catalog, &guarded.fast, inputs, memory)
    } else {
        run_program(alloc, catalog, &guarded.slow, inputs, memory)
    }
}

/// What a looped text leaves of a memory. `Bindings` where its turns move a pointer past 2^64 - 1.
#[tactic(auto, using(crate::proofs::Few::looped_few))]
fn run_turns(
    alloc: Global,
    catalog: &Catalog,
    looped: &Looped,
    inputs: &Inputs,
    memory: Vec<u8>,
) -> Result<Vec<u8>, Ending>
    requires rules { IsLooped (headers_of (entries_in catalog.now)) looped.now }
    ensures told { Tells AreLeft result (left_by
        (looped_meaning (called_by (entries_in catalog.now)) looped.now) memory.items
        (near_inputs looped.now.times looped.now.steps (inputs_seen inputs.now))) }
    ensures refusal { IfErr result IsOfRun }
{
    let places = inputs.places.as_slice();
    let args = inputs.args.as_slice();
    let turns = turns_asked(looped.times, args);
    if !stay_near(looped.steps.as_slice(), turns, places) {
        return Err(Ending::Bindings);
    }
    let entries = catalog.entries();
    let Ok(block) = Machine::new(alloc, entries, &looped.block) else {
        return Err(Ending::Memory);
    };
    let Ok(rest) = Machine::new(alloc, entries, &looped.rest) else {
        return Err(Ending::Memory);
    };
    let mut block = block;
    let mut rest = rest;
    let mut memory = memory;
    match run_looped(
        looped,
        &mut block,
        &mut rest,
        memory.as_mut_slice(),
        places,
        args,
    ) {
        Outcome::Done => Ok(memory),
        Outcome::Trap => Err(Ending::Trap),
    }
}

/// What a guarded loop leaves of a memory. `Bindings` where its turns move a pointer past 2^64 - 1.
fn run_guarded_turns(
    alloc: Global,
    catalog: &Catalog,
    looped: &GuardedLoop,
    inputs: &Inputs,
    memory: Vec<u8>,
) -> Result<Vec<u8>, Ending>
    requires rules { IsGuardedLoop (headers_of (entries_in catalog.now)) looped.now }
    ensures told { Tells AreLeft result (left_by
        (guarded_loop_meaning (called_by (entries_in catalog.now)) looped.now) memory.items
        (near_inputs looped.now.times looped.now.steps (inputs_seen inputs.now))) }
    ensures refusal { IfErr result IsOfRun }
{
    let places = inputs.places.as_slice();
    let args = inputs.args.as_slice();
    let turns = turns_asked(looped.times, args);
    if !stay_near(looped.steps.as_slice(), turns, places) {
        return Err(Ending::Bindings);
    }
    let entries = catalog.entries();
    let Ok(fast) = Machine::new(alloc, entries, &looped.block.fast) else {
        return Err(Ending::Memory);
    };
    let Ok(slow) = Machine::new(alloc, entries, &looped.block.slow) else {
        return Err(Ending::Memory);
    };
    let Ok(rest) = Machine::new(alloc, entries, &looped.rest) else {
        return Err(Ending::Memory);
    };
    let mut fast = fast;
    let mut slow = slow;
    let mut rest = rest;
    let mut memory = memory;
    match run_guarded_loop(
        looped,
        &mut fast,
        &mut slow,
        &mut rest,
        memory.as_mut_slice(),
        places,
        args,
    ) {
        Outcome::Done => Ok(memory),
        Outcome::Trap => Err(Ending::Trap),
    }
}

/// What a program leaves of a memory, its parameters bound to these values, a missing one to 0, where it
/// may call the entries of a catalogue. `Bindings` (status 9) where the turns of a looped text or of a
/// guarded loop move a pointer past 2^64 - 1, `Trap` (10) where it accesses a byte outside the memory,
/// `Memory` (12) for want of memory, also at the bounds of `Machine::new`.
pub fn run_bound(
    alloc: Global,
    catalog: &Catalog,
    program: &ProgramFile,
    inputs: &Inputs,
    memory: Vec<u8>,
) -> Result<Vec<u8>, Ending>
    requires rules { KeepsAll (headers_of (entries_in catalog.now)) (program_seen program.now) }
    ensures told { Tells AreLeft result (ran_bound (entries_in catalog.now)
        (inputs_seen inputs.now) (program_seen program.now) memory.items) }
    ensures refusal { IfErr result IsOfRun }
{
    match program {
        ProgramFile::Plain(program) => run_program(alloc, catalog, program, inputs, memory),
        ProgramFile::Guarded(guarded) => run_guarded(alloc, catalog, guarded, inputs, memory),
        ProgramFile::Looped(looped) => run_turns(alloc, catalog, looped, inputs, memory),
        ProgramFile::GuardedLoop(looped) => {
            run_guarded_turns(alloc, catalog, looped, inputs, memory)
        }
    }
}

/// What a program leaves of a memory, its parameters bound by the words, where it may call these
/// entries.
#[tactic(auto, unfolding(crate::specs::Run::ran_on))]
fn run_on(
    alloc: Global,
    catalog: &Catalog,
    program: &ProgramFile,
    memory: Vec<u8>,
    words: &[Bytes],
) -> Result<Vec<u8>, Ending>
    requires rules { KeepsAll (headers_of (entries_in catalog.now)) (program_seen program.now) }
    ensures told { Tells AreLeft result (ran_on (entries_in catalog.now)
        (bindings_in words.now) (program_seen program.now) memory.items) }
    ensures refusal { IfErr result IsOfRun }
{
    let Ok(bindings) = bindings_of(alloc, words) else {
        return Err(Ending::Memory);
    };
    let Ok(bound) = bind(alloc, bindings.as_slice(), program.params()) else {
        return Err(Ending::Memory);
    };
    let Some(inputs) = bound else {
        return Err(Ending::Bindings);
    };
    run_bound(alloc, catalog, program, &inputs, memory)
}

/// The memory that the program in a file leaves of the memory in another, its parameters bound by
/// the words. The program may be a guarded one, a looped one or a guarded loop.
///
/// The files are read and judged one after the other. The first that is refused gives the ending of
/// `fetch`, `Instructions` (status 3) or `Program` (5); then come `Bindings` (9) and `Trap` (10).
/// `Memory` (12) comes for want of memory, also at the bounds of `Machine::new`. A looped text or a
/// guarded loop that stores nothing may have 2^64 - 1 turns.
pub fn run<S: Shelf>(
    alloc: Global,
    shelf: &mut S,
    instructions: &str,
    program: &str,
    memory: &str,
    words: &[Bytes],
) -> Result<Vec<u8>, Ending>
    ensures told { IfSome (S.holds shelf.old) (λ held. Tells AreLeft result
        (ran held instructions.now program.now memory.now (bindings_in words.now))) }
    ensures shelf { Works S.Shelf
        (Some (run_asked instructions.now program.now memory.now (bindings_in words.now)))
        shelf.old shelf.new (ending_of result) }
{
    let first = FileNumber(1);
    let file = fetch(alloc, shelf, first, instructions, INSTRUCTIONS_LIMIT)?;
    let catalog = catalog_of_text(alloc, first, file.as_slice())?;
    let second = FileNumber(2);
    let text = fetch(alloc, shelf, second, program, PROGRAM_LIMIT)?;
    let program = program_of_text(alloc, second, text.as_slice(), catalog.headers())?;
    let memory = fetch(alloc, shelf, FileNumber(3), memory, MEMORY_LIMIT)?;
    run_on(alloc, &catalog, &program, memory, words)
}
