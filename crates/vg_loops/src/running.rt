//! Turns that are run in place, on places that move.

ghost use Rattle.std.specs.Prelude.{◌≡◌, ◌+◌, ◌*◌, ◌<◌, ◌≤◌, ◌^◌, length, map};
ghost use Rattle.vg_bits.specs.declared.outcome.Outcome.TheVariants.{Done};
ghost use Rattle.vg_catalog.specs.Called.{called_by};
ghost use Rattle.vg_catalog.specs.Entries.{entry_of};
ghost use Rattle.vg_loop_laws.specs.Inputs.{StayNear};
ghost use Rattle.vg_loop_laws.specs.Loops.{
  Run,
  places_at,
  turns,
  block_of,
  both_meaning,
  blocks_meaning,
  turns_asked,
  loop_meaning,
};
ghost use Rattle.vg_loops.specs.Inputs.{looped_meaning};
ghost use Rattle.vg_loops.specs.View.{loop_of};
ghost use Rattle.vg_memory.specs.Outcome.{Leaves};

use crate::counted::Loop;
use crate::near::turns_asked;
use crate::turn::{KernelTurn, Turn};
use vg_bits::Outcome;
use vg_keval::KState;
use vg_looped::Looped;
use vg_machine::Machine;

/// Moves places on by so many turns. Takes no memory.
fn move_places(places: &mut [u64], steps: &[u32], count: u64)
    requires { StayNear steps.now count places.old }
    ensures { places.new ≡ places_at steps.now places.old count }
{
    if let [step, behind @ ..] = steps {
        if let Some((place, others)) = places.split_first_mut() {
            *place += count * *step as u64;
            move_places(others, behind, count);
        }
    }
}

/// Runs so many blocks, each of so many turns, and moves the places on after each. After a trap
/// places and memory may be any. Takes no memory.
fn run_turns<T: Turn>(
    runner: &mut T,
    memory: &mut [u8],
    places: &mut [u64],
    steps: &[u32],
    size: u64,
    args: &[u64],
    count: u64,
) -> Outcome
    requires ready { T.is_ready runner.old }
    requires near { StayNear steps.now (size * count) places.old }
    requires long { length places.old ≡ length steps.now }
    ensures outcome { Leaves result memory.new (turns (block_of size (T.means runner.old) steps.now
        places.old args.now) count 0 memory.old) }
    ensures size { length memory.new ≡ length memory.old }
    ensures same { T.means runner.new ≡ T.means runner.old }
    ensures kept { T.keeps runner.new ≡ T.keeps runner.old }
    ensures ready { T.is_ready runner.new }
    ensures places { result ≡ Done → places.new ≡ places_at steps.now places.old (size * count) }
{
    let mut left = count;
    'turns: while left > 0 {
        match runner.run(memory, places, args) {
            Outcome::Done => {}
            Outcome::Trap => return Outcome::Trap,
        }
        move_places(places, steps, size);
        left -= 1;
    }
    Outcome::Done
}

/// Runs the blocks, each of so many turns, and then the turns that are left over of a count. The
/// places are moved on by the steps after each. `Trap` where a run traps; then places and memory may
/// be any. Takes no memory.
pub fn run_both<B: Turn, R: Turn>(
    block: &mut B,
    rest: &mut R,
    memory: &mut [u8],
    places: &mut [u64],
    steps: &[u32],
    size: u64,
    args: &[u64],
    count: u64,
) -> Outcome
    requires ready_block { B.is_ready block.old }
    requires ready_rest { R.is_ready rest.old }
    requires some { 0 < size }
    requires near { StayNear steps.now count places.old }
    requires long { length places.old ≡ length steps.now }
    ensures outcome { Leaves result memory.new (both_meaning size count steps.now
        (B.means block.old) (R.means rest.old) memory.old places.old args.now) }
    ensures size { length memory.new ≡ length memory.old }
    ensures same_block { B.means block.new ≡ B.means block.old }
    ensures same_rest { R.means rest.new ≡ R.means rest.old }
    ensures kept_block { B.keeps block.new ≡ B.keeps block.old }
    ensures kept_rest { R.keeps rest.new ≡ R.keeps rest.old }
{
    match run_turns(block, memory, places, steps, size, args, count / size) {
        Outcome::Done => {}
        Outcome::Trap => return Outcome::Trap,
    }
    run_turns(rest, memory, places, steps, 1, args, count % size)
}

/// Runs a loop on a memory, in the room that was made for its kernel. The places are those of its
/// pointers at the first turn, in bytes from the start of the memory, and the args the numbers of
/// its integer parameters, each kind in the order of the parameters. `Trap` exactly where a turn
/// traps; then the memory may hold any bytes. Takes no memory. The room is as before, so it may be
/// called again.
pub fn run_loop(
    source: &Loop,
    state: &mut KState,
    memory: &mut [u8],
    places: &[u64],
    args: &[u64],
) -> Outcome
    requires room { length source.now.kernel.statements ≤ state.old }
    requires near { StayNear source.now.steps (turns_asked source.now.times args.now) places.now }
    requires long { length places.now ≡ length source.now.steps }
    requires few { length places.now ≤ 16 }
    ensures outcome { Leaves result memory.new
        (loop_meaning (loop_of source.now) memory.old places.now args.now) }
    ensures size { length memory.new ≡ length memory.old }
    ensures room { state.new ≡ state.old }
{
    let mut room = [0u64; 16];
    let here = &mut room[..places.len()];
    here.copy_from_slice(places);
    let count = turns_asked(source.times, args);
    let mut turn = KernelTurn {
        kernel: &source.kernel,
        state,
    };
    run_turns(
        &mut turn,
        memory,
        here,
        source.steps.as_slice(),
        1,
        args,
        count,
    )
}

/// Runs a looped text on a memory, by machines that were made for its two programs over the same
/// entries. The places are those of its pointers at the first turn, in bytes from the start of the
/// memory, and the args the numbers of its integer parameters, each kind in the order of the first
/// line. `Trap` exactly where a block or a turn that is left over traps; then the memory may hold
/// any bytes. Takes no memory. The machines hold the same programs and entries as before, so it may
/// be called again. A text that stores nothing may have 2^64 - 1 turns, and then runs for years.
pub fn run_looped(
    looped: &Looped,
    block: &mut Machine<'_>,
    rest: &mut Machine<'_>,
    memory: &mut [u8],
    places: &[u64],
    args: &[u64],
) -> Outcome
    requires block { block.old.program ≡ looped.now.block }
    requires rest { rest.old.program ≡ looped.now.rest }
    requires entries { rest.old.entries ≡ block.old.entries }
    requires some { 1 ≤ looped.now.turns }
    requires near { StayNear looped.now.steps (turns_asked looped.now.times args.now) places.now }
    requires long { length places.now ≡ length looped.now.steps }
    requires few { length places.now ≤ 16 }
    ensures outcome { Leaves result memory.new
        (looped_meaning (called_by (map entry_of block.old.entries)) looped.now
        memory.old places.now args.now) }
    ensures size { length memory.new ≡ length memory.old }
    ensures program_block { block.new ≡ block.old }
    ensures program_rest { rest.new ≡ rest.old }
{
    let mut room = [0u64; 16];
    let here = &mut room[..places.len()];
    here.copy_from_slice(places);
    let count = turns_asked(looped.times, args);
    run_both(
        block,
        rest,
        memory,
        here,
        looped.steps.as_slice(),
        looped.turns as u64,
        args,
        count,
    )
}
