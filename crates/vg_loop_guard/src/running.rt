//! Guarded loops that are run.

ghost use Rattle.std.specs.Prelude.{◌≡◌, ◌≤◌, length, map};
ghost use Rattle.vg_catalog.specs.Called.{called_by};
ghost use Rattle.vg_catalog.specs.Entries.{entry_of};
ghost use Rattle.vg_loop_guard.specs.Meaning.{guarded_loop_meaning};
ghost use Rattle.vg_loop_laws.specs.Inputs.{StayNear};
ghost use Rattle.vg_loop_laws.specs.Loops.{turns_asked};
ghost use Rattle.vg_memory.specs.Outcome.{Leaves};

use crate::guarded_turn::GuardedTurn;
use vg_bits::Outcome;
use vg_guarded_loop::GuardedLoop;
use vg_loops::{run_both, turns_asked};
use vg_machine::Machine;

/// Runs a guarded loop on a memory, by machines that were made for its three programs over the same
/// entries: each block by the side that its checks choose at the places of that block, and then the
/// turns that are left over. The places are those of its pointers at the first turn, in bytes from
/// the start of the memory, and the args the numbers of its integer parameters, each kind in the
/// order of the first line. `Trap` exactly where a block or a turn that is left over traps; then the
/// memory may hold any bytes. Takes no memory. The machines hold the same programs and entries as
/// before, so it may be called again. A text that stores nothing may have 2^64 - 1 turns, and then
/// runs for years.
pub fn run_guarded_loop(
    source: &GuardedLoop,
    fast: &mut Machine<'_>,
    slow: &mut Machine<'_>,
    rest: &mut Machine<'_>,
    memory: &mut [u8],
    places: &[u64],
    args: &[u64],
) -> Outcome
    requires fast { fast.old.program ≡ source.now.block.fast }
    requires slow { slow.old.program ≡ source.now.block.slow }
    requires rest { rest.old.program ≡ source.now.rest }
    requires entries_slow { slow.old.entries ≡ fast.old.entries }
    requires entries_rest { rest.old.entries ≡ fast.old.entries }
    requires some { 1 ≤ source.now.turns }
    requires near { StayNear source.now.steps (turns_asked source.now.times args.now) places.now }
    requires long { length places.now ≡ length source.now.steps }
    requires few { length places.now ≤ 16 }
    ensures outcome { Leaves result memory.new
        (guarded_loop_meaning (called_by (map entry_of fast.old.entries)) source.now
        memory.old places.now args.now) }
    ensures size { length memory.new ≡ length memory.old }
    ensures program_fast { fast.new ≡ fast.old }
    ensures program_slow { slow.new ≡ slow.old }
    ensures program_rest { rest.new ≡ rest.old }
{
    let mut room = [0u64; 16];
    let here = &mut room[..places.len()];
    here.copy_from_slice(places);
    let count = turns_asked(source.times, args);
    let mut block = GuardedTurn {
        guarded: &source.block,
        fast,
        slow,
    };
    run_both(
        &mut block,
        rest,
        memory,
        here,
        source.steps.as_slice(),
        source.turns as u64,
        args,
        count,
    )
}
