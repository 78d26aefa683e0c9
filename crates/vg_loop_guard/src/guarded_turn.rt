//! A guarded program that is run in each turn.

ghost use Rattle.std.specs.Prelude.{map};
ghost use Rattle.vg_catalog.specs.Called.{called_by};
ghost use Rattle.vg_catalog.specs.Entries.{entry_of};
ghost use Rattle.vg_loop_guard.specs.Meaning.{run_chosen};
ghost use Rattle.vg_loops.specs.Kept.{both};
ghost use Rattle.vg_program.specs.Meaning as program;

use vg_bits::Outcome;
use vg_guard::{Guarded, checks_hold};
use vg_loops::Turn;
use vg_machine::Machine;

/// The checks of a guarded program, and a machine for each of its sides.
#[derive(Drop)]
pub(crate) struct GuardedTurn<'guarded, 'fast, 'slow, 'first, 'second> {
    pub(crate) guarded: &'guarded Guarded,
    pub(crate) fast: &'fast mut Machine<'first>,
    pub(crate) slow: &'slow mut Machine<'second>,
}

impl Turn for GuardedTurn<'_, '_, '_, '_, '_> {
    ghost means = { λ t. run_chosen t.guarded.now.checks
        (program.meaning (called_by (map entry_of t.fast.now.entries)) t.fast.now.program)
        (program.meaning (called_by (map entry_of t.slow.now.entries)) t.slow.now.program) };

    ghost is_ready = { λ t. Unit {0} };

    ghost keeps = { λ t. both t.fast.ghost_name t.slow.ghost_name t.fast.now t.slow.now };

    fn run(&mut self, memory: &mut [u8], places: &[u64], args: &[u64]) -> Outcome {
        if checks_hold(self.guarded, places) {
            self.fast.run(memory, places, args)
        } else {
            self.slow.run(memory, places, args)
        }
    }
}
