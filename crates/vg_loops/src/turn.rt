//! What is run in each turn.

ghost use Rattle.std.specs.Prelude.{◌≡◌, ◌≤◌, length, map};
ghost use Rattle.vg_catalog.specs.Called.{called_by};
ghost use Rattle.vg_catalog.specs.Entries.{entry_of};
ghost use Rattle.vg_kernel.specs.Meaning.{meaning};
ghost use Rattle.vg_kernel.specs.Tree.{tree_of};
ghost use Rattle.vg_loop_laws.specs.Loops.{Run};
ghost use Rattle.vg_loops.specs.Kept.{Kept, loaded, room};
ghost use Rattle.vg_memory.specs.Outcome.{Leaves};
ghost use Rattle.vg_program.specs.Meaning as program;

use vg_bits::Outcome;
use vg_kernel::Kernel;
use vg_keval::{KState, run_kernel};
use vg_machine::Machine;

/// What can be run again and again, as a kernel with its room or a machine.
pub trait Turn {
    /// What a run leaves.
    ghost means: { Self → Run };

    /// Whether there is room for a run.
    ghost is_ready: { Self → Type 0 };

    /// What no run changes.
    ghost keeps: { Self → Kept };

    /// Runs it once. Takes no memory.
    fn run(&mut self, memory: &mut [u8], places: &[u64], args: &[u64]) -> Outcome
        requires ready { is_ready self.old }
        ensures outcome { Leaves result memory.new (means self.old memory.old places.now args.now) }
        ensures size { length memory.new ≡ length memory.old }
        ensures same { means self.new ≡ means self.old }
        ensures kept { keeps self.new ≡ keeps self.old }
        ensures ready { is_ready self.new };
}

/// A kernel with the room for its runs.
#[derive(Drop)]
pub(crate) struct KernelTurn<'a> {
    pub(crate) kernel: &'a Kernel,
    pub(crate) state: &'a mut KState,
}

impl Turn for KernelTurn<'_> {
    ghost means = { λ t. meaning (tree_of t.kernel.now) };

    ghost is_ready = { λ t. length t.kernel.now.statements ≤ t.state.now };

    ghost keeps = { λ t. room t.state.ghost_name t.state.now };

    fn run(&mut self, memory: &mut [u8], places: &[u64], args: &[u64]) -> Outcome {
        run_kernel(self.kernel, self.state, memory, places, args)
    }
}

impl Turn for Machine<'_> {
    ghost means = { λ m. program.meaning (called_by (map entry_of m.entries)) m.program };

    ghost is_ready = { λ m. Unit {0} };

    ghost keeps = { λ m. loaded m };

    fn run(&mut self, memory: &mut [u8], places: &[u64], args: &[u64]) -> Outcome {
        Machine::run(self, memory, places, args)
    }
}
