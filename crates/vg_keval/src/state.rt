//! Runs of kernels.

ghost use Rattle.std.specs.Prelude.{◌≡◌, ◌≤◌, length, IfOk};
ghost use Rattle.vg_kernel.specs.Meaning.{meaning};
ghost use Rattle.vg_kernel.specs.Tree.{tree_of};
ghost use Rattle.vg_memory.specs.Outcome.{Leaves};

use crate::inputs::Inputs;
use crate::statements::run;
use std::alloc::{AllocError, Global};
use std::marker::Model;
use vg_bits::Outcome;
use vg_kernel::Kernel;

/// Room for the numbers of the names that a kernel gives. Contracts see how many there is room for.
#[derive(Drop)]
pub struct KState {
    numbers: Vec<u64>,
}

impl Model for KState {
    ghost use Rattle.std.specs.Prelude.{ℕ, vec_capacity};

    ghost Value = { ℕ };

    ghost view = { λ s. vec_capacity s.numbers };
}

impl KState {
    /// Takes the room for each run of a kernel: a statement gives at most one name.
    pub fn new(alloc: Global, kernel: &Kernel) -> Result<KState, AllocError>
        ensures { IfOk result (λ room. length kernel.now.statements ≤ room) }
    {
        let numbers = Vec::with_capacity(alloc, kernel.statements.as_slice().len())?;
        Ok(KState { numbers })
    }

    /// Runs the statements, with no number of a run before.
    #[tactic(auto, unfolding(vg_kernel::specs::Meaning::meaning))]
    fn run(&mut self, kernel: &Kernel, memory: &mut [u8], places: &[u64], args: &[u64]) -> Outcome
        requires { length kernel.now.statements ≤ self.old }
        ensures outcome { Leaves result memory.new
            (meaning (tree_of kernel.now) memory.old places.now args.now) }
        ensures size { length memory.new ≡ length memory.old }
        ensures room { self.new ≡ self.old }
    {
        self.numbers.clear();
        let inputs = Inputs { places, args };
        run(
            &inputs,
            kernel.statements.as_slice(),
            memory,
            &mut self.numbers,
        )
    }
}

/// Runs a kernel on a memory, in the room that was made for it. The places are those of its
/// pointers, in bytes from the start of the memory, and the args the numbers of its integer
/// parameters, each kind in the order of the parameters; one that is missing is 0. After a trap the
/// memory may hold any bytes. Takes no memory, and the next run begins anew.
pub fn run_kernel(
    kernel: &Kernel,
    state: &mut KState,
    memory: &mut [u8],
    places: &[u64],
    args: &[u64],
) -> Outcome
    requires { length kernel.now.statements ≤ state.old }
    ensures outcome { Leaves result memory.new
        (meaning (tree_of kernel.now) memory.old places.now args.now) }
    ensures size { length memory.new ≡ length memory.old }
    ensures room { state.new ≡ state.old }
{
    state.run(kernel, memory, places, args)
}
