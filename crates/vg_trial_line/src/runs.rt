//! The runs of a trial, each on a memory of its own.

ghost use Rattle.std.specs.Prelude.{◌≡◌, [], IfOk, Some};
ghost use Rattle.vg_catalog.specs.Called.{called_by, headers_of};
ghost use Rattle.vg_catalog.specs.Catalogs.{entries_in};
ghost use Rattle.vg_compile.specs.Means.{Means};
ghost use Rattle.vg_kernel.specs.Meaning.{meaning};
ghost use Rattle.vg_kernel.specs.Tree.{tree_of};
ghost use Rattle.vg_program.specs.Meaning.{meaning as program_meaning};
ghost use Rattle.vg_program.specs.Valid.{KeepsRules};
ghost use Rattle.vg_trial.specs.Trial.{memory};
ghost use Rattle.vg_trial.specs.TrialKernel.{kernel as kernel_of_trial, places};

use std::alloc::{AllocError, Global};
use vg_catalog::Catalog;
use vg_kernel::Kernel;
use vg_keval::{KState, Outcome, run_kernel};
use vg_machine::Machine;
use vg_program::Program;
use vg_trial::{trial_memory, trial_places};

/// The bytes that the kernel of a trial leaves of its memory. `Err` for want of memory alone.
pub(crate) fn left_by_kernel(
    alloc: Global,
    kernel: &Kernel,
    number: u32,
) -> Result<Vec<u8>, AllocError>
    requires known { tree_of kernel.now ≡ kernel_of_trial number }
    ensures { IfOk result (λ left.
        meaning (kernel_of_trial number) (memory number) (places number) [] ≡ Some left.items) }
{
    let mut memory = trial_memory(alloc, number)?;
    let places = trial_places(number);
    let mut state = KState::new(alloc, kernel)?;
    match run_kernel(
        kernel,
        &mut state,
        memory.as_mut_slice(),
        places.as_slice(),
        &[],
    ) {
        Outcome::Done => Ok(memory),
        Outcome::Trap => unreachable!(),
    }
}

/// The bytes that a program which means the kernel of a trial leaves of its memory: those that the
/// kernel leaves. `Err` for want of memory alone.
pub(crate) fn left_by_program(
    alloc: Global,
    catalog: &Catalog,
    program: &Program,
    number: u32,
) -> Result<Vec<u8>, AllocError>
    requires rules { KeepsRules (headers_of (entries_in catalog.now)) program.now }
    requires means { Means (called_by (entries_in catalog.now)) program.now
        (kernel_of_trial number) }
    ensures by_kernel { IfOk result (λ left.
        meaning (kernel_of_trial number) (memory number) (places number) [] ≡ Some left.items) }
    ensures by_program { IfOk result (λ left.
        program_meaning (called_by (entries_in catalog.now)) program.now
        (memory number) (places number) [] ≡ Some left.items) }
{
    let mut memory = trial_memory(alloc, number)?;
    let places = trial_places(number);
    let mut machine = Machine::new(alloc, catalog.entries(), program)?;
    match machine.run(memory.as_mut_slice(), places.as_slice(), &[]) {
        Outcome::Done => Ok(memory),
        Outcome::Trap => unreachable!(),
    }
}
