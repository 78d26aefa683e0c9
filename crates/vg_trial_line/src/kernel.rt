//! The kernel of a trial.

ghost use Rattle.std.specs.Prelude.{◌≡◌, IfOk, Ok};
ghost use Rattle.vg_kernel.specs.Statements.{kernel_of};
ghost use Rattle.vg_kernel.specs.Tree.{tree_of};
ghost use Rattle.vg_kernel.specs.WellFormed.{IsWellFormed};
ghost use Rattle.vg_trial.specs.Trial.{kernel_text};
ghost use Rattle.vg_trial.specs.TrialKernel.{kernel as kernel_of_trial};

use std::alloc::{AllocError, Global};
use vg_kernel::{Kernel, KernelFault, parse_kernel};
use vg_trial::make_kernel;

/// The kernel that the text of the trial of this number spells. `Err` for want of memory alone.
pub(crate) fn trial_kernel(alloc: Global, number: u32) -> Result<Kernel, AllocError>
    ensures spelled { IfOk result (λ k. kernel_of (kernel_text number) ≡ Ok (tree_of k)) }
    ensures known { IfOk result (λ k. tree_of k ≡ kernel_of_trial number) }
    ensures well_formed { IfOk result (λ k. IsWellFormed (tree_of k)) }
{
    let text = make_kernel(alloc, number)?;
    match parse_kernel(alloc, text.as_slice()) {
        Ok(kernel) => Ok(kernel),
        Err(KernelFault::Memory(error)) => Err(error),
        Err(_) => unreachable!(),
    }
}
