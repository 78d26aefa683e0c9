//! Trials: a kernel, the program compiled for it, and a run of each.

ghost use Rattle.std.specs.Prelude.{◌≡◌, IfOk};
ghost use Rattle.vg_catalog.specs.Catalogs.{entries_in};
ghost use Rattle.vg_trial_line.specs.TrialLine.{IsTrialLine};

use crate::kernel::trial_kernel;
use crate::runs::{left_by_kernel, left_by_program};
use crate::sum::sum_of;
use crate::text::{Figures, print_line};
use std::alloc::{AllocError, Global};
use vg_catalog::{Catalog, Extensions};
use vg_compile::compile;
use vg_kernel::scalar_cost;

/// How many plans of each size the search for the program keeps.
const WIDTH: u32 = 32;

/// The line on the trial of a number: how many statements its kernel has, what the kernel costs and
/// what the program costs that is compiled for it with all entries and width 32, and the sum of the
/// bytes that are left, modulo 2^32.
///
/// The kernel and the program are run, each on a memory of its own, and leave the same bytes. Fails
/// for want of memory, also at the bounds of `vg_compile::compile` and `vg_machine::Machine::new`.
pub fn trial_line(alloc: Global, catalog: &Catalog, number: u32) -> Result<Vec<u8>, AllocError>
    ensures { IfOk result (λ bytes. IsTrialLine (entries_in catalog.now) number bytes.items) }
{
    let kernel = trial_kernel(alloc, number)?;
    let every = Extensions::every();
    let program = compile(alloc, catalog, every, &kernel, WIDTH)?;
    let by_kernel = left_by_kernel(alloc, &kernel, number)?;
    let left = left_by_program(alloc, catalog, &program, number)?;
    prove!(left.as_slice() == by_kernel.as_slice());
    let figures = Figures {
        number,
        statements: kernel.statements.as_slice().len() as u64,
        scalar: scalar_cost(&kernel),
        cost: program.cost,
        sum: sum_of(left.as_slice()),
    };
    print_line(alloc, figures)
}
