//! Judges operations.

ghost use Rattle.vg_pseudo.specs.Tree.{operation_of};
ghost use Rattle.vg_range.specs.Checks.{Checks};

use crate::accepting::accepted;
use crate::checked::Checked;
use std::alloc::Global;
use vg_interval::RangeFault;
use vg_pseudo::{Header, Operation};

/// Judges an operation: names first, then the instances by rising immediate, each in the order in which it runs.
///
/// The fault is the first that is met. `Memory` says nothing of the operation.
#[tactic(auto, using(crate::proofs::Immediates::first_fault))]
pub fn check(alloc: Global, header: Header, operation: Operation) -> Result<Checked, RangeFault>
    // What is accepted is what was given; else the fault is the first, and its place.
    ensures exact { Checks header (operation_of operation) result }
{
    match accepted(alloc, &header, &operation) {
        Ok(resolved) => Ok(Checked::new(header, operation, resolved)),
        Err(fault) => Err(fault),
    }
}
