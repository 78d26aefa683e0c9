//! Labels of which a kernel and a program have other numbers of events.

ghost use Rattle.std.specs.Prelude.{◌≡◌, IfOk};
ghost use Rattle.std.specs.Option.{option_map};
ghost use Rattle.vg_events.specs.Events.{kernel_labels, labels};
ghost use Rattle.vg_events.specs.Lines.{line_labels};
ghost use Rattle.vg_known.specs.Difference.{access, uneven_label};
ghost use Rattle.vg_events.specs.Ranks.{count_label};
ghost use Rattle.vg_paired.specs.ByteLabels.{label_of};
ghost use Rattle.vg_paired.specs.Found.{access_of};

use crate::accesses::{byte_labels, count_label, line_accesses, unit_accesses};
use crate::balance::Balance;
use crate::byte_label::ByteLabel;
use std::alloc::{AllocError, Global};
use vg_program::Program;
use vg_shapes::{Access, Ssa};

/// A label, and how many events have it on both sides.
#[derive(Clone, Copy)]
pub struct Uneven {
    pub label: ByteLabel,
    pub in_kernel: usize,
    pub in_program: usize,
}

/// The least label of which a kernel and a program have other numbers of events: loads before stores,
/// then by pointer, then by offset. Fails for want of memory alone, and takes no more of it than for the
/// accesses of both and the labels of the kernel.
pub fn uneven_label(
    alloc: Global,
    ssa: &Ssa,
    program: &Program,
) -> Result<Option<Uneven>, AllocError>
    ensures { IfOk result
        (λ found. option_map access_of found
        ≡ uneven_label (kernel_labels ssa.now) (line_labels program.now.lines)) }
{
    let kernel = unit_accesses(alloc, ssa.units.as_slice())?;
    let lines = line_accesses(alloc, program.lines.as_slice())?;
    uneven_access(alloc, &kernel, &lines)
}

// The same of what units and what lines access.
fn uneven_access(
    alloc: Global,
    kernel: &[Option<Access>],
    lines: &[Option<Access>],
) -> Result<Option<Uneven>, AllocError>
    ensures { IfOk result (λ found. option_map access_of found ≡ uneven_label (labels kernel.now)
        (labels lines.now)) }
{
    let all = byte_labels(alloc, kernel)?;
    let labels = all.as_slice();
    let mut balance = Balance::new(alloc, labels)?;
    balance.take_all(lines)?;
    let found = balance.least(labels);
    Ok(counted(kernel, lines, found))
}

// A label with its numbers of events.
fn counted(
    kernel: &[Option<Access>],
    lines: &[Option<Access>],
    found: Option<ByteLabel>,
) -> Option<Uneven>
    ensures { option_map access_of result
        ≡ option_map
        (λ l. access l (count_label l (labels kernel.now)) (count_label l (labels lines.now)))
        (option_map label_of found) }
{
    let label = found?;
    let in_kernel = count_label(kernel, label);
    let in_program = count_label(lines, label);
    Some(Uneven {
        label,
        in_kernel,
        in_program,
    })
}
