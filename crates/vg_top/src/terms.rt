//! The command `terms`.

ghost use Rattle.std.specs.Prelude.{◌≡◌, ◌≤◌, length, Some, IfSome, IfErr, IfOk};
ghost use Rattle.vg_kernel.specs.Tree.{tree_of};
ghost use Rattle.vg_kernel.specs.WellFormed.{IsWellFormed};
ghost use Rattle.vg_loop_laws.specs.Limits.{turns_of};
ghost use Rattle.vg_loop_laws.specs.Unrolled.{unrolled};
ghost use Rattle.vg_loops.specs.Formed.{IsLoop};
ghost use Rattle.vg_loops.specs.View.{loop_of};
ghost use Rattle.vg_request.specs.Request.{terms as terms_asked};
ghost use Rattle.vg_top.specs.Files.{first_file, Tells};
ghost use Rattle.vg_top.specs.KernelFile.{file_seen, kernel_file, kernel_or_refusal, IsFormed};
ghost use Rattle.vg_top.specs.Lift.{AreLines};
ghost use Rattle.vg_top.specs.Terms.{kernel_in, values_listed, values_told};
ghost use Rattle.vg_top.specs.Works.{Works, IsOfKernel, ending_of};
ghost use Rattle.vg_value_text.specs.Listed.{values_text};

use crate::ending::{Ending, FileNumber};
use crate::files::{KERNEL_LIMIT, fetch};
use crate::kernel_file::{KernelFile, kernel_file_of_text};
use std::alloc::{AllocError, Global};
use vg_loops::{Loop, turns_of, unroll};
use vg_outside::Shelf;
use vg_value_text::list_values;

/// The lines on the values of the kernel of the turns that a block of a loop has.
fn values_of_turns(alloc: Global, counted: &Loop, more: bool) -> Result<Vec<u8>, AllocError>
    requires { IsLoop (loop_of counted.now) }
    ensures { IfOk result (λ lines. lines.items
        ≡ values_text (unrolled (loop_of counted.now) (turns_of (loop_of counted.now))) more) }
{
    let kernel = unroll(alloc, counted, turns_of(counted))?;
    list_values(alloc, &kernel, more)
}

/// The lines on the values of a kernel, or of the kernel of a loop's turns.
fn values_in(alloc: Global, file: &KernelFile, more: bool) -> Result<Vec<u8>, AllocError>
    requires { IsFormed (file_seen file.now) }
    ensures { IfOk result (λ lines. lines.items
        ≡ values_text (kernel_in (file_seen file.now)) more) }
{
    match file {
        KernelFile::Plain(kernel) => list_values(alloc, kernel, more),
        KernelFile::Counted(counted) => values_of_turns(alloc, counted, more),
    }
}

/// The lines on the values of what a text holds.
fn values_of_text(alloc: Global, text: &[u8], more: bool) -> Result<Vec<u8>, Ending>
    requires small { length text.now ≤ 262144 }
    ensures told { Tells AreLines result
        (values_told more (kernel_or_refusal first_file (kernel_file text.now))) }
    ensures refusal { IfErr result (IsOfKernel first_file) }
{
    let file = match kernel_file_of_text(alloc, FileNumber(1), text) {
        Ok(file) => file,
        Err(ending) => return Err(ending),
    };
    match values_in(alloc, &file, more) {
        Ok(lines) => Ok(lines),
        Err(_) => Err(Ending::Memory),
    }
}

/// The lines on the values of the kernel in a file, or of the kernel of its loop's turns: what has each
/// number and its term; with `more` its cut term too. A file that is refused gives the ending of
/// `fetch` or `Kernel` (status 4). `Memory` (12) comes for want of memory alone.
pub fn terms<S: Shelf>(
    alloc: Global,
    shelf: &mut S,
    kernel: &str,
    more: bool,
) -> Result<Vec<u8>, Ending>
    ensures told { IfSome (S.holds shelf.old) (λ held.
        Tells AreLines result (values_listed held kernel.now more)) }
    ensures shelf { Works S.Shelf (Some (terms_asked kernel.now more))
        shelf.old shelf.new (ending_of result) }
{
    let text = fetch(alloc, shelf, FileNumber(1), kernel, KERNEL_LIMIT)?;
    values_of_text(alloc, text.as_slice(), more)
}
