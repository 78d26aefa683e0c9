//! The commands `compile` and `explain`.

ghost use Rattle.std.specs.Prelude.{◌≡◌, ◌≤◌, length, List, Some, IfSome, IfErr};
ghost use Rattle.vg_catalog.specs.Catalogs.{entries_in};
ghost use Rattle.vg_catalog.specs.Entries.{Entry};
ghost use Rattle.vg_request.specs.Options.{choices_seen};
ghost use Rattle.vg_top.specs.Files.{second_file, Tells};
ghost use Rattle.vg_top.specs.OnKernel.{asked_for, told_of, written_for};
ghost use Rattle.vg_top.specs.Outcome.{VecAnswers};
ghost use Rattle.vg_top.specs.Works.{Works, IsOfKernel, ending_of};

use crate::ending::{Ending, FileNumber};
use crate::files::{INSTRUCTIONS_LIMIT, KERNEL_LIMIT, fetch};
use crate::instruction_file::catalog_of_text;
use crate::kept::written_of_text;
use crate::task::Task;
use std::alloc::Global;
use vg_catalog::Catalog;
use vg_library::Library;
use vg_outside::Shelf;
use vg_request::Options;

/// What is written of the text of a kernel file, with the entries of a catalogue.
fn text_of(
    alloc: Global,
    task: Task,
    catalog: Catalog,
    options: Options,
    text: &[u8],
) -> Result<Vec<u8>, Ending>
    requires small { length text.now ≤ 262144 }
    ensures told { (entries : List Entry) → entries_in catalog ≡ entries → Tells VecAnswers
        result (told_of task entries (choices_seen options) text.now) }
    ensures refusal { IfErr result (IsOfKernel second_file) }
{
    let library = match Library::new(alloc, catalog, options.allowed) {
        Ok(library) => library,
        Err(_) => return Err(Ending::Memory),
    };
    written_of_text(alloc, task, &library, options.width, options.more, text)
}

/// What is written of the kernel or the loop in a file, with the instructions of another, as the options
/// say.
///
/// The files are read and judged one after the other, the instructions first. The first that is
/// refused gives the ending of `fetch`, `Instructions` (status 3) or `Kernel` (4). `Memory` (12) comes
/// for want of memory, also at the bounds of `compile`.
pub fn on_kernel<S: Shelf>(
    alloc: Global,
    shelf: &mut S,
    task: Task,
    instructions: &str,
    kernel: &str,
    options: Options,
) -> Result<Vec<u8>, Ending>
    ensures told { IfSome (S.holds shelf.old) (λ held. Tells VecAnswers result
        (written_for held task instructions.now kernel.now (choices_seen options))) }
    ensures shelf { Works S.Shelf
        (Some (asked_for task instructions.now kernel.now (choices_seen options)))
        shelf.old shelf.new (ending_of result) }
{
    let number = FileNumber(1);
    let file = fetch(alloc, shelf, number, instructions, INSTRUCTIONS_LIMIT)?;
    let catalog = catalog_of_text(alloc, number, file.as_slice())?;
    let text = fetch(alloc, shelf, FileNumber(2), kernel, KERNEL_LIMIT)?;
    text_of(alloc, task, catalog, options, text.as_slice())
}
