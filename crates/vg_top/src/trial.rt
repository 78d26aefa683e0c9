//! The command `trial`.

ghost use Rattle.std.specs.Prelude.{Some, IfSome, IfErr};
ghost use Rattle.vg_catalog.specs.Files.{file_of};
ghost use Rattle.vg_top.specs.Files.{first_file, Tells};
ghost use Rattle.vg_top.specs.InstructionFile.{entries_or_refusal};
ghost use Rattle.vg_top.specs.Trial.{IsLineOn, trial_of, trial_told};
ghost use Rattle.vg_request.specs.Request.{trial as trial_asked};
ghost use Rattle.vg_top.specs.Works.{Works, IsOfInstructions, ending_of};

use crate::ending::{Ending, FileNumber};
use crate::files::{INSTRUCTIONS_LIMIT, fetch};
use crate::instruction_file::catalog_of_text;
use std::alloc::Global;
use vg_outside::Shelf;
use vg_trial_line::trial_line;

/// The line on the trial of a number with the entries of a file's text.
fn line_of_text(alloc: Global, text: &[u8], number: u32) -> Result<Vec<u8>, Ending>
    ensures told { Tells IsLineOn result
        (trial_of number (entries_or_refusal first_file (file_of text.now))) }
    ensures refusal { IfErr result (IsOfInstructions first_file) }
{
    let catalog = match catalog_of_text(alloc, FileNumber(1), text) {
        Ok(catalog) => catalog,
        Err(ending) => return Err(ending),
    };
    match trial_line(alloc, &catalog, number) {
        Ok(bytes) => Ok(bytes),
        Err(_) => Err(Ending::Memory),
    }
}

/// The line on the trial of a number: its kernel, the program that is compiled for it with the
/// entries in a file, and the bytes that both leave. A file that is refused gives the ending of `fetch`
/// or `Instructions` (status 3). `Memory` (12) comes for want of memory, also at the bounds of
/// `trial_line`.
pub fn trial<S: Shelf>(
    alloc: Global,
    shelf: &mut S,
    instructions: &str,
    number: u32,
) -> Result<Vec<u8>, Ending>
    ensures told { IfSome (S.holds shelf.old) (λ held.
        Tells IsLineOn result (trial_told held instructions.now number)) }
    ensures shelf { Works S.Shelf (Some (trial_asked instructions.now number))
        shelf.old shelf.new (ending_of result) }
{
    let file = fetch(
        alloc,
        shelf,
        FileNumber(1),
        instructions,
        INSTRUCTIONS_LIMIT,
    )?;
    line_of_text(alloc, file.as_slice(), number)
}
