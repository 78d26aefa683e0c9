//! The command `lift`.

ghost use Rattle.std.specs.Prelude.{Some, IfSome, IfErr};
ghost use Rattle.vg_catalog.specs.Files.{file_of};
ghost use Rattle.vg_top.specs.Files.{first_file, Tells};
ghost use Rattle.vg_top.specs.InstructionFile.{entries_or_refusal};
ghost use Rattle.vg_top.specs.Lift.{AreLines, lines_of, listed};
ghost use Rattle.vg_request.specs.Request.{lift as lift_asked};
ghost use Rattle.vg_top.specs.Works.{Works, IsOfInstructions, ending_of};

use crate::ending::{Ending, FileNumber};
use crate::files::{INSTRUCTIONS_LIMIT, fetch};
use crate::instruction_file::catalog_of_text;
use std::alloc::Global;
use vg_lift_text::list_entries;
use vg_outside::Shelf;

/// The lines on all instances of the entries of a file's text.
fn lines_of_text(alloc: Global, text: &[u8]) -> Result<Vec<u8>, Ending>
    ensures told { Tells AreLines result (lines_of (entries_or_refusal first_file (file_of
        text.now))) }
    ensures refusal { IfErr result (IsOfInstructions first_file) }
{
    let catalog = match catalog_of_text(alloc, FileNumber(1), text) {
        Ok(catalog) => catalog,
        Err(ending) => return Err(ending),
    };
    match list_entries(alloc, &catalog) {
        Ok(bytes) => Ok(bytes),
        Err(_) => Err(Ending::Memory),
    }
}

/// The lines on all instances of the entries in a file: their lanes, and why packs cannot call them.
/// A file that is refused gives the ending of `fetch` or `Instructions` (status 3). `Memory` (12) comes
/// for want of memory, also at the bounds of `list_entries`.
pub fn lift<S: Shelf>(alloc: Global, shelf: &mut S, instructions: &str) -> Result<Vec<u8>, Ending>
    ensures told { IfSome (S.holds shelf.old) (λ held.
        Tells AreLines result (listed held instructions.now)) }
    ensures shelf { Works S.Shelf (Some (lift_asked instructions.now))
        shelf.old shelf.new (ending_of result) }
{
    let file = fetch(
        alloc,
        shelf,
        FileNumber(1),
        instructions,
        INSTRUCTIONS_LIMIT,
    )?;
    lines_of_text(alloc, file.as_slice())
}
