//! The entries of an instruction file of a request.

ghost use Rattle.std.specs.Prelude.{IfErr};
ghost use Rattle.vg_catalog.specs.Files.{file_of};
ghost use Rattle.vg_top.specs.Files.{Tells};
ghost use Rattle.vg_top.specs.InstructionFile.{entries_or_refusal, AreEntries};
ghost use Rattle.vg_top.specs.Works.{IsOfInstructions};

use crate::ending::{Ending, FileNumber};
use std::alloc::Global;
use vg_catalog::{Catalog, CatalogFault, parse_file};

/// The entries of the text of the request's file of this number. `Instructions` (status 3) with the
/// first fault of the text, or `Memory` (12) for want of memory alone.
pub fn catalog_of_text(alloc: Global, number: FileNumber, text: &[u8]) -> Result<Catalog, Ending>
    ensures told { Tells AreEntries result (entries_or_refusal number (file_of text.now)) }
    ensures refusal { IfErr result (IsOfInstructions number) }
{
    match parse_file(alloc, text) {
        Ok(catalog) => Ok(catalog),
        Err(CatalogFault::Memory(_)) => Err(Ending::Memory),
        Err(fault) => Err(Ending::Instructions(number, fault)),
    }
}
