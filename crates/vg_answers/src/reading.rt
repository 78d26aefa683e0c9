//! A library of a text.

ghost use Rattle.std.specs.Prelude.{◌≡◌, ◌≢◌, Ok, IfErr, IfOk};
ghost use Rattle.vg_answers.specs.Answered.{IsRefusedBy, IsOfTexts};
ghost use Rattle.vg_answers.specs.Told.{entries_told, AreKept};
ghost use Rattle.vg_library.specs.Kept.{entries_kept, set_kept};
ghost use Rattle.vg_top.specs.Files.{Tells};

use crate::report::{Report, put_none, put_refusal};
use bitflags::Flags;
use std::alloc::Global;
use vg_catalog::Extensions;
use vg_library::Library;
use vg_top::{Ending, FileNumber, INSTRUCTIONS_LIMIT, catalog_of_text};

/// The library of a text, or why there is none.
fn library_of(alloc: Global, text: &[u8], extensions: u32) -> Result<Library, Ending>
    ensures told { Tells AreKept result (entries_told extensions text.now) }
    ensures set { IfOk result (λ l. set_kept l ≡ extensions) }
    ensures refusal { IfErr result IsOfTexts }
{
    if extensions > 1023 {
        return Err(Ending::Usage);
    }
    if text.len() as u64 > INSTRUCTIONS_LIMIT {
        return Err(Ending::TooLarge(FileNumber(1)));
    }
    let catalog = match catalog_of_text(alloc, FileNumber(1), text) {
        Ok(catalog) => catalog,
        Err(ending) => return Err(ending),
    };
    let allowed = Extensions::from_bits_retain(extensions as u16);
    match Library::new(alloc, catalog, allowed) {
        Ok(library) => Ok(library),
        Err(_) => Err(Ending::Memory),
    }
}

/// The library of the entries of an instruction file with this text, of which those may be called whose
/// extension is in the set: bit i stands for the extension at place i of their list.
///
/// Else the status, and the report tells of the refusal: 2 where the set has a bit of no extension, 3 where
/// the text is refused, 11 where it has more than 1,048,576 bytes, 12 for want of memory, also at the bounds
/// of `descriptions_of`.
pub fn read(
    alloc: Global,
    text: &[u8],
    extensions: u32,
    report: &mut Report,
) -> Result<Library, u32>
    ensures entries { IfOk result (λ l. entries_told extensions text.now ≡ Ok (entries_kept l)) }
    ensures set { IfOk result (λ l. set_kept l ≡ extensions) }
    ensures status { IfErr result (λ status. status ≢ 0) }
    ensures told { IfErr result (λ status. status ≢ 12
        → IsRefusedBy (entries_told extensions text.now) status report.new) }
{
    report.count = 0;
    match library_of(alloc, text, extensions) {
        Ok(library) => {
            put_none(report);
            Ok(library)
        }
        Err(ending) => {
            put_refusal(report, &ending);
            Err(ending.status().code() as u32)
        }
    }
}
