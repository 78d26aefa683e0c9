//! Reads and judges a file.

ghost use Rattle.std.specs.Prelude.{◌≡◌, ◌≤◌, List, [], length, IfOk, Ok, if◌then◌else◌};
ghost use Rattle.vg_text.specs.Words.{reading_of};
ghost use Rattle.vg_pseudo.specs.Operations.{operation_at};
ghost use Rattle.vg_pseudo.specs.Tree.{operation_of};
ghost use Rattle.vg_catalog.specs.Catalogs.{entries_in};
ghost use Rattle.vg_catalog.specs.Comments.{is_in_comment};
ghost use Rattle.vg_catalog.specs.declared.fault.CatalogFault.TheVariants as fault;
ghost use Rattle.vg_catalog.specs.Entries.{Entry, entry_of, instances, instances_of, is_known, name_of};
ghost use Rattle.vg_catalog.specs.Files.{as_text, judged, entry_at, entries_from, file_of};
ghost use Rattle.vg_catalog.specs.Gives.{Gives, Reads};
ghost use Rattle.vg_catalog.specs.Grammar.{IsFile};
ghost use Rattle.vg_catalog.specs.Lexing.{left_of};

use crate::catalog::Catalog;
use crate::comments::is_in_comment;
use crate::fault::CatalogFault;
use crate::header_reading::read_header;
use crate::reader::Reader;
use std::alloc::Global;
use vg_names::{narrow_headers_are_written, operations_that_are_read_are_written};
use vg_pseudo::{Header, Operation, parse_operation};
use vg_pseudo_laws::what_is_read_is_in_the_grammar;
use vg_range::{Checked, check};
use vg_text::Place;

/// The operation of an entry, up to its END.
fn operation(alloc: Global, reader: &mut Reader<'_>) -> Result<Operation, CatalogFault>
    ensures read { Reads operation_of (left_of reader.new) result
        (as_text (operation_at (left_of reader.old))) }
{
    what_is_read_is_in_the_grammar();
    let mut lexer = reader.lexer;
    let operation = parse_operation(alloc, &mut lexer)?;
    *reader = Reader {
        text: reader.text,
        lexer,
    };
    Ok(operation)
}

/// The entry, if it is accepted.
fn judge(alloc: Global, header: Header, operation: Operation) -> Result<Checked, CatalogFault>
    ensures exact { Gives entry_of result (judged header (operation_of operation)) }
{
    let checked = check(alloc, header, operation)?;
    Ok(checked)
}

/// An entry that begins at this place, after those of the catalogue.
#[tactic(auto, unfolding(crate::specs::Files::entry_at))]
fn entry(
    alloc: Global,
    catalog: Catalog,
    place: Place,
    reader: &mut Reader<'_>,
) -> Result<Catalog, CatalogFault>
    ensures read { Reads entries_in (left_of reader.new) result
        (entry_at place (entries_in catalog) (left_of reader.old)) }
{
    operations_that_are_read_are_written();
    narrow_headers_are_written();
    let header = read_header(alloc, &catalog, reader)?;
    if !catalog.has_room(&header.imm) {
        return Err(CatalogFault::TooMany { place });
    }
    let operation = operation(alloc, reader)?;
    let checked = judge(alloc, header, operation)?;
    let catalog = catalog.and(alloc, checked)?;
    Ok(catalog)
}

/// What is wrong at the place of a byte, name or number that is no token, where no entry more may
/// stand.
fn fault_at_end(text: &[u8], place: Place) -> CatalogFault
    ensures { result ≡ (if is_in_comment text.now place then fault.Token place else fault.TooMany
        place) }
{
    if is_in_comment(text, place) {
        CatalogFault::Token { place }
    } else {
        CatalogFault::TooMany { place }
    }
}

/// The end of the file, where no entry more may stand.
#[tactic(auto, unfolding(crate::specs::Files::entries_from))]
fn end(catalog: Catalog, reader: Reader<'_>) -> Result<Catalog, CatalogFault>
    ensures read { Gives entries_in result
        (entries_from 0 (entries_in catalog) (left_of reader.entry)) }
{
    let text = reader.text;
    let mut lexer = reader.lexer;
    match lexer.next() {
        Ok(token) if token.kind.is_end() => Ok(catalog),
        Ok(token) => Err(CatalogFault::TooMany { place: token.place }),
        Err(place) => Err(fault_at_end(text, place)),
    }
}

/// All entries, 1,024 at most.
fn entries(alloc: Global, text: &[u8]) -> Result<Catalog, CatalogFault>
    requires { length text.now ≤ 1048576 }
    ensures read { Gives entries_in result (entries_from 1024 [] (reading_of text.now)) }
{
    let mut reader = Reader::new(text);
    let mut catalog = Catalog::new(alloc);
    let mut room: u32 = 1024;
    'entries: while room > 0 {
        let mut ahead = reader;
        let word = match ahead.next() {
            Ok(word) => word,
            Err(fault) => return Err(fault),
        };
        if word.is_end {
            return Ok(catalog);
        }
        catalog = match entry(alloc, catalog, word.place, &mut reader) {
            Ok(catalog) => catalog,
            Err(fault) => return Err(fault),
        };
        room -= 1;
    }
    end(catalog, reader)
}

/// The entries of a file, or its first fault.
#[tactic(auto, unfolding(crate::specs::Files::file_of))]
fn read(alloc: Global, text: &[u8]) -> Result<Catalog, CatalogFault>
    ensures exact { Gives entries_in result (file_of text.now) }
{
    if text.len() > 1_048_576 {
        return Err(CatalogFault::TooLarge {
            place: Place { line: 1, column: 1 },
        });
    }
    entries(alloc, text)
}

/// Reads and judges a file.
///
/// Entries are judged one after the other, each in these steps: its header, from left to right; the
/// number of instances; the text of its operation, from left to right; the names in it; its
/// instances. The first fault is the answer, with its place. `TooLarge` comes exactly where the
/// file has more than 1,048,576 bytes. `Memory` says nothing of the file. Each entry of the
/// catalogue is accepted.
pub fn parse_file(alloc: Global, text: &[u8]) -> Result<Catalog, CatalogFault>
    // What the reader answers: the entries in their order, or the first fault and its place.
    ensures exact { Gives entries_in result (file_of text.now) }
    // What is read is a file of these entries.
    ensures sound { IfOk result (λ c. IsFile text.now (entries_in c)) }
    // A file of entries is read as these entries, unless memory ran out.
    ensures complete { (entries : List Entry) → IsFile text.now entries →
        Gives entries_in result (Ok entries) }
{
    read(alloc, text)
}
