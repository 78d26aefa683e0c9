//! Texts with a mark.

ghost use Rattle.std.specs.Prelude.{IfOk, ◌≡◌, ◌==◌, ◌++◌, map, position};
ghost use Rattle.vg_marked.specs.Bars.{byte_of};
ghost use Rattle.vg_marked.specs.Marked.{shown, unmarked};

use crate::bars::lines_of;
use std::alloc::{AllocError, Global};
use vg_text::place::{Place, place_after};

/// A text without its mark.
#[derive(Drop)]
pub struct Marked {
    /// The bytes in front of the mark, and those after it.
    pub text: Vec<u8>,
    /// The place of what stands after the mark.
    pub place: Place,
}

/// How many bytes stand in front of the first mark of a row.
fn find_mark(row: &[u8]) -> Option<usize>
    ensures { result ≡ position (λ b. b == 64) row.now }
{
    row.iter().position(|byte| *byte == b'@')
}

/// The text of a row without its first `@`. None where it has none, or more than 1,000,000 bytes.
pub fn unmarked(alloc: Global, row: &[u8]) -> Result<Option<Marked>, AllocError>
    ensures { IfOk result (λ m. shown m ≡ unmarked row.now) }
{
    if row.len() > 1_000_000 {
        return Ok(None);
    }
    let Some(at) = find_mark(row) else {
        return Ok(None);
    };
    let front = &row[..at];
    let mut text = Vec::from_slice(alloc, front)?;
    text.extend_from_slice(&row[at + 1..])?;
    let place = place_after(Place { line: 1, column: 1 }, front);
    Ok(Some(Marked { text, place }))
}

/// The text of a row between two others without its first `@`, in all of which a `|` stands for a line
/// feed. None where they have none, or more than 1,000,000 bytes.
pub fn unmarked_between(
    alloc: Global,
    front: &[u8],
    row: &[u8],
    end: &[u8],
) -> Result<Option<Marked>, AllocError>
    ensures { IfOk result (λ m. shown m ≡ unmarked (map byte_of ((front.now ++ row.now) ++
        end.now))) }
{
    let mut whole = Vec::from_slice(alloc, front)?;
    whole.extend_from_slice(row)?;
    whole.extend_from_slice(end)?;
    let lines = lines_of(alloc, whole.as_slice())?;
    unmarked(alloc, lines.as_slice())
}
