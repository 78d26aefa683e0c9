//! As many entries and instances as there may be, and one more; files that end too early.

use crate::file_texts::refuse_marked;
use std::alloc::Global;
use std::process::Abort;
use std::test::Fail;
use vg_catalog::parse_file;

const ENTRY: &str = " PARAM a 128 UI8 RESULT dst 128 UI8 EXTENSION SSE2 COST 1 OPERATION END\n";

const INSTANCES: &str = concat!(
    " PARAM a 128 UI8 IMM k 0 to 255 RESULT dst 128 UI8 EXTENSION SSE2 COST 1 OPERATION",
    " dst[0] := k[0] END\n",
);

/// Three letters that tell a number.
fn letters(number: u32) -> [u8; 3] {
    [
        b'a' + (number / 256 % 16) as u8,
        b'a' + (number / 16 % 16) as u8,
        b'a' + (number % 16) as u8,
    ]
}

/// Entries with names of their own, each with the same words after its name.
fn entries(alloc: Global, count: u32, behind: &str) -> Result<Vec<u8>, Fail> {
    let mut text = Vec::new(alloc);
    for number in 0..count {
        text.extend_from_slice(b"INSTRUCTION ")?;
        text.extend_from_slice(letters(number).as_slice())?;
        text.extend_from_slice(behind.as_bytes())?;
    }
    Ok(text)
}

fn accept_count(rt: &impl Abort, alloc: Global, text: &[u8], count: usize) -> Result<(), Fail> {
    let Ok(catalog) = parse_file(alloc, text) else {
        return Err("a file is refused".into());
    };
    assert!(rt; catalog.entries().len() == count);
    Ok(())
}

/// Asserts that a text with this behind it is refused with this number at the `@`.
fn refuse_behind(
    rt: &impl Abort,
    alloc: Global,
    text: &[u8],
    number: u32,
    behind: &[u8],
    shown: &str,
) -> Result<(), Fail> {
    let mut longer = Vec::from_slice(alloc, text)?;
    longer.extend_from_slice(behind)?;
    refuse_marked(rt, alloc, longer.as_slice(), number, shown)
}

/// Asserts what more than the most entries are refused with.
fn refuse_one_entry_more(rt: &impl Abort, alloc: Global, text: &[u8]) -> Result<(), Fail> {
    let rows: [(u32, &[u8]); 6] = [
        (14, b"@FOO"),
        (14, b" // one more\n @INSTRUCTION\x80"),
        (14, b"@\x80"),
        (
            14,
            b"@a2345678901234567890123456789012345678901234567890123456789012345",
        ),
        (14, b"@170141183460469231731687303715884105728"),
        (1, b"\n // a comment @\x80"),
    ];
    for (number, behind) in rows {
        refuse_behind(rt, alloc, text, number, behind, "one entry more")?;
    }
    Ok(())
}

#[test]
fn as_many_entries_as_there_may_be(rt: HostRuntime) -> Result<(), Fail> {
    let mut text = entries(rt.alloc(), 1_024, ENTRY)?;
    accept_count(&rt, rt.alloc(), text.as_slice(), 1_024)?;
    refuse_one_entry_more(&rt, rt.alloc(), text.as_slice())?;
    text.extend_from_slice(b" // nothing more")?;
    accept_count(&rt, rt.alloc(), text.as_slice(), 1_024)
}

/// An instance more.
const ONE_MORE: &str = concat!(
    "@INSTRUCTION zzz PARAM a 128 UI8 RESULT dst 128 UI8 ",
    "EXTENSION SSE2 COST 1 OPERATION )",
);

#[test]
fn as_many_instances_as_there_may_be(rt: HostRuntime) -> Result<(), Fail> {
    let alloc = rt.alloc();
    let text = entries(alloc, 16, INSTANCES)?;
    let text = text.as_slice();
    accept_count(&rt, alloc, text, 16)?;
    refuse_behind(
        &rt,
        alloc,
        text,
        14,
        ONE_MORE.as_bytes(),
        "one instance more",
    )
}

/// How many fronts of two entries are accepted, each of no entry, or of whole ones up to the line's
/// end or behind it. `first` is where the first entry ends.
fn count_accepted(rt: &impl Abort, alloc: Global, text: &[u8], first: usize) -> u32 {
    let mut accepted = 0u32;
    for length in 0..text.len() {
        if parse_file(alloc, &text[..length]).is_ok() {
            accepted = accepted.saturating_add(1);
            let whole = length == 0 || length == first || length + 1 == first;
            assert!(rt; whole || length + 1 == text.len());
        }
    }
    accepted
}

#[test]
fn files_that_end_too_early(rt: HostRuntime) -> Result<(), Fail> {
    let first = entries(rt.alloc(), 1, ENTRY)?.len();
    let text = entries(rt.alloc(), 2, ENTRY)?;
    assert!(rt; count_accepted(&rt, rt.alloc(), text.as_slice(), first) == 4);
    Ok(())
}
