//! Texts of files, and what becomes of them. An `@` marks the place of a fault, and is no part of
//! the text.

use std::alloc::Global;
use std::process::Abort;
use std::test::Fail;
use vg_catalog::parse_file;
use vg_text::place::{Place, place_after};

/// Asserts that the text without its `@` is refused with this number at the place of the `@`.
/// `shown` tells the text.
pub fn refuse_marked(
    rt: &impl Abort,
    alloc: Global,
    marked: &[u8],
    number: u32,
    shown: &str,
) -> Result<(), Fail> {
    assert!(rt; marked.len() <= 1_000_000);
    let Some(at) = marked.iter().position(|byte| *byte == b'@') else {
        return Err("a mark is missing".into());
    };
    assert!(rt; at < marked.len());
    let (front, behind) = marked.split_at(at);
    let mut text = Vec::from_slice(alloc, front)?;
    text.extend_from_slice(&behind[1..])?;
    let place = place_after(Place { line: 1, column: 1 }, front);
    refuse_at(rt, alloc, text.as_slice(), number, place, shown)
}

/// Asserts that a text is refused with this number at this place.
pub fn refuse_at(
    rt: &impl Abort,
    alloc: Global,
    text: &[u8],
    number: u32,
    place: Place,
    shown: &str,
) -> Result<(), Fail> {
    let Err(fault) = parse_file(alloc, text) else {
        return Err("a file that is to be refused is accepted".into());
    };
    let is_right = fault.number() == Some(number) && fault.place() == Some(place);
    assert!(rt; is_right, "{shown}");
    Ok(())
}

/// Asserts that a text, which has an `@`, is refused with this number.
pub fn refuse_text(rt: &impl Abort, alloc: Global, number: u32, text: &str) -> Result<(), Fail> {
    refuse_marked(rt, alloc, text.as_bytes(), number, text)
}

/// Asserts the same of each line as a text.
pub fn refuse_all(rt: &impl Abort, alloc: Global, number: u32, texts: &str) -> Result<(), Fail> {
    for text in texts.trim().lines() {
        refuse_text(rt, alloc, number, text.trim())?;
    }
    Ok(())
}

/// A front, a text and an end as one text.
fn framed(alloc: Global, front: &str, text: &str, end: &str) -> Result<Vec<u8>, Fail> {
    let mut whole = Vec::from_slice(alloc, front.as_bytes())?;
    whole.extend_from_slice(text.as_bytes())?;
    whole.extend_from_slice(end.as_bytes())?;
    Ok(whole)
}

/// Asserts that a text is refused with this number between a front and an end.
pub fn refuse_between(
    rt: &impl Abort,
    alloc: Global,
    number: u32,
    front: &str,
    text: &str,
    end: &str,
) -> Result<(), Fail> {
    let whole = framed(alloc, front, text, end)?;
    refuse_marked(rt, alloc, whole.as_slice(), number, text)
}

/// Asserts the same of each line as a text.
pub fn refuse_framed(
    rt: &impl Abort,
    alloc: Global,
    number: u32,
    front: &str,
    texts: &str,
    end: &str,
) -> Result<(), Fail> {
    for text in texts.trim().lines() {
        refuse_between(rt, alloc, number, front, text.trim(), end)?;
    }
    Ok(())
}

/// Asserts that a text is a header between a front and an end: the first fault is the `)` after
/// it.
pub fn read_header(
    rt: &impl Abort,
    alloc: Global,
    front: &str,
    text: &str,
    end: &str,
) -> Result<(), Fail> {
    let mut whole = framed(alloc, front, text, end)?;
    whole.extend_from_slice(b" OPERATION @)")?;
    refuse_marked(rt, alloc, whole.as_slice(), 2, text)
}

/// Asserts the same of each line as a text.
pub fn read_headers(
    rt: &impl Abort,
    alloc: Global,
    front: &str,
    texts: &str,
    end: &str,
) -> Result<(), Fail> {
    for text in texts.trim().lines() {
        read_header(rt, alloc, front, text.trim(), end)?;
    }
    Ok(())
}

/// Asserts that a text is accepted between a front and an end.
fn accept_between(
    rt: &impl Abort,
    alloc: Global,
    front: &str,
    text: &str,
    end: &str,
) -> Result<(), Fail> {
    let whole = framed(alloc, front, text, end)?;
    assert!(rt; parse_file(alloc, whole.as_slice()).is_ok(), "{text}");
    Ok(())
}

/// Asserts the same of each line as a text.
pub fn accept_framed(
    rt: &impl Abort,
    alloc: Global,
    front: &str,
    texts: &str,
    end: &str,
) -> Result<(), Fail> {
    for text in texts.trim().lines() {
        accept_between(rt, alloc, front, text.trim(), end)?;
    }
    Ok(())
}

/// The header of operations that are judged: `dst`, `a` and `b` of 128 bits, `s` of 128 signed
/// bits, `w` of 256 bits.
pub const JUDGED: &str = concat!(
    "INSTRUCTION x PARAM a 128 UI8 PARAM b 128 UI8 PARAM s 128 SI8 PARAM w 256 UI32",
    " RESULT dst 128 UI8 EXTENSION SSE2 COST 1 OPERATION\n",
);

/// Asserts that each line is an operation that is refused with this number.
pub fn refuse_operations(
    rt: &impl Abort,
    alloc: Global,
    number: u32,
    texts: &str,
) -> Result<(), Fail> {
    refuse_framed(rt, alloc, number, JUDGED, texts, " END")
}

/// Asserts that an operation is accepted.
pub fn accept_operation(rt: &impl Abort, alloc: Global, text: &str) -> Result<(), Fail> {
    accept_between(rt, alloc, JUDGED, text, " END")
}

/// Asserts that each line is an operation that is accepted.
pub fn accept_operations(rt: &impl Abort, alloc: Global, texts: &str) -> Result<(), Fail> {
    accept_framed(rt, alloc, JUDGED, texts, " END")
}
