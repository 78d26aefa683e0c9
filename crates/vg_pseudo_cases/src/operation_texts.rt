//! Texts of operations made of pieces, and what becomes of them. An `@` marks the place of a fault,
//! and is no part of the text.

use std::alloc::Global;
use std::process::Abort;
use std::test::Fail;
use vg_pseudo::{Operation, parse_operation};
use vg_text::Lexer;
use vg_text::place::{Place, place_after};

/// Writes the text that a row stands for. Between two backquotes a row has a count, a space, and
/// what stands there so many times.
fn spell_out(text: &mut Vec<u8>, row: &str) -> Result<(), Fail> {
    for (index, piece) in row.split('`').enumerate() {
        if index % 2 == 0 {
            text.extend_from_slice(piece.as_bytes())?;
        } else {
            repeat(text, piece)?;
        }
    }
    Ok(())
}

fn repeat(text: &mut Vec<u8>, piece: &str) -> Result<(), Fail> {
    let Some((count, piece)) = piece.split_once(' ') else {
        return Err("a count is missing".into());
    };
    for _ in 0..count.parse::<u32>()? {
        text.extend_from_slice(piece.as_bytes())?;
    }
    Ok(())
}

/// The operation of a text, after which nothing may stand.
pub fn read(rt: &impl Abort, alloc: Global, text: &[u8]) -> Result<Operation, Fail> {
    assert!(rt; text.len() <= 10_000_000);
    let mut lexer = Lexer::new(text);
    let Ok(operation) = parse_operation(alloc, &mut lexer) else {
        return Err("a text of an operation is refused".into());
    };
    let is_read_whole = matches!(lexer.next(), Ok(last) if last.kind.is_end());
    assert!(rt; is_read_whole, "the lexer is not behind END");
    Ok(operation)
}

/// Asserts that a text is refused with this number at this place, and that its first token is still
/// to be read.
pub fn refuse_at(
    rt: &impl Abort,
    alloc: Global,
    text: &[u8],
    number: u32,
    place: Place,
    shown: &str,
) -> Result<(), Fail> {
    assert!(rt; text.len() <= 10_000_000);
    let mut lexer = Lexer::new(text);
    let Err(fault) = parse_operation(alloc, &mut lexer) else {
        return Err("a text that is no operation is read".into());
    };
    let is_right = fault.number() == Some(number) && fault.place() == Some(place);
    assert!(rt; is_right, "{shown}");
    if let Ok(first) = lexer.next() {
        assert!(rt; first.start == 0, "{shown}");
    }
    Ok(())
}

/// Asserts that the text without its `@` is refused with this number at the place of the `@`.
/// `shown` tells the text.
fn refuse_marked(
    rt: &impl Abort,
    alloc: Global,
    marked: &[u8],
    number: u32,
    shown: &str,
) -> Result<(), Fail> {
    assert!(rt; marked.len() <= 1_000_000);
    let Some(at) = marked.iter().position(|byte| *byte == b'@') else {
        return Err("a mark is missing".into());
    };
    assert!(rt; at < marked.len());
    let (front, behind) = marked.split_at(at);
    let mut text = Vec::from_slice(alloc, front)?;
    text.extend_from_slice(&behind[1..])?;
    let place = place_after(Place { line: 1, column: 1 }, front);
    refuse_at(rt, alloc, text.as_slice(), number, place, shown)
}

/// Asserts of the text that a row stands for that its first fault has this number, or that it is an
/// operation, where the number is 0.
fn judge(rt: &impl Abort, alloc: Global, row: &str, number: u32) -> Result<(), Fail> {
    let mut text = Vec::new(alloc);
    spell_out(&mut text, row)?;
    if number != 0 {
        return refuse_marked(rt, alloc, text.as_slice(), number, row);
    }
    let _operation = read(rt, alloc, text.as_slice())?;
    Ok(())
}

/// Asserts the same of each line as a row.
pub fn judge_all(rt: &impl Abort, alloc: Global, number: u32, rows: &str) -> Result<(), Fail> {
    for row in rows.trim().lines() {
        judge(rt, alloc, row.trim_start(), number)?;
    }
    Ok(())
}

/// Each line is a row, an arrow and its number: asserts the same of each.
pub fn judge_each(rt: &impl Abort, alloc: Global, rows: &str) -> Result<(), Fail> {
    for line in rows.trim().lines() {
        let Some((row, number)) = line.trim_start().rsplit_once(" => ") else {
            return Err("an arrow is missing".into());
        };
        judge(rt, alloc, row, number.parse::<u32>()?)?;
    }
    Ok(())
}
