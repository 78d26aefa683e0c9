//! Operations whose calls, statements and functions or operators nest as deep as they may, each in
//! the others: what judges them needs little of a usual stack.

use crate::file_texts::JUDGED;
use std::alloc::Global;
use std::process::Abort;
use std::test::Fail;
use vg_catalog::parse_file;

/// How operands nest: what stands before one and after it, and how often.
#[derive(Clone, Copy)]
struct Nest {
    before: &'static str,
    behind: &'static str,
    times: u32,
}

/// A text so many times.
fn add_times(text: &mut Vec<u8>, part: &str, times: u32) -> Result<(), Fail> {
    for _ in 0..times {
        text.extend_from_slice(part.as_bytes())?;
    }
    Ok(())
}

/// Adds an assignment in 63 IFs: 64 statements, one in the other.
fn add_statement(
    text: &mut Vec<u8>,
    condition: &str,
    target: &str,
    nest: Nest,
    operand: &str,
) -> Result<(), Fail> {
    add_times(text, condition, 63)?;
    text.extend_from_slice(target.as_bytes())?;
    add_times(text, nest.before, nest.times)?;
    text.extend_from_slice(operand.as_bytes())?;
    add_times(text, nest.behind, nest.times)?;
    add_times(text, " FI", 63)
}

/// Adds what stands behind the head of a DEFINE that calls the one before it; the first calls none.
fn add_body(alloc: Global, text: &mut Vec<u8>, nest: Nest, number: u32) -> Result<(), Fail> {
    let operand = match number {
        1 => format!(in alloc; "p[7:0]")?,
        _ => format!(in alloc; "f{}(p[7:0])", number.saturating_sub(1))?,
    };
    add_statement(text, "IF p[0] ", "n := ", nest, operand.as_str())?;
    text.extend_from_slice(b" RETURN n } ")?;
    Ok(())
}

/// Adds 64 DEFINEs, each of which calls the one before it.
fn add_defines(alloc: Global, text: &mut Vec<u8>, nest: Nest) -> Result<(), Fail> {
    for number in 1u32..=64 {
        let head = format!(in alloc; "DEFINE f{number}(p[7:0]) {{ ")?;
        text.extend_from_slice(head.as_bytes())?;
        add_body(alloc, text, nest, number)?;
    }
    Ok(())
}

/// Asserts that the deepest operation of such operands is accepted.
fn accept_deepest(rt: &impl Abort, alloc: Global, nest: Nest) -> Result<(), Fail> {
    let mut text = Vec::from_slice(alloc, JUDGED.as_bytes())?;
    add_defines(alloc, &mut text, nest)?;
    add_statement(&mut text, "IF a[0] ", "dst[7:0] := ", nest, "f64(a[7:0])")?;
    text.extend_from_slice(b" END")?;
    assert!(rt; parse_file(alloc, text.as_slice()).is_ok());
    Ok(())
}

#[test]
fn functions_in_calls(rt: HostRuntime) -> Result<(), Fail> {
    let nest = Nest {
        before: "ABS(",
        behind: ")",
        times: 60,
    };
    accept_deepest(&rt, rt.alloc(), nest)
}

#[test]
fn operators_in_calls(rt: HostRuntime) -> Result<(), Fail> {
    let nest = Nest {
        before: "",
        behind: " + 1",
        times: 60,
    };
    accept_deepest(&rt, rt.alloc(), nest)
}
