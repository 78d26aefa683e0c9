//! Operations that are long or deeply nested.

use crate::file_texts::JUDGED;
use std::alloc::Global;
use std::process::Abort;
use std::test::Fail;
use vg_catalog::parse_file;

/// A text so many times.
fn add_times(text: &mut Vec<u8>, part: &str, times: u32) -> Result<(), Fail> {
    for _ in 0..times {
        text.extend_from_slice(part.as_bytes())?;
    }
    Ok(())
}

/// Asserts that an operation of repeated parts is accepted.
fn accept_parts(rt: &impl Abort, alloc: Global, parts: &[(&str, u32)]) -> Result<(), Fail> {
    let mut text = Vec::from_slice(alloc, JUDGED.as_bytes())?;
    for (part, times) in parts {
        add_times(&mut text, part, *times)?;
    }
    text.extend_from_slice(b" END")?;
    assert!(rt; parse_file(alloc, text.as_slice()).is_ok());
    Ok(())
}

#[test]
fn calls_in_calls(rt: HostRuntime) -> Result<(), Fail> {
    let parts = [("dst := ", 1), ("ABS(", 60), ("s[7:0]", 1), (")", 60)];
    accept_parts(&rt, rt.alloc(), &parts)
}

#[test]
fn statements_that_do_nothing(rt: HostRuntime) -> Result<(), Fail> {
    accept_parts(&rt, rt.alloc(), &[("IF 0 FI ", 10_000)])?;
    accept_parts(&rt, rt.alloc(), &[("IF a[0] FI ", 10_000)])?;
    accept_parts(&rt, rt.alloc(), &[("CASE a[0] OF ESAC ", 10_000)])
}

#[test]
fn long_chains(rt: HostRuntime) -> Result<(), Fail> {
    let ways = [
        ("IF a[0] ", 1),
        ("ELSE IF a[0] ", 20_000),
        ("ELSE dst[0] := 1 FI", 1),
    ];
    accept_parts(&rt, rt.alloc(), &ways)?;
    let arms = [("CASE a[7:0] OF ", 1), ("7: ", 20_000), ("ESAC", 1)];
    accept_parts(&rt, rt.alloc(), &arms)
}

#[test]
fn long_loops(rt: HostRuntime) -> Result<(), Fail> {
    let turns = [
        ("FOR j := 1 to 2048 dst[7:0] := a[7:0] ", 1),
        ("XOR (b[7:0] + 1) ", 50),
        ("ENDFOR", 1),
    ];
    accept_parts(&rt, rt.alloc(), &turns)
}
