//! Files without entries, and files that are too large.

use crate::file_texts::refuse_at;
use std::alloc::Global;
use std::process::Abort;
use std::test::Fail;
use vg_catalog::parse_file;
use vg_text::Place;

fn blank(rt: &impl Abort, alloc: Global, text: &[u8]) -> Result<(), Fail> {
    let Ok(catalog) = parse_file(alloc, text) else {
        return Err("a file without entries is refused".into());
    };
    let is_empty = catalog.entries().is_empty() && catalog.headers().is_empty();
    assert!(rt; is_empty && catalog.find(b"x").is_none());
    Ok(())
}

fn repeated(alloc: Global, byte: u8, count: usize) -> Result<Vec<u8>, Fail> {
    let mut text = Vec::new(alloc);
    for _ in 0..count {
        text.push(byte)?;
    }
    Ok(text)
}

#[test]
fn files_without_entries(rt: HostRuntime) -> Result<(), Fail> {
    blank(&rt, rt.alloc(), b"")?;
    blank(&rt, rt.alloc(), b"\n")?;
    blank(&rt, rt.alloc(), b" \t\r\n")?;
    blank(&rt, rt.alloc(), b"// INSTRUCTION")?;
    blank(&rt, rt.alloc(), b"// a\n  // b\n")
}

#[test]
fn the_largest_file(rt: HostRuntime) -> Result<(), Fail> {
    let text = repeated(rt.alloc(), b' ', 1_048_576)?;
    blank(&rt, rt.alloc(), text.as_slice())
}

/// Asserts that one byte more than the largest file, all of one kind, is refused at the first.
fn refuse_repeated(rt: &impl Abort, alloc: Global, byte: u8, shown: &str) -> Result<(), Fail> {
    let first = Place { line: 1, column: 1 };
    let text = repeated(alloc, byte, 1_048_577)?;
    refuse_at(rt, alloc, text.as_slice(), 16, first, shown)
}

#[test]
fn files_that_are_too_large(rt: HostRuntime) -> Result<(), Fail> {
    refuse_repeated(&rt, rt.alloc(), b' ', "spaces")?;
    refuse_repeated(&rt, rt.alloc(), b'\n', "lines")?;
    refuse_repeated(&rt, rt.alloc(), 0x80, "strays")
}

#[test]
fn a_stray_byte_at_the_end_of_the_largest_file(rt: HostRuntime) -> Result<(), Fail> {
    let mut text = repeated(rt.alloc(), b' ', 1_048_575)?;
    text.push(0x80)?;
    let last = Place {
        line: 1,
        column: 1_048_576,
    };
    refuse_at(&rt, rt.alloc(), text.as_slice(), 1, last, "a stray byte")
}
