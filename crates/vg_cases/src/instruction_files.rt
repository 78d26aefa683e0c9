//! Instruction files of the commands: entries that are read, and the first refusal with its place.

use crate::desk::{Desk, expect_ended};
use crate::memories::{cut_line, lines_of};
use std::alloc::Global;
use std::process::Abort;
use std::test::Fail;
use vg_top::Status;

const NOTHING: &[u8] = b"kernel none() { }";

const PROGRAM: &[u8] = b"program none()\nend cost 0 scalar 0\n";

/// Lines 1 to 6 of an entry.
pub const HEADER: &str =
    "INSTRUCTION x\nPARAM a 128 SI32\nRESULT dst 128 SI32\nEXTENSION SSE2\nCOST 1\nOPERATION\n";

pub const ADD: &str =
    "INSTRUCTION _mm_add_epi32 PARAM a 128 SI32 PARAM b 128 SI32\nRESULT dst 128 SI32 EXTENSION SSE2 COST 1 OPERATION\nFOR j := 0 to 3\ni := j*32\ndst[i+31:i] := a[i+31:i] + b[i+31:i]\nENDFOR\nEND\n";

/// What `compile` says of this file.
fn expect_compile(
    rt: &impl Abort,
    alloc: Global,
    file: &[u8],
    status: Status,
    said: &[u8],
) -> Result<(), Fail> {
    let files: [(&str, &[u8]); 2] = [("i", file), ("k", NOTHING)];
    let mut desk = Desk::holding(alloc, 1 << 20, &files)?;
    let written: &[u8] = if said.is_empty() { PROGRAM } else { b"" };
    desk.expect(rt, "compile i k", status, written, said)
}

/// What `run` says of this file.
fn expect_run(
    rt: &impl Abort,
    alloc: Global,
    file: &[u8],
    status: Status,
    said: &[u8],
) -> Result<(), Fail> {
    let files: [(&str, &[u8]); 3] = [("i", file), ("p", PROGRAM), ("m", b"")];
    let mut desk = Desk::holding(alloc, 1 << 20, &files)?;
    desk.expect(rt, "run i p m", status, b"", said)
}

/// Both commands that read instructions read these two texts, one after the other, as their file.
fn expect_both(
    rt: &impl Abort,
    alloc: Global,
    front: &str,
    back: &[u8],
    status: Status,
    said: &[u8],
) -> Result<(), Fail> {
    let mut text = Vec::from_slice(alloc, front.as_bytes())?;
    text.extend_from_slice(back)?;
    expect_compile(rt, alloc, text.as_slice(), status, said)?;
    expect_run(rt, alloc, text.as_slice(), status, said)
}

#[test]
fn files_without_a_fault_change_nothing(rt: HostRuntime) -> Result<(), Fail> {
    let alloc = rt.alloc();
    expect_both(&rt, alloc, " ", b"\n", Status::Ok, b"")?;
    expect_both(&rt, alloc, "// a comment\n", b"", Status::Ok, b"")?;
    expect_both(&rt, alloc, ADD, b"", Status::Ok, b"")?;
    let copy = b"dst[31:0] := a[31:0]\nEND";
    expect_both(&rt, alloc, HEADER, copy, Status::Ok, b"")
}

/// Asserts what both commands say of these two texts, which are refused.
fn refused(
    rt: &impl Abort,
    alloc: Global,
    front: &str,
    back: &[u8],
    said: &str,
) -> Result<(), Fail> {
    let line = format!(in alloc; "vegen: instructions: {said}\n")?;
    let status = Status::InstructionsRefused;
    expect_both(rt, alloc, front, back, status, line.as_bytes())
}

/// Each row is the operation after the header, in which each `;` ends a line, an arrow, and what is
/// said.
fn refuse_operations(rt: &impl Abort, alloc: Global, rows: &str) -> Result<(), Fail> {
    for row in rows.trim().lines() {
        let (operation, said) = cut_line(row)?;
        let lines = lines_of(alloc, operation, b';')?;
        refused(rt, alloc, HEADER, lines.as_slice(), said)?;
    }
    Ok(())
}

// Two texts that are one file, and what is said of it.
const REFUSED: [(&str, &str, &str); 6] = [
    ("\u{80}", "", "1 Token at 1:1"),
    ("INSTRUCTION", "", "12 Header at 1:12"),
    ("INSTRUCTION x PARAM a 256 M512", "", "12 Header at 1:27"),
    (ADD, ADD, "13 DuplicateName at 8:13"),
    (
        "INSTRUCTION x PARAM a 128 SI32 RESULT dst 128 SI32 EXTENSION SSE9",
        "",
        "15 ExtensionUnknown at 1:62",
    ),
    (ADD, "END", "12 Header at 8:1"),
];

#[test]
fn the_first_refusal_is_told_with_its_place(rt: HostRuntime) -> Result<(), Fail> {
    for (front, back, said) in REFUSED {
        refused(&rt, rt.alloc(), front, back.as_bytes(), said)?;
    }
    refuse_operations(
        &rt,
        rt.alloc(),
        "
        FOR j := 0 to 3;END => 2 Shape at 8:1
        dst[31:0] := b[31:0];END => 4 UnknownName at 7:14
        dst[159:128] := a[31:0];END => 5 IndexOutside at 7:1
        dst[31+a[0]:0] := a[31:0];END => 6 DynamicIndex at 7:5
        dst[63:0] := (a[63:0] * a[63:0]) * 8;END => 8 TooWide at 7:14
        FOR j := 1 to 4097 ENDFOR;END => 9 TooLong at 7:1
        dst[31:0] := SignExtend8(a[15:0]);END => 10 BadExtend at 7:14
        t[3:0] := 1;dst[31:0] := t;END => 11 BareRegister at 8:14
    ",
    )
}

#[test]
fn nothing_behind_a_refused_file_is_read(rt: HostRuntime) -> Result<(), Fail> {
    let files: [(&str, &[u8]); 2] = [("i", b"INSTRUCTION"), ("k", b"no kernel")];
    let row = "1 => InstructionsRefused => instructions: 12 Header at 1:12";
    expect_ended(&rt, rt.alloc(), &files, "compile i k", row)
}
