//! Worked cases of `compile`, `explain` and `eval` on loops, and of `run` on looped texts.

use crate::desk::{Desk, expect_endings, expect_left};
use crate::memories::{cut_line, lines_of};
use std::alloc::Global;
use std::process::Abort;
use std::test::Fail;
use vg_top::Status;

const COPY: &[u8] =
    b"loop copy(d: noalias ptr, p: ptr, n: i32) times n step d 4, p 4 { store32(d + 0, load32(p + 0)); }";

const LOOPED: &[u8] =
    b"looped copy(d: ptr, p: ptr, n: i32) times n step d 4, p 4 block 16\n%v0 = vload 64 p+0\nvstore 64 d+0 %v0\nend cost 2 scalar 32\nrest\n%s0:i32 = load p+0\nstore d+0 %s0\nend cost 2 scalar 2\nend looped\n";

/// A block that does another thing than the rest, so that the memory tells which turns were of blocks.
const SIDES: &str =
    "looped sides(p: ptr, n: i8) times n step p 1 block 3|store p+0 1i8|end cost 1 scalar 1|rest|store p+0 2i8|end cost 1 scalar 1|end looped|";

/// A desk with this loop, its looped text and this memory.
fn desk_with(alloc: Global, source: &[u8], looped: &[u8], memory: &[u8]) -> Result<Desk, Fail> {
    let mut desk = Desk::holding(alloc, 1000, &[("i", b""), ("k", source)])?;
    desk.shelf.put("p", looped)?;
    desk.shelf.put("m", memory)?;
    Ok(desk)
}

/// Asserts what lines, with a `|` between them, leave of a memory.
fn expect_copied(
    rt: &impl Abort,
    alloc: Global,
    lines: &str,
    memory: &[u8],
    left: &[u8],
) -> Result<(), Fail> {
    for line in lines.split('|') {
        let mut desk = desk_with(alloc, COPY, LOOPED, memory)?;
        desk.expect(rt, line, Status::Ok, left, b"")?;
    }
    Ok(())
}

/// A row is a kernel file, an arrow, and the refusal of `compile`.
fn expect_refusal(rt: &impl Abort, alloc: Global, words: &str, row: &str) -> Result<(), Fail> {
    let (source, line) = cut_line(row)?;
    let err = format!(in alloc; "vegen: kernel: {line}\n")?;
    let mut desk = desk_with(alloc, source.as_bytes(), b"", b"")?;
    desk.expect(rt, words, Status::KernelRefused, b"", err.as_bytes())
}

fn expect_refusals(rt: &impl Abort, alloc: Global, words: &str, rows: &str) -> Result<(), Fail> {
    for row in rows.lines() {
        expect_refusal(rt, alloc, words, row)?;
    }
    Ok(())
}

#[test]
fn loops_and_their_looped_texts(rt: HostRuntime) -> Result<(), Fail> {
    let alloc = rt.alloc();
    let mut desk = desk_with(alloc, COPY, b"", b"")?;
    desk.expect(&rt, "compile i k", Status::Ok, LOOPED, b"")?;
    let mut desk = desk_with(alloc, COPY, b"", b"")?;
    desk.expect(
        &rt,
        "explain i k",
        Status::Ok,
        b"pack store 64 d+0\npack load 64 p+0\nplan cost 2 plain 2 scalar 32\n",
        b"",
    )
}

/// Puts so many numbers from 0 on after others.
fn count_to(bytes: &mut Vec<u8>, count: u8) -> Result<(), Fail> {
    for byte in 0..count {
        bytes.push(byte)?;
    }
    Ok(())
}

/// The numbers from 0 on, once or twice.
fn counted(alloc: Global, first: u8, second: u8) -> Result<Vec<u8>, Fail> {
    let mut bytes = Vec::new(alloc);
    count_to(&mut bytes, first)?;
    count_to(&mut bytes, second)?;
    Ok(bytes)
}

/// Asserts what comes of a copy of 17 double words, and of none.
fn expect_copies(rt: &impl Abort, alloc: Global, memory: &[u8]) -> Result<(), Fail> {
    let left = counted(alloc, 80, 68)?;
    let all = "run i p m p=0 d=80 n=17|eval k m p=0 d=80 n=17";
    expect_copied(rt, alloc, all, memory, left.as_slice())?;
    let none = "run i p m p=0 d=80 n=0|eval k m n=0 p=0 d=80";
    expect_copied(rt, alloc, none, memory, memory)
}

#[test]
fn loops_and_looped_texts_that_are_run(rt: HostRuntime) -> Result<(), Fail> {
    let memory = counted(rt.alloc(), 148, 0)?;
    expect_copies(&rt, rt.alloc(), memory.as_slice())?;
    let rows = "run i p m p=0 d=80 n=18 => 3 => Trap => trap
        eval k m p=0 d=80 n=18 => 2 => Trap => trap
        eval k m d=18446744073709551615 p=0 n=1 => 2 => BindingsRefused => bindings
        run i p m d=18446744073709551612 p=0 n=1 => 3 => BindingsRefused => bindings
        run i p m d=18446744073709551611 p=0 n=1 => 3 => Trap => trap
        run i p m d=0 p=0 => 3 => BindingsRefused => bindings";
    let files: [(&str, &[u8]); 4] = [
        ("i", b""),
        ("k", COPY),
        ("p", LOOPED),
        ("m", memory.as_slice()),
    ];
    expect_endings(&rt, rt.alloc(), &files, rows)
}

#[test]
fn blocks_come_before_the_turns_that_are_left_over(rt: HostRuntime) -> Result<(), Fail> {
    let sides = lines_of(rt.alloc(), SIDES, b'|')?;
    let files: [(&str, &[u8]); 3] = [("i", b""), ("k", b""), ("p", sides.as_slice())];
    let memories = "9*9 => 1 9 9 1 9 9 2 2 9";
    expect_left(&rt, rt.alloc(), &files, "run i p m p=0 n=8", memories, 3)
}

#[test]
fn loops_that_are_refused(rt: HostRuntime) -> Result<(), Fail> {
    let rows =
        "loop l(d: ptr, p: ptr, n: i8) times n step p 4 { store8(d, 1i8); } x => 11 NoMovingStore at 1:66
        loop l(p: ptr, n: i8) times p step p 4 { store8(p, 1i8); } => 5 WidthMismatch at 1:29
        loop l(p: ptr, n: i8) times n step p 0 { store8(p, 1i8); } => 6 LiteralRange at 1:38
        loop => 2 Shape at 1:5
        loops l() { } => 2 Shape at 1:1";
    expect_refusals(&rt, rt.alloc(), "compile i k", rows)?;
    expect_refusals(&rt, rt.alloc(), "explain i k", rows)?;
    // Without more plans guards are for kernels alone: every other fault comes first.
    let guarded = " loop l(p: ptr, n: i8) times n step p 1 { store8(p, 1i8); } => 12 LoopHere at 1:1
        loop l(p: ptr, n: i8) times n step p 0 { store8(p, 1i8); } => 6 LiteralRange at 1:38";
    expect_refusals(&rt, rt.alloc(), "compile --guard i k", guarded)
}
