//! Worked cases of `compile --guard` and of `run` on guarded texts.

use crate::desk::{Desk, USAGE, expect_each, expect_left};
use crate::memories::{cut, cut_line, lines_of};
use std::alloc::Global;
use std::process::Abort;
use std::test::Fail;
use vg_top::Status;

const TWO: &[u8] =
    b"kernel two(p: ptr, q: ptr) { store32(p + 0, load32(q + 0)); store32(p + 4, load32(q + 4)); }";

const GUARDED: &[u8] =
    b"guarded two(p: ptr, q: ptr)\ncheck disjoint p+0 8 q+0 8\nthen\n%v0 = vload 8 q+0\nvstore 8 p+0 %v0\nend cost 2 scalar 4\nelse\n%s0:i32 = load q+0\nstore p+0 %s0\n%s1:i32 = load q+4\nstore p+4 %s1\nend cost 4 scalar 4\nend checks 1\n";

/// Two sides that do different things, so that the memory tells which side ran.
const SIDES: &str =
    "guarded sides(p: ptr, q: ptr)|check disjoint p+0 2 q+0 2|then|store p+0 1i8|end cost 1 scalar 1|else|store p+0 2i8|end cost 1 scalar 1|end checks 1|";

/// A desk with no instructions, this program and this memory.
fn desk_with(alloc: Global, program: &[u8], memory: &[u8]) -> Result<Desk, Fail> {
    let mut desk = Desk::holding(alloc, 1000, &[("i", b""), ("p", program)])?;
    desk.shelf.put("m", memory)?;
    Ok(desk)
}

/// A row is bindings, an arrow, a memory, an arrow, and what the program leaves of it.
fn expect_row(rt: &impl Abort, alloc: Global, program: &[u8], row: &str) -> Result<(), Fail> {
    let (bindings, memories) = cut_line(row)?;
    let line = format!(in alloc; "run i p m {bindings}")?;
    let files: [(&str, &[u8]); 2] = [("i", b""), ("p", program)];
    expect_left(rt, alloc, &files, line.as_str(), memories, 3)
}

/// Asserts the same of rows for the text of two sides.
fn expect_sides(rt: &impl Abort, alloc: Global, rows: &str) -> Result<(), Fail> {
    let sides = lines_of(alloc, SIDES, b'|')?;
    for row in rows.lines() {
        expect_row(rt, alloc, sides.as_slice(), row)?;
    }
    Ok(())
}

/// A row is a text, in which each `|` ends a line, an arrow, bindings, an arrow, a status, an arrow, and
/// the line on it.
fn expect_refusal(rt: &impl Abort, alloc: Global, row: &str) -> Result<(), Fail> {
    let (program, row) = cut_line(row)?;
    let (bindings, ending) = cut(row)?;
    let text = lines_of(alloc, program, b'|')?;
    let words = format!(in alloc; "run i p m {bindings}")?;
    let mut desk = desk_with(alloc, text.as_slice(), b"12345678")?;
    desk.expect_ending(rt, words.as_str(), ending)
}

#[test]
fn kernels_and_their_guarded_texts(rt: HostRuntime) -> Result<(), Fail> {
    for line in "compile --guard i k
        compile i k --guard
        compile i --guard --width 4 k --with SSE2"
        .lines()
    {
        let mut desk = Desk::with_kernel(rt.alloc(), TWO)?;
        desk.expect(&rt, line.trim(), Status::Ok, GUARDED, b"")?;
    }
    Ok(())
}

#[test]
fn guard_stands_once_and_behind_compile_alone(rt: HostRuntime) -> Result<(), Fail> {
    let lines = "compile --guard i k --guard
        compile --guard=1 i k
        compile --guard= i k
        compile --guards i k
        compile i k --width --guard
        compile i --guard
        explain --guard i k
        lift --guard i
        eval --guard k m
        run --guard i k m
        --guard compile i k";
    expect_each(&rt, rt.alloc(), &[("i", b""), ("k", TWO)], USAGE, lines)
}

#[test]
fn the_side_that_the_checks_name_is_run(rt: HostRuntime) -> Result<(), Fail> {
    let alloc = rt.alloc();
    expect_row(
        &rt,
        alloc,
        GUARDED,
        "p=4 q=0 => 1 2 3 4 5 6 7 8 9 10 11 12 => 1 2 3 4 1 2 3 4 1 2 3 4",
    )?;
    expect_row(
        &rt,
        alloc,
        GUARDED,
        "p=8 q=0 => 1 2 3 4 5 6 7 8 9 10 11 12 13 14 15 16 => 1 2 3 4 5 6 7 8 1 2 3 4 5 6 7 8",
    )?;
    // Ranges that touch are disjoint; at the end of the numbers nothing wraps.
    let rows = "p=0 q=2 => 9 9 9 9 => 1 9 9 9
        p=0 q=1 => 9 9 9 9 => 2 9 9 9
        p=2 q=0 => 9 9 9 9 => 9 9 1 9
        p=0 q=18446744073709551615 => 9 9 9 9 => 1 9 9 9";
    expect_sides(&rt, alloc, rows)
}

#[test]
fn guarded_texts_that_are_refused_or_trap(rt: HostRuntime) -> Result<(), Fail> {
    for row in "guarded g()|then|end cost 0 scalar 0|else|end cost 0 scalar 0|end checks 2| => x=1 => ProgramRefused => program: 8 Range at 6:12
        guarded g()|then|end cost 0 scalar 0|else|end cost 0 scalar 0|end checks 0| => k=1 => BindingsRefused => bindings
        guarded g(p: ptr)|then|store p+8 1i8|end cost 1 scalar 1|else|end cost 0 scalar 0|end checks 0| => p=0 => Trap => trap
        guarded| => x=1 => ProgramRefused => program: 2 Shape at 1:1
        guardedx g()| => x=1 => ProgramRefused => program: 2 Shape at 1:1
        guarded g(p: ptr)|check disjoint p+0 1 p+0 1| => x=1 => ProgramRefused => program: 2 Shape at 2:22"
        .lines()
    {
        expect_refusal(&rt, rt.alloc(), row)?;
    }
    Ok(())
}
