//! Worked cases of `compile --guard --more` on loops, and of `run` on guarded loops.

use crate::desk::{Desk, expect_endings, expect_left};
use crate::memories::{cut, cut_line, lines_of};
use std::alloc::Global;
use std::process::Abort;
use std::test::Fail;
use vg_top::Status;

const COPY: &[u8] =
    b"loop copy(d: ptr, s: ptr, n: i8) times n step d 1, s 1 { store8(d, load8(s)); }";

/// Sixteen bytes are one register where those that are loaded are apart from those that are stored;
/// else each is loaded behind the stores in front of it.
const COPY_TEXT: &str = "guardedloop copy(d: ptr, s: ptr, n: i8) times n step d 1, s 1 block 16
check disjoint d+0 16 s+0 16
then
%v0 = vload 16 s+0
vstore 16 d+0 %v0
end cost 2 scalar 32
else
%s0:i8 = load s+0
store d+0 %s0
%s1:i8 = load s+1
store d+1 %s1
%s2:i8 = load s+2
store d+2 %s2
%s3:i8 = load s+3
store d+3 %s3
%s4:i8 = load s+4
store d+4 %s4
%s5:i8 = load s+5
store d+5 %s5
%s6:i8 = load s+6
store d+6 %s6
%s7:i8 = load s+7
store d+7 %s7
%s8:i8 = load s+8
store d+8 %s8
%s9:i8 = load s+9
store d+9 %s9
%s10:i8 = load s+10
store d+10 %s10
%s11:i8 = load s+11
store d+11 %s11
%s12:i8 = load s+12
store d+12 %s12
%s13:i8 = load s+13
store d+13 %s13
%s14:i8 = load s+14
store d+14 %s14
%s15:i8 = load s+15
store d+15 %s15
end cost 32 scalar 32
end checks 1
rest
%s0:i8 = load s+0
store d+0 %s0
end cost 2 scalar 2
end looped
";

/// Two sides and a rest that do different things, so that the memory tells what ran where.
const SIDES: &str =
    "guardedloop sides(p: ptr, q: ptr, n: i8) times n step p 1, q 2 block 2|check disjoint p+0 2 q+0 3|then|store p+0 1i8|end cost 1 scalar 1|else|store p+0 2i8|end cost 1 scalar 1|end checks 1|rest|store p+0 3i8|end cost 1 scalar 1|end looped|";

#[test]
fn loops_and_their_guarded_loops(rt: HostRuntime) -> Result<(), Fail> {
    for line in ["compile --guard --more i k", "compile i --more k --guard"] {
        let mut desk = Desk::with_kernel(rt.alloc(), COPY)?;
        desk.expect(&rt, line, Status::Ok, COPY_TEXT.as_bytes(), b"")?;
    }
    Ok(())
}

/// A row is a kernel file, an arrow, and the refusal of `compile` with guards.
fn expect_refusal(rt: &impl Abort, alloc: Global, words: &str, row: &str) -> Result<(), Fail> {
    let (source, line) = cut_line(row)?;
    let err = format!(in alloc; "vegen: kernel: {line}\n")?;
    let mut desk = Desk::with_kernel(alloc, source.as_bytes())?;
    desk.expect(rt, words, Status::KernelRefused, b"", err.as_bytes())
}

#[test]
fn guards_are_made_of_loops_with_more_plans_alone(rt: HostRuntime) -> Result<(), Fail> {
    let alloc = rt.alloc();
    let none = "loop l(p: ptr, n: i8) times n step p 1 { store8(p, 1i8); } => 12 LoopHere at 1:1";
    expect_refusal(&rt, alloc, "compile --guard i k", none)?;
    let rows = "loop l(p: ptr, n: i8) times n step p 0 { store8(p, 1i8); } => 6 LiteralRange at 1:38
        loop l(p: ptr, q: ptr, n: i8) times n step p 1 { store8(q, 1i8); } => 11 NoMovingStore at 1:66
        loops l() { } => 2 Shape at 1:1";
    for row in rows.lines() {
        expect_refusal(&rt, alloc, "compile --guard --more i k", row)?;
        expect_refusal(&rt, alloc, "compile --guard i k", row)?;
    }
    Ok(())
}

/// Asserts what the copy and its guarded loop leave. A row is bindings, an arrow, a memory, an arrow,
/// and what is left of it.
fn expect_copied(rt: &impl Abort, alloc: Global, row: &str) -> Result<(), Fail> {
    let (bindings, memories) = cut_line(row)?;
    let files: [(&str, &[u8]); 3] = [("i", b""), ("k", COPY), ("p", COPY_TEXT.as_bytes())];
    let run = format!(in alloc; "run i p m {bindings}")?;
    expect_left(rt, alloc, &files, run.as_str(), memories, 3)?;
    let eval = format!(in alloc; "eval k m {bindings}")?;
    expect_left(rt, alloc, &files, eval.as_str(), memories, 2)
}

/// Of bytes that are apart, equal, and one apart: what is stored is loaded again where the copy goes
/// that way.
#[test]
fn bytes_are_copied_wherever_they_lie(rt: HostRuntime) -> Result<(), Fail> {
    let rows =
        "d=17 s=0 n=0 => 1 2 3 4 5 6 7 8 9 10 11 12 13 14 15 16 17 17*0 => 1 2 3 4 5 6 7 8 9 10 11 12 13 14 15 16 17 17*0
        d=17 s=0 n=15 => 1 2 3 4 5 6 7 8 9 10 11 12 13 14 15 16 17 17*0 => 1 2 3 4 5 6 7 8 9 10 11 12 13 14 15 16 17 1 2 3 4 5 6 7 8 9 10 11 12 13 14 15 0 0
        d=17 s=0 n=16 => 1 2 3 4 5 6 7 8 9 10 11 12 13 14 15 16 17 17*0 => 1 2 3 4 5 6 7 8 9 10 11 12 13 14 15 16 17 1 2 3 4 5 6 7 8 9 10 11 12 13 14 15 16 0
        d=17 s=0 n=17 => 1 2 3 4 5 6 7 8 9 10 11 12 13 14 15 16 17 17*0 => 1 2 3 4 5 6 7 8 9 10 11 12 13 14 15 16 17 1 2 3 4 5 6 7 8 9 10 11 12 13 14 15 16 17
        d=0 s=0 n=17 => 1 2 3 4 5 6 7 8 9 10 11 12 13 14 15 16 17 => 1 2 3 4 5 6 7 8 9 10 11 12 13 14 15 16 17
        d=1 s=0 n=0 => 5 17*0 => 5 17*0
        d=1 s=0 n=15 => 5 17*0 => 16*5 0 0
        d=1 s=0 n=16 => 5 17*0 => 17*5 0
        d=1 s=0 n=17 => 5 17*0 => 18*5
        d=0 s=1 n=16 => 1 2 3 4 5 6 7 8 9 10 11 12 13 14 15 16 17 18 => 2 3 4 5 6 7 8 9 10 11 12 13 14 15 16 17 17 18
        d=0 s=1 n=17 => 1 2 3 4 5 6 7 8 9 10 11 12 13 14 15 16 17 18 => 2 3 4 5 6 7 8 9 10 11 12 13 14 15 16 17 18 18
        d=16 s=0 n=32 => 16*7 32*0 => 48*7
        d=15 s=0 n=33 => 7 14*6 33*0 => 7 14*6 7 14*6 7 14*6 7 6 6";
    for row in rows.lines() {
        expect_copied(&rt, rt.alloc(), row)?;
    }
    Ok(())
}

/// Asserts what the text of two sides and a rest leaves, of rows as above.
fn expect_sides(rt: &impl Abort, alloc: Global, rows: &str) -> Result<(), Fail> {
    let sides = lines_of(alloc, SIDES, b'|')?;
    for row in rows.lines() {
        let (bindings, memories) = cut_line(row)?;
        let files: [(&str, &[u8]); 2] = [("i", b""), ("p", sides.as_slice())];
        let line = format!(in alloc; "run i p m {bindings}")?;
        expect_left(rt, alloc, &files, line.as_str(), memories, 3)?;
    }
    Ok(())
}

/// The pointers approach each other, meet, and go apart.
#[test]
fn each_block_has_its_own_checks(rt: HostRuntime) -> Result<(), Fail> {
    let rows = "p=0 q=100 n=0 => 9 9 9 9 => 9 9 9 9
        p=0 q=100 n=1 => 9 9 9 9 => 3 9 9 9
        p=0 q=100 n=2 => 9 9 9 9 => 1 9 9 9
        p=0 q=100 n=3 => 9 9 9 9 => 1 9 3 9
        p=0 q=0 n=3 => 9 9 9 9 => 2 9 3 9
        p=4 q=0 n=9 => 14*9 => 4*9 1 9 2 9 2 9 1 9 3 9";
    expect_sides(&rt, rt.alloc(), rows)
}

#[test]
fn runs_that_are_refused_or_trap(rt: HostRuntime) -> Result<(), Fail> {
    let rows = "run i p m d=0 s=0 n=2 => 3 => Trap => trap
        run i p m d=1 s=0 n=16 => 3 => Trap => trap
        run i p m d=18446744073709551615 s=0 n=1 => 3 => BindingsRefused => bindings
        run i p m d=18446744073709551614 s=0 n=1 => 3 => Trap => trap
        run i p m d=0 s=0 => 3 => BindingsRefused => bindings
        check i k p => 3 => ProgramRefused => program: 2 Shape at 1:1";
    let files: [(&str, &[u8]); 4] = [
        ("i", b""),
        ("k", b"kernel copy(d: ptr) { store8(d, 1i8); }"),
        ("p", COPY_TEXT.as_bytes()),
        ("m", b"1"),
    ];
    expect_endings(&rt, rt.alloc(), &files, rows)
}

/// A row is a text, in which each `|` ends a line, an arrow, and the refusal of `run`.
fn expect_no_program(rt: &impl Abort, alloc: Global, row: &str) -> Result<(), Fail> {
    let (program, refusal) = cut(row.trim())?;
    let text = lines_of(alloc, program, b'|')?;
    let err = format!(in alloc; "vegen: program: {refusal}\n")?;
    let files: [(&str, &[u8]); 3] = [("i", b""), ("p", text.as_slice()), ("m", b"1")];
    let mut desk = Desk::holding(alloc, 1000, &files)?;
    desk.expect(
        rt,
        "run i p m x=1",
        Status::ProgramRefused,
        b"",
        err.as_bytes(),
    )
}

#[test]
fn texts_that_are_refused_at_their_line(rt: HostRuntime) -> Result<(), Fail> {
    for row in "guardedloop g(p: ptr, n: i8) times n step p 1 block 2|then|end cost 0 scalar 0|else|end cost 0 scalar 0|end checks 1|rest|end cost 0 scalar 0|end looped| => 8 Range at 6:12
        guardedloop g(p: ptr, q: ptr, n: i8) times n step p 1 block 2|check disjoint q+0 1 p+0 1|then| => 2 Shape at 2:22
        guardedloop g(p: ptr, n: i8) times n step p 1 block 2|then|end cost 0 scalar 0|else|end cost 0 scalar 0|end checks 0|end looped| => 2 Shape at 7:1
        guardedloop g(p: ptr, n: i8) times n step p 1 block 2|then|end cost 0 scalar 0|end checks 0| => 2 Shape at 4:1
        guardedloop g(p: ptr, n: i8) times n step p 1|then| => 2 Shape at 1:46
        guardedloop | => 2 Shape at 1:13
        guardedloop| => 2 Shape at 1:1
        guardedloops g()| => 2 Shape at 1:1"
        .lines()
    {
        expect_no_program(&rt, rt.alloc(), row)?;
    }
    Ok(())
}
