//! Worked cases of `check` with `--more`.

use crate::desk::{Desk, USAGE, expect_each};
use crate::memories::{cut, cut_line, lines_of};
use std::alloc::Global;
use std::process::Abort;
use std::test::Fail;
use vg_top::Status;

const FIVE: &str = "kernel five(d: ptr, p: ptr) { store32(d + 0, load32(p + 0) * 5i32); }";

const SHIFTED: &str =
    "program five(d: ptr, p: ptr)|%s0:i32 = load p+0|%s1:i32 = shl %s0 2|%s2:i32 = add %s0 %s1|store d+0 %s2|end cost 4 scalar 4|";

/// A desk with no instructions, a kernel, and a program in which each `|` ends a line.
fn desk_with(alloc: Global, kernel: &str, program: &str) -> Result<Desk, Fail> {
    let body = lines_of(alloc, program, b'|')?;
    let mut desk = Desk::with_kernel(alloc, kernel.as_bytes())?;
    desk.shelf.put("p", body.as_slice())?;
    Ok(desk)
}

/// Asserts that a line is answered by `same`, or that it ends by this difference.
fn expect_told(rt: &impl Abort, mut desk: Desk, line: &str, told: &str) -> Result<(), Fail> {
    if told == "same" {
        desk.expect(rt, line, Status::Ok, b"same\n", b"")?;
    } else {
        let err = format!(in desk.alloc; "vegen: differs: {told}\n")?;
        desk.expect(rt, line, Status::Differs, b"", err.as_str().as_bytes())?;
    }
    desk.expect_reads(rt, 3);
    Ok(())
}

/// A row is a kernel, an arrow, a program, an arrow, what is told without `--more`, an arrow, and what
/// is told with it.
fn expect_row(rt: &impl Abort, alloc: Global, row: &str) -> Result<(), Fail> {
    let (kernel, row) = cut_line(row)?;
    let (program, row) = cut(row)?;
    let (plain, wider) = cut(row)?;
    expect_told(rt, desk_with(alloc, kernel, program)?, "check i k p", plain)?;
    expect_told(
        rt,
        desk_with(alloc, kernel, program)?,
        "check --more i k p",
        wider,
    )
}

fn expect_rows(rt: &impl Abort, alloc: Global, rows: &str) -> Result<(), Fail> {
    for row in rows.lines() {
        expect_row(rt, alloc, row)?;
    }
    Ok(())
}

#[test]
fn terms_of_one_sum_are_the_same_with_more(rt: HostRuntime) -> Result<(), Fail> {
    let rows =
        "kernel five(d: ptr, p: ptr) { store32(d + 0, load32(p + 0) * 5i32); } => program five(d: ptr, p: ptr)|%s0:i32 = load p+0|%s1:i32 = shl %s0 2|%s2:i32 = add %s0 %s1|store d+0 %s2|end cost 4 scalar 4| => value 2 (mul32 p+0@0:32 5:32) (add32 p+0@0:32 (mul32 p+0@0:32 4:32)) => same
        kernel twice(d: ptr, p: ptr) { store8(d + 0, load8(p + 0) * 2i8); } => program twice(d: ptr, p: ptr)|%s0:i8 = load p+0|%s1:i8 = add %s0 %s0|store d+0 %s1|end cost 3 scalar 3| => value 2 (mul8 p+0@0:8 2:8) (add8 p+0@0:8 p+0@0:8) => same
        kernel parts(d: ptr, p: ptr) { store16(d + 0, load16(p + 0)); } => program parts(d: ptr, p: ptr)|%s0:i16 = load p+0|%s1:i8 = trunc %s0|%s2:i16 = lshr %s0 8|%s3:i8 = trunc %s2|store d+0 %s1|store d+1 %s3|end cost 6 scalar 2| => value 1 p+0@0:16 (cat16 (trunc8 (lshr16 p+0@0:16 8)) (trunc8 p+0@0:16)) => same";
    expect_rows(&rt, rt.alloc(), rows)
}

#[test]
fn other_values_differ_with_more(rt: HostRuntime) -> Result<(), Fail> {
    let rows =
        "kernel five(d: ptr, p: ptr) { store32(d + 0, load32(p + 0) * 5i32); } => program five(d: ptr, p: ptr)|%s0:i32 = load p+0|%s1:i32 = shl %s0 3|%s2:i32 = add %s0 %s1|store d+0 %s2|end cost 4 scalar 4| => value 2 (mul32 p+0@0:32 5:32) (add32 p+0@0:32 (mul32 p+0@0:32 8:32)) => value 2 (mul32 p+0@0:32 5:32) (add32 p+0@0:32 (mul32 p+0@0:32 8:32))
        kernel inc(d: ptr, k: i8) { store8(d + 0, k + 1i8); } => program inc(d: ptr, k: i8)|%s0:i8 = add k 2i8|store d+0 %s0|end cost 2 scalar 2| => value 2 (add8 k:8 1:8) (add8 k:8 2:8) => value 2 (add8 k:8 1:8) (add8 k:8 2:8)
        kernel parts(d: ptr, p: ptr) { store16(d + 0, load16(p + 0)); } => program parts(d: ptr, p: ptr)|%s0:i16 = load p+0|%s1:i8 = trunc %s0|%s2:i16 = lshr %s0 8|%s3:i8 = trunc %s2|store d+1 %s1|store d+0 %s3|end cost 6 scalar 2| => value 1 p+0@0:16 (cat16 (trunc8 p+0@0:16) (trunc8 (lshr16 p+0@0:16 8))) => value 1 p+0@0:16 (cat16 (trunc8 p+0@0:16) (trunc8 (lshr16 p+0@0:16 8)))";
    expect_rows(&rt, rt.alloc(), rows)
}

#[test]
fn what_comes_before_values_is_told_alike(rt: HostRuntime) -> Result<(), Fail> {
    let rows =
        "kernel copy(d: ptr, s: ptr) { store32(d + 0, load32(s + 0)); } => program copy(d: ptr, s: ptr)|%s0:i32 = load s+0|store d+0 %s0|end cost 2 scalar 2| => same => same
        kernel copy(d: ptr, s: ptr) { store32(d + 0, load32(s + 0)); } => program copy(d: ptr, s: ptr)|%s0:i32 = load s+4|store d+0 %s0|end cost 2 scalar 2| => access load s+0 kernel 1 program 0 => access load s+0 kernel 1 program 0
        kernel two(p: ptr, q: ptr) { store32(p + 0, load32(q + 0)); store32(p + 4, load32(q + 4)); } => program two(p: ptr, q: ptr)|%v0 = vload 8 q+0|vstore 8 p+0 %v0|end cost 2 scalar 4| => order 1 2 => order 1 2
        kernel put(d: ptr, k: i8) { store8(d, k); } => program put(d: ptr, k: i16)|store d+0 1i8|end cost 1 scalar 1| => params => params";
    expect_rows(&rt, rt.alloc(), rows)
}

#[test]
fn the_word_stands_anywhere(rt: HostRuntime) -> Result<(), Fail> {
    let lines = "check --more i k p
        check i --more k p
        check i k --more p
        check i k p --more";
    for line in lines.lines() {
        expect_told(&rt, desk_with(rt.alloc(), FIVE, SHIFTED)?, line, "same")?;
    }
    Ok(())
}

#[test]
fn words_that_are_no_request(rt: HostRuntime) -> Result<(), Fail> {
    let lines = "check --more
        check --more i k
        check i k p p --more
        check --more --more i k p
        check --more i k p --more
        check --more=1 i k p
        check i k p --more=
        check more i k p
        check -more i k p
        check --more --guard i k p
        check --more --width=1 i k p
        check --more --width 1 i k p
        check i k p --with SSE2
        check --more i k p d=0";
    expect_each(
        &rt,
        rt.alloc(),
        &[("i", b""), ("k", FIVE.as_bytes())],
        USAGE,
        lines,
    )
}
