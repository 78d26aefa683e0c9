//! Worked cases of `check`.

use crate::desk::{Desk, expect_endings};
use crate::hostile_cases::{KERNEL, PROGRAM};
use crate::memories::{cut, cut_line, lines_of};
use std::alloc::Global;
use std::process::Abort;
use std::test::Fail;
use vg_top::Status;

const MADD: &[u8] =
    b"INSTRUCTION _mm_madd_epi16 PARAM a 128 SI16 PARAM b 128 SI16\nRESULT dst 128 SI32 EXTENSION SSE2 COST 1 OPERATION\nFOR j := 0 to 3\n i := j*32\n dst[i+31:i] := SignExtend32(a[i+31:i+16]*b[i+31:i+16]) + SignExtend32(a[i+15:i]*b[i+15:i])\nENDFOR\ndst[MAX:128] := 0\nEND\n";

/// A table of bytes by index, whose lanes have no terms.
const SHUFFLE: &[u8] =
    b"INSTRUCTION pick PARAM a 128 UI8 PARAM b 128 UI8\nRESULT dst 128 UI8 EXTENSION SSE2 COST 1 OPERATION\nFOR j := 0 to 15\n i := j*8\n index := b[i+3:i]\n dst[i+7:i] := a[index*8+7:index*8]\nENDFOR\nEND\n";

const PRODUCTS: &str =
    "kernel madd(d: noalias ptr, p: ptr, q: ptr) { store32(d + 0, sext32(load16(p + 0)) * sext32(load16(q + 0)) + sext32(load16(p + 2)) * sext32(load16(q + 2))); store32(d + 4, sext32(load16(p + 4)) * sext32(load16(q + 4)) + sext32(load16(p + 6)) * sext32(load16(q + 6))); store32(d + 8, sext32(load16(p + 8)) * sext32(load16(q + 8)) + sext32(load16(p + 10)) * sext32(load16(q + 10))); store32(d + 12, sext32(load16(p + 12)) * sext32(load16(q + 12)) + sext32(load16(p + 14)) * sext32(load16(q + 14))); }";

const COPY: &str = "kernel copy(d: ptr, s: ptr) { store32(d + 0, load32(s + 0)); }";

const COPIED: &str =
    "program copy(d: ptr, s: ptr)|%s0:i32 = load s+0|store d+0 %s0|end cost 2 scalar 2|";

/// A desk with these files. In the program each `|` ends a line.
fn desk_with(
    alloc: Global,
    instructions: &[u8],
    kernel: &str,
    program: &str,
) -> Result<Desk, Fail> {
    let body = lines_of(alloc, program, b'|')?;
    let mut desk = Desk::holding(alloc, 1000, &[("i", instructions)])?;
    desk.shelf.put("k", kernel.as_bytes())?;
    desk.shelf.put("p", body.as_slice())?;
    Ok(desk)
}

/// Asserts that the answer is `same`.
fn expect_same(
    rt: &impl Abort,
    alloc: Global,
    instructions: &[u8],
    kernel: &str,
    program: &str,
) -> Result<(), Fail> {
    let mut desk = desk_with(alloc, instructions, kernel, program)?;
    desk.expect(rt, "check i k p", Status::Ok, b"same\n", b"")?;
    desk.expect_reads(rt, 3);
    Ok(())
}

/// Asserts that all files are read and that this is the first difference.
fn expect_difference(
    rt: &impl Abort,
    alloc: Global,
    instructions: &[u8],
    kernel: &str,
    program: &str,
    difference: &str,
) -> Result<(), Fail> {
    let err = format!(in alloc; "vegen: differs: {difference}\n")?;
    let mut desk = desk_with(alloc, instructions, kernel, program)?;
    desk.expect(
        rt,
        "check i k p",
        Status::Differs,
        b"",
        err.as_str().as_bytes(),
    )?;
    desk.expect_reads(rt, 3);
    Ok(())
}

/// A row is a kernel, an arrow, a program, an arrow, and the first difference, or `same`.
fn expect_row(rt: &impl Abort, alloc: Global, row: &str) -> Result<(), Fail> {
    let (kernel, row) = cut_line(row)?;
    let (program, difference) = cut(row)?;
    if difference == "same" {
        expect_same(rt, alloc, b"", kernel, program)
    } else {
        expect_difference(rt, alloc, b"", kernel, program, difference)
    }
}

fn expect_rows(rt: &impl Abort, alloc: Global, rows: &str) -> Result<(), Fail> {
    for row in rows.lines() {
        expect_row(rt, alloc, row)?;
    }
    Ok(())
}

#[test]
fn programs_that_mean_their_kernels(rt: HostRuntime) -> Result<(), Fail> {
    let alloc = rt.alloc();
    expect_same(&rt, alloc, b"", COPY, COPIED)?;
    let madd =
        "program madd(d: ptr, p: ptr, q: ptr)|%v0 = vload 16 p+0|%v1 = vload 16 q+0|%v2 = call _mm_madd_epi16 %v0 %v1|vstore 16 d+0 %v2|end cost 4 scalar 48|";
    expect_same(&rt, alloc, MADD, PRODUCTS, madd)?;
    let rows =
        "kernel two(p: noalias ptr, q: ptr) { store32(p + 0, load32(q + 0)); store32(p + 4, load32(q + 4)); } => program two(p: ptr, q: ptr)|%v0 = vload 8 q+0|vstore 8 p+0 %v0|end cost 2 scalar 4| => same
        kernel word(d: ptr) { store16(d - 2, 513i16); } => program word(d: ptr)|store d-1 2i8|store d-2 1i8|end cost 2 scalar 1| => same
        kernel x(d: noalias ptr, p: ptr) { x = load8(p); y = load8(p); store8(d, x); store8(d + 1, y); } => program x(d: ptr, p: ptr)|%s0:i8 = load p+0|%s1:i8 = load p+0|store d+1 %s0|store d+0 %s1|end cost 4 scalar 4| => same";
    expect_rows(&rt, alloc, rows)
}

#[test]
fn programs_that_differ(rt: HostRuntime) -> Result<(), Fail> {
    let alloc = rt.alloc();
    let rows =
        "kernel copy(d: ptr, s: ptr) { store32(d + 0, load32(s + 0)); } => program copy(d: ptr, s: ptr)|%s0:i32 = load s+4|store d+0 %s0|end cost 2 scalar 2| => access load s+0 kernel 1 program 0
        kernel two(p: ptr, q: ptr) { store32(p + 0, load32(q + 0)); store32(p + 4, load32(q + 4)); } => program two(p: ptr, q: ptr)|%v0 = vload 8 q+0|vstore 8 p+0 %v0|end cost 2 scalar 4| => order 1 2
        kernel inc(d: ptr, k: i8) { store8(d + 0, k + 1i8); } => program inc(d: ptr, k: i8)|%s0:i8 = add k 2i8|store d+0 %s0|end cost 2 scalar 2| => value 2 (add8 k:8 1:8) (add8 k:8 2:8)
        kernel none() { } => program copy(d: ptr, s: ptr)|%s0:i32 = load s+0|store d+0 %s0|end cost 2 scalar 2| => params
        kernel put(d: ptr) { store16(d - 2, 513i16); } => program put(d: ptr)|store d-2 513i16|store d-1 2i8|end cost 2 scalar 1| => access store d-1 kernel 1 program 2
        kernel put(d: ptr, k: i8) { store8(d, k); } => program put(d: ptr, k: i16)|store d+0 1i8|end cost 1 scalar 1| => params
        kernel sum(d: ptr, q: ptr) { x = load8(q + 1); store8(d, x); y = load8(q + 1); store8(d + 1, y); } => program sum(d: ptr, q: ptr)|%s0:i8 = load q+1|store d+0 %s0|%s1:i8 = load q+1|store d+1 %s0|end cost 4 scalar 4| => value 3 q+1@2:8 q+1@0:8";
    expect_rows(&rt, alloc, rows)?;
    let picked =
        "program copy(d: ptr, s: ptr)|%v0 = vload 4 s+0|%v1 = call pick %v0 %v0|vstore 4 d+0 %v0|end cost 3 scalar 2|";
    expect_difference(&rt, alloc, SHUFFLE, COPY, picked, "opaque 3")
}

/// The files of a copy, and others.
const FILES: [(&str, &[u8]); 10] = [
    ("i", b""),
    ("k", KERNEL),
    ("p", PROGRAM),
    ("bad_i", b"INSTRUCTION"),
    ("bad_k", b""),
    ("bad_p", b""),
    (
        "loop",
        b"loop l(p: ptr, n: i8) times n step p 1 { store8(p, 1i8); }",
    ),
    (
        "bad_loop",
        b"loop l(p: ptr, n: i8) times n step p 0 { store8(p, 1i8); }",
    ),
    ("guarded", b"guarded copy(d: ptr, s: ptr)\n"),
    ("looped", b"looped copy(d: ptr, s: ptr)\n"),
];

#[test]
fn files_are_judged_one_after_the_other(rt: HostRuntime) -> Result<(), Fail> {
    let rows = "check => 0 => Usage => usage
        check i k => 0 => Usage => usage
        check i k p p => 0 => Usage => usage
        check i k p d=0 => 0 => Usage => usage
        check --guard i k p => 0 => Usage => usage
        check i k --width=1 => 0 => Usage => usage
        check none none none => 1 => InputAbsent => absent: none
        check bad_i none none => 1 => InstructionsRefused => instructions: 12 Header at 1:12
        check i none none => 2 => InputAbsent => absent: none
        check i bad_k none => 2 => KernelRefused => kernel: 2 Shape at 1:1
        check i bad_loop none => 2 => KernelRefused => kernel: 6 LiteralRange at 1:38
        check i loop none => 2 => KernelRefused => kernel: 12 LoopHere at 1:1
        check i k none => 3 => InputAbsent => absent: none
        check i k bad_p => 3 => ProgramRefused => program: 2 Shape at 1:1
        check i k guarded => 3 => ProgramRefused => program: 2 Shape at 1:1
        check i k looped => 3 => ProgramRefused => program: 2 Shape at 1:1";
    expect_endings(&rt, rt.alloc(), &FILES, rows)
}
