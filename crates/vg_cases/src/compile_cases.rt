//! Worked cases of `compile`.

use crate::desk::{Desk, USAGE, expect_each, expect_ended};
use crate::memories::{cut_line, lines_of};
use std::alloc::Global;
use std::process::Abort;
use std::test::Fail;
use vg_top::Status;

const COPY: &[u8] = b"kernel copy(d: ptr, s: ptr) { store32(d + 0, load32(s + 0)); }";

const COPY_TEXT: &[u8] =
    b"program copy(d: ptr, s: ptr)\n%s0:i32 = load s+0\nstore d+0 %s0\nend cost 2 scalar 2\n";

/// Asserts the program that a kernel becomes.
fn expect_program(rt: &impl Abort, alloc: Global, kernel: &[u8], text: &[u8]) -> Result<(), Fail> {
    let mut desk = Desk::with_kernel(alloc, kernel)?;
    desk.expect(rt, "compile i k", Status::Ok, text, b"")
}

/// A row is a kernel, an arrow, and its program, in which each `|` ends a line.
fn expect_row(rt: &impl Abort, alloc: Global, row: &str) -> Result<(), Fail> {
    let (kernel, program) = cut_line(row)?;
    let text = lines_of(alloc, program, b'|')?;
    expect_program(rt, alloc, kernel.as_bytes(), text.as_slice())
}

#[test]
fn kernels_and_their_programs(rt: HostRuntime) -> Result<(), Fail> {
    let alloc = rt.alloc();
    expect_program(&rt, alloc, COPY, COPY_TEXT)?;
    expect_program(
        &rt,
        alloc,
        b"kernel far(d: ptr) {\n  // both ends of the offsets\n  store8(d - 2147483648, load8(d + 2147483647));\n  store64(d - 1, load64(d - 0));\n}\n",
        b"program far(d: ptr)\n%s0:i8 = load d+2147483647\nstore d-2147483648 %s0\n%s1:i64 = load d+0\nstore d-1 %s1\nend cost 4 scalar 4\n",
    )?;
    // A load that nothing uses stays.
    // Operands from left to right; a name of an argument or of a literal is that.
    let rows = "
        kernel none() { } => program none()|end cost 0 scalar 0|
        kernel two(p: ptr, q: ptr) { store32(p + 0, load32(q + 0)); store32(p + 4, load32(q + 4)); } => program two(p: ptr, q: ptr)|%s0:i32 = load q+0|store p+0 %s0|%s1:i32 = load q+4|store p+4 %s1|end cost 4 scalar 4|
        kernel overlapping_stores(d: ptr) { store32(d + 2, load32(d)); store32(d, load32(d + 4)); } => program overlapping_stores(d: ptr)|%s0:i32 = load d+0|store d+2 %s0|%s1:i32 = load d+4|store d+0 %s1|end cost 4 scalar 4|
        kernel dead(p: ptr) { x = load8(p + 4); } => program dead(p: ptr)|%s0:i8 = load p+4|end cost 1 scalar 1|
        kernel lap(d: ptr) { store32(d + 0, 67305985i32); store32(d + 2, 134678021i32); } => program lap(d: ptr)|store d+0 67305985i32|store d+2 134678021i32|end cost 2 scalar 2|
        kernel names(d: ptr, n: i32) { a = n; b = -1i32; c = a + b; store32(d, load32(d) - (c * load32(d + 4))); } => program names(d: ptr, n: i32)|%s0:i32 = add n 4294967295i32|%s1:i32 = load d+0|%s2:i32 = load d+4|%s3:i32 = mul %s0 %s2|%s4:i32 = sub %s1 %s3|store d+0 %s4|end cost 6 scalar 6|
        kernel each(d: ptr, k: i8, n: i32) { c = slt(n, -1i32); store8(d + 0, select(c, trunc8(shl(n, 31)), k)); a = load8(d + 1); store32(d + 2, zext32(a) - (n * 3i32)); } => program each(d: ptr, k: i8, n: i32)|%s0:i1 = slt n 4294967295i32|%s1:i32 = shl n 31|%s2:i8 = trunc %s1|%s3:i8 = select %s0 %s2 k|store d+0 %s3|%s4:i8 = load d+1|%s5:i32 = zext %s4|%s6:i32 = mul n 3i32|%s7:i32 = sub %s5 %s6|store d+2 %s7|end cost 10 scalar 10|
    ";
    for row in rows.trim().lines() {
        expect_row(&rt, alloc, row)?;
    }
    Ok(())
}

#[test]
fn words_that_are_no_request_read_nothing(rt: HostRuntime) -> Result<(), Fail> {
    let files: [(&str, &[u8]); 2] = [("i", b""), ("k", COPY)];
    let lines = "compile i
        compile i k k
        compile i -x
        compile -- k
        lift i k";
    expect_each(&rt, rt.alloc(), &files, USAGE, lines)?;
    expect_ended(&rt, rt.alloc(), &files, "", USAGE)
}

/// Asserts what is said of a kernel that is refused, after which nothing is read.
fn expect_refusal(rt: &impl Abort, alloc: Global, kernel: &[u8], said: &str) -> Result<(), Fail> {
    let line = format!(in alloc; "vegen: kernel: {said}\n")?;
    let mut desk = Desk::with_kernel(alloc, kernel)?;
    let err = line.as_bytes();
    desk.expect(rt, "compile i k", Status::KernelRefused, b"", err)?;
    desk.expect_reads(rt, 2);
    Ok(())
}

/// A row is a kernel, an arrow and what is said of it: asserts it.
fn expect_refusals(rt: &impl Abort, alloc: Global, rows: &str) -> Result<(), Fail> {
    for row in rows.trim().lines() {
        let (kernel, said) = cut_line(row)?;
        expect_refusal(rt, alloc, kernel.as_bytes(), said)?;
    }
    Ok(())
}

#[test]
fn kernels_that_are_refused(rt: HostRuntime) -> Result<(), Fail> {
    expect_refusal(&rt, rt.alloc(), b"", "2 Shape at 1:1")?;
    expect_refusal(&rt, rt.alloc(), b"\x80", "1 Token at 1:1")?;
    expect_refusal(
        &rt,
        rt.alloc(),
        b"kernel bad(d: ptr) { store8(d + 0, 1i8 \x80 2i8); }",
        "1 Token at 1:40",
    )?;
    expect_refusals(
        &rt,
        rt.alloc(),
        "
        kernel bad(d: ptr) { } more => 2 Shape at 1:24
        kernel bad(d: ptr) { store8(e, load8(d)); } => 3 UnknownName at 1:29
        kernel bad(d: ptr, d: ptr) { } => 4 DuplicateName at 1:20
        kernel bad(d: ptr) { store8(d + 0, 1i16 + 2i8); } => 5 WidthMismatch at 1:41
        kernel bad(d: ptr) { store8(d + 0, 256i8); } => 6 LiteralRange at 1:36
        kernel bad(d: ptr) { store8(d + 2147483648, load8(d)); } => 6 LiteralRange at 1:33
        kernel bad(d: ptr) { x = shl(load8(d), 8); } => 7 ShiftRange at 1:40
        ",
    )
}

#[test]
fn a_sink_of_too_little_room_keeps_the_front(rt: HostRuntime) -> Result<(), Fail> {
    let mut desk = Desk::holding(rt.alloc(), 10, &[("i", b""), ("k", COPY)])?;
    desk.expect(
        &rt,
        "compile i k",
        Status::WriteFault,
        b"program co",
        b"vegen: write fault\n",
    )
}

#[test]
fn a_file_that_is_not_there_is_named(rt: HostRuntime) -> Result<(), Fail> {
    let absent = "2 => InputAbsent => absent: k";
    expect_ended(&rt, rt.alloc(), &[("i", b"")], "compile i k", absent)
}

/// A kernel of so many statements of one text.
fn repeated(alloc: Global, statement: &[u8], count: usize) -> Result<Vec<u8>, Fail> {
    let mut text = Vec::from_slice(alloc, b"kernel many(d: ptr) {")?;
    for _ in 0..count {
        text.extend_from_slice(statement)?;
    }
    text.extend_from_slice(b"}")?;
    Ok(text)
}

/// Asserts that a kernel is compiled, to a program with this end.
fn expect_end(rt: &impl Abort, alloc: Global, kernel: &[u8], last: &[u8]) -> Result<(), Fail> {
    let mut desk = Desk::with_kernel(alloc, kernel)?;
    let status = desk.run("compile i k")?;
    assert!(rt; status == Status::Ok && desk.out.written().ends_with(last));
    Ok(())
}

/// Asserts that 4,096 such statements are accepted, with this end of the program, and that one
/// more is refused.
fn expect_most(
    rt: &impl Abort,
    alloc: Global,
    statement: &[u8],
    last: &[u8],
    said: &str,
) -> Result<(), Fail> {
    let most = repeated(alloc, statement, 4096)?;
    expect_end(rt, alloc, most.as_slice(), last)?;
    let more = repeated(alloc, statement, 4097)?;
    expect_refusal(rt, alloc, more.as_slice(), said)
}

#[test]
fn the_most_statements_are_accepted_and_one_more_refused(rt: HostRuntime) -> Result<(), Fail> {
    expect_most(
        &rt,
        rt.alloc(),
        b"store8(d + 0, 0i8);",
        b"\nend cost 4096 scalar 4096\n",
        "8 TooMany at 1:77846",
    )?;
    expect_most(
        &rt,
        rt.alloc(),
        b"store8(d, load8(d));",
        b"\nend cost 8192 scalar 8192\n",
        "8 TooMany at 1:81942",
    )
}

/// Asserts that a kernel file is too large.
fn expect_too_large(rt: &impl Abort, alloc: Global, kernel: &[u8]) -> Result<(), Fail> {
    let files: [(&str, &[u8]); 2] = [("i", b""), ("k", kernel)];
    let row = "2 => TooLarge => too large: k";
    expect_ended(rt, alloc, &files, "compile i k", row)
}

#[test]
fn a_kernel_file_over_its_limit_is_too_large(rt: HostRuntime) -> Result<(), Fail> {
    let mut text = Vec::from_slice(rt.alloc(), b"kernel none() { }")?;
    text.resize(262_144, b' ')?;
    expect_end(&rt, rt.alloc(), text.as_slice(), b"end cost 0 scalar 0\n")?;
    text.push(b' ')?;
    expect_too_large(&rt, rt.alloc(), text.as_slice())
}
