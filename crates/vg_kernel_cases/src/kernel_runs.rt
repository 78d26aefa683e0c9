//! What runs of kernels leave, and where they trap.

ghost use Rattle.std.specs.Prelude.{◌≤◌, ◌≡◌, length};

use crate::memories::bytes_of;
use std::alloc::{AllocError, Global};
use std::process::Abort;
use std::test::Fail;
use vg_kernel::{Kernel, parse_kernel};
use vg_keval::{KState, Outcome, run_kernel};

const HEAD: &str = "kernel t(p: ptr, q: noalias ptr, a: i8, b: i16, c: i32, d: i64) { ";

/// The kernel with this between its braces.
fn read(alloc: Global, body: &str) -> Result<Kernel, Fail> {
    let mut text = Vec::from_slice(alloc, HEAD.as_bytes())?;
    text.extend_from_slice(body.as_bytes())?;
    text.push(b'}')?;
    match parse_kernel(alloc, text.as_slice()) {
        Ok(kernel) => Ok(kernel),
        Err(_) => Err("a kernel is refused".into()),
    }
}

/// What one run of a kernel leaves of a copy of the memory, or None where it traps.
fn run(
    alloc: Global,
    kernel: &Kernel,
    state: &mut KState,
    places: &[u64],
    memory: &[u8],
) -> Result<Option<Vec<u8>>, AllocError>
    requires { length kernel.now.statements ≤ state.old }
    ensures { state.new ≡ state.old }
{
    let args = [250, 513, 4_294_967_295, 9_223_372_036_854_775_808];
    let mut left = Vec::from_slice(alloc, memory)?;
    match run_kernel(kernel, state, left.as_mut_slice(), places, &args) {
        Outcome::Done => Ok(Some(left)),
        Outcome::Trap => Ok(None),
    }
}

/// What a kernel leaves of a memory, or None where it traps. It is run twice in one state, on two
/// copies of the memory.
fn left_by(
    rt: &impl Abort,
    alloc: Global,
    body: &str,
    places: &[u64],
    memory: &[u8],
) -> Result<Option<Vec<u8>>, Fail> {
    let kernel = read(alloc, body)?;
    let mut state = KState::new(alloc, &kernel)?;
    let first = run(alloc, &kernel, &mut state, places, memory)?;
    let second = run(alloc, &kernel, &mut state, places, memory)?;
    assert!(rt; first == second, "{body}");
    Ok(first)
}

fn is_left(left: &Option<Vec<u8>>, after: &[u8]) -> bool {
    match left {
        Some(bytes) => bytes.as_slice() == after,
        None => false,
    }
}

/// Asserts what a kernel leaves of these bytes, with `p` at the first byte and `q` at the last.
fn expect_left(
    rt: &impl Abort,
    alloc: Global,
    body: &str,
    before: &[u8],
    after: &[u8],
) -> Result<(), Fail> {
    let last = before.len().saturating_sub(1) as u64;
    let left = left_by(rt, alloc, body, &[0, last], before)?;
    assert!(rt; is_left(&left, after), "{body}");
    Ok(())
}

/// The two columns of a row, which an arrow stands between.
fn columns(row: &str) -> Result<(&str, &str), Fail> {
    match row.trim().split_once(" => ") {
        Some(columns) => Ok(columns),
        None => Err("an arrow is missing".into()),
    }
}

/// A row is an expression of 8 bits, an arrow, and the byte that it gives.
fn expect_byte(rt: &impl Abort, alloc: Global, row: &str) -> Result<(), Fail> {
    let (value, byte) = columns(row)?;
    let byte = byte.parse::<u8>()?;
    let body = format!(in alloc; "store8(p, {value});")?;
    expect_left(rt, alloc, body.as_str(), &[0], &[byte])
}

#[test]
fn arithmetic_on_bytes(rt: HostRuntime) -> Result<(), Fail> {
    let rows = "
        200i8 + 100i8 => 44
        5i8 - 7i8 => 254
        200i8 * 3i8 => 88
        -1i8 * -1i8 => 1
        12i8 & 10i8 => 8
        12i8 | 10i8 => 14
        12i8 ^ 10i8 => 6
        1i8 + 2i8 * 3i8 => 7
        10i8 - 3i8 - 2i8 => 5
        a => 250
        a + 6i8 => 0
        shl(129i8, 0) => 129
        shl(129i8, 1) => 2
        shl(1i8, 7) => 128
        lshr(129i8, 1) => 64
        lshr(-1i8, 7) => 1
        ashr(129i8, 1) => 192
        ashr(-1i8, 7) => 255
        ashr(127i8, 7) => 0
        smin(-128i8, 127i8) => 128
        smax(-128i8, 127i8) => 127
        smin(-1i8, 0i8) => 255
        umin(128i8, 127i8) => 127
        umax(128i8, 127i8) => 128
        umin(255i8, 0i8) => 0
        select(eq(7i8, 7i8), 1i8, 2i8) => 1
        select(eq(7i8, 8i8), 1i8, 2i8) => 2
        select(slt(-1i8, 0i8), 1i8, 2i8) => 1
        select(slt(127i8, -128i8), 1i8, 2i8) => 2
        select(slt(0i8, 0i8), 1i8, 2i8) => 2
        select(ult(-1i8, 0i8), 1i8, 2i8) => 2
        select(ult(127i8, 128i8), 1i8, 2i8) => 1
        select(slt(32767i16, -32768i16), 1i8, 2i8) => 2
        select(ult(9223372036854775807i64, -9223372036854775808i64), 1i8, 2i8) => 1
        trunc8(511i16) => 255
        trunc8(b) => 1
        trunc8(lshr(d, 56)) => 128
    ";
    for row in rows.trim().lines() {
        expect_byte(&rt, rt.alloc(), row)?;
    }
    Ok(())
}

/// A row is statements, an arrow, the bytes of a memory, an arrow, and the bytes that are left.
fn expect_bytes(rt: &impl Abort, alloc: Global, row: &str) -> Result<(), Fail> {
    let (body, memories) = columns(row)?;
    let (before, after) = columns(memories)?;
    let before = bytes_of(alloc, before)?;
    let after = bytes_of(alloc, after)?;
    expect_left(rt, alloc, body, before.as_slice(), after.as_slice())
}

#[test]
fn memory_and_wider_numbers(rt: HostRuntime) -> Result<(), Fail> {
    let rows = "
        x = a; => 9 => 9
        store16(p, -1i16 * -1i16); => 9 9 => 1 0
        store32(p, 2147483647i32 + 1i32); => 9 9 9 9 => 0 0 0 128
        store64(p, 0i64 - 1i64); => 8*0 => 8*255
        store16(p, sext16(128i8)); => 0 0 => 128 255
        store16(p, zext16(128i8)); => 1 1 => 128 0
        store64(p, sext64(-2147483648i32)); => 8*0 => 0 0 0 128 255 255 255 255
        store64(p, zext64(c)); => 8*9 => 255 255 255 255 0 0 0 0
        store32(p, trunc32(d + 5i64)); => 9 9 9 9 => 5 0 0 0
        store64(p, ashr(d, 63)); => 8*0 => 8*255
        store64(p, smin(d, 0i64)); => 8*9 => 0 0 0 0 0 0 0 128
        store64(p, umin(d, 3i64)); => 8*9 => 3 0 0 0 0 0 0 0
        store16(p, load16(p + 1)); => 1 2 3 => 2 3 3
        store8(q, load8(p)); store8(q - 1, a); => 5 6 => 250 5
        wide = sext16(load8(p)) * 3i16; half = ashr(wide, 1); store8(p, trunc8(select(slt(half, 100i16), half, 100i16))); => 250 => 247
        wide = sext16(load8(p)) * 3i16; half = ashr(wide, 1); store8(p, trunc8(select(slt(half, 100i16), half, 100i16))); => 100 => 100
        x = load8(p); store8(p, 7i8); store8(p + 1, x); => 9 0 => 7 9
        x = load8(p); y = x + 1i8; z = eq(x, y); store8(p, select(z, x, y)); => 9 => 10
        store32(p + 0, 67305985i32); store32(p + 2, 134678021i32); => 6*0 => 1 2 5 6 7 8
        store32(p + 2, 134678021i32); store32(p + 0, 67305985i32); => 6*0 => 1 2 3 4 7 8
    ";
    for row in rows.trim().lines() {
        expect_bytes(&rt, rt.alloc(), row)?;
    }
    expect_left(&rt, rt.alloc(), "", b"", b"")
}

/// A row is statements, an arrow, a place, and whether they trap on a memory of four bytes, with
/// `p` at the place and `q` at the first byte.
fn expect_access(rt: &impl Abort, alloc: Global, row: &str) -> Result<(), Fail> {
    let (body, outcome) = columns(row)?;
    let Some((place, word)) = outcome.split_once(' ') else {
        return Err("an outcome is missing".into());
    };
    let place = place.parse::<u64>()?;
    let left = left_by(rt, alloc, body, &[place, 0], &[0; 4])?;
    assert!(rt; left.is_none() == (word == "traps"), "{row}");
    Ok(())
}

#[test]
fn an_access_outside_the_memory_traps(rt: HostRuntime) -> Result<(), Fail> {
    let rows = "
        x = load32(p); => 0 ends
        x = load8(p - 4); => 4 ends
        x = load8(p - 2147483648); => 2147483651 ends
        x = load8(p + 2147483647); => 0 traps
        x = load8(p); => 4 traps
        x = load32(p + 1); => 0 traps
        x = load64(p); => 0 traps
        x = load8(p - 1); => 0 traps
        store8(p, a); => 4 traps
        store32(p + 1, c); => 0 traps
        store8(p - 1, a); => 0 traps
        store8(p, a); => 18446744073709551615 traps
        store8(p + 1, a); => 18446744073709551615 traps
        x = load8(p - 2147483648); => 18446744073709551615 traps
        x = select(eq(a, a), a, load8(p)); => 4 traps
        x = select(eq(a, a), load8(p), a); => 4 traps
        x = shl(load8(p), 7) & 0i8; => 4 traps
        store8(q, a); store8(p, a); => 4 traps
    ";
    for row in rows.trim().lines() {
        expect_access(&rt, rt.alloc(), row)?;
    }
    Ok(())
}
