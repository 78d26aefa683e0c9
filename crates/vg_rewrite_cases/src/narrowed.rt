//! Each number in the widths that are asked of it.

use crate::units::{numbered, spelled};
use std::alloc::Global;
use std::process::Abort;
use std::test::Fail;
use vg_rewrite::{narrowed, narrowed_units};

// A kernel, and the lines of what its units become.
struct Row {
    kernel: &'static str,
    units: &'static str,
}

const ROWS: [Row; 5] = [
    // A weighted sum of bytes fits 16 bits, and so does the shift that is cut to a byte.
    Row {
        kernel: "kernel sum(d: noalias ptr, p: ptr, q: ptr) {
            store8(d, trunc8(lshr(zext32(load8(p)) * 3i32 + zext32(load8(q)), 2))); }",
        units: "load8 p1+0
Zext16 from 8 v0
Mul16 v1 3:16
load8 p2+0
Zext16 from 8 v3
Add16 v2 v4
Lshr16 v5 by 2
Trunc8 from 16 v6
store8 p0+0 v7
",
    },
    // The low bits of a negative number that is shifted come from above a byte.
    Row {
        kernel: "kernel half(d: noalias ptr, p: ptr) {
            store8(d, trunc8(lshr(sext32(load8(p)) + 1i32, 1))); }",
        units: "load8 p1+0
Sext16 from 8 v0
Add16 v1 1:16
Lshr16 v2 by 1
Trunc8 from 16 v3
store8 p0+0 v4
",
    },
    // Bytes compare as bytes, without a sign.
    Row {
        kernel: "kernel least(d: noalias ptr, p: ptr) {
            a = zext32(load8(p)); b = zext32(load8(p + 1));
            store8(d, trunc8(select(slt(a, b), a, 5i32))); }",
        units: "load8 p1+0
load8 p1+1
Ult8 v0 v1
Select8 v2 v0 5:8
store8 p0+0 v3
",
    },
    // The low half of a product is that of the low halves; a load that nothing asks for stays.
    Row {
        kernel: "kernel low(d: noalias ptr, p: ptr, n: i32) {
            store16(d, trunc16(n * sext32(load16(p)))); x = load64(p + 8); }",
        units: "Trunc16 from 32 v0
load16 p1+0
Mul16 v1 v2
store16 p0+0 v3
load64 p1+8
",
    },
    // A byte and a word are asked of one load, and an operation that nothing asks for is gone.
    Row {
        kernel: "kernel two(d: noalias ptr, p: ptr) {
            a = load32(p); b = a * a; store8(d, trunc8(a)); store32(d + 4, a + 1i32); }",
        units: "load32 p1+0
Trunc8 from 32 v0
store8 p0+0 v1
Add32 v0 1:32
store32 p0+4 v3
",
    },
];

fn assert_narrowed(rt: &impl Abort, alloc: Global, row: &Row) -> Result<(), Fail> {
    let ssa = numbered(alloc, row.kernel)?;
    let units = narrowed_units(alloc, &ssa)?;
    let shown = spelled(alloc, &units)?;
    assert!(rt; shown.as_str() == row.units, "{}", shown.as_str());
    Ok(())
}

#[test]
fn numbers_are_made_in_the_width_that_they_need(rt: HostRuntime) -> Result<(), Fail> {
    for row in ROWS.iter() {
        assert_narrowed(&rt, rt.alloc(), row)?;
    }
    Ok(())
}

// The numbered values have the same units.
fn assert_numbered(rt: &impl Abort, alloc: Global, row: &Row) -> Result<(), Fail> {
    let ssa = numbered(alloc, row.kernel)?;
    match narrowed(alloc, &ssa)? {
        None => assert!(rt; false, "too many units"),
        Some(new) => {
            let shown = spelled(alloc, new.units.as_slice())?;
            assert!(rt; shown.as_str() == row.units, "{}", shown.as_str());
        }
    }
    Ok(())
}

#[test]
fn narrowed_units_are_numbered(rt: HostRuntime) -> Result<(), Fail> {
    for row in ROWS.iter() {
        assert_numbered(&rt, rt.alloc(), row)?;
    }
    Ok(())
}
