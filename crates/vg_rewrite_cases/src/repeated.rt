//! Each free use of a load has a load of its own.

use crate::units::{numbered, spelled};
use std::alloc::Global;
use std::process::Abort;
use std::test::Fail;
use vg_rewrite::{repeated, repeated_units};

// A kernel, and the lines of what its units become.
struct Row {
    kernel: &'static str,
    units: &'static str,
}

const ROWS: [Row; 5] = [
    // Sums of neighbours: each use of a load has one of its own.
    Row {
        kernel: "kernel neighbours(d: noalias ptr, p: ptr) {
            a = load32(p); b = load32(p + 4); c = load32(p + 8);
            store32(d, a + b); store32(d + 4, b + c); }",
        units: "load32 p1+0
load32 p1+4
Add32 v0 v1
store32 p0+0 v2
load32 p1+4
load32 p1+8
Add32 v4 v5
store32 p0+4 v6
",
    },
    // Without noalias the uses by the first statement are free, the others not.
    Row {
        kernel: "kernel neighbours(d: ptr, p: ptr) {
            a = load32(p); b = load32(p + 4); c = load32(p + 8);
            store32(d, a + b); store32(d + 4, b + c); }",
        units: "load32 p1+4
load32 p1+8
load32 p1+0
load32 p1+4
Add32 v2 v3
store32 p0+0 v4
Add32 v0 v1
store32 p0+4 v6
",
    },
    // Extensions are repeated with their loads.
    Row {
        kernel: "kernel means(d: noalias ptr, p: ptr) {
            a = zext32(load8(p)); b = zext32(load8(p + 1)); c = zext32(load8(p + 2));
            store8(d, trunc8(lshr(a + b + 1i32, 1)));
            store8(d + 1, trunc8(lshr(b + c + 1i32, 1))); }",
        units: "load8 p1+0
Zext32 from 8 v0
load8 p1+1
Zext32 from 8 v2
Add32 v1 v3
Add32 v4 1:32
Lshr32 v5 by 1
Trunc8 from 32 v6
store8 p0+0 v7
load8 p1+1
Zext32 from 8 v9
load8 p1+2
Zext32 from 8 v11
Add32 v10 v12
Add32 v13 1:32
Lshr32 v14 by 1
Trunc8 from 32 v15
store8 p0+1 v16
",
    },
    // A load that nothing uses stays.
    Row {
        kernel: "kernel low(d: noalias ptr, p: ptr, n: i32) {
            store16(d, trunc16(n * sext32(load16(p)))); x = load64(p + 8); }",
        units: "load16 p1+0
Sext32 from 16 v1
Mul32 v0 v2
Trunc16 from 32 v3
store16 p0+0 v4
load64 p1+8
",
    },
    // The bytes of a store through the same pointer are apart from the next ones.
    Row {
        kernel: "kernel along(d: ptr) {
            a = load8(d + 1); store8(d, a); store8(d + 2, a); store8(d + 1, a);
            store8(d + 3, a); }",
        units: "load8 p0+1
load8 p0+1
store8 p0+0 v1
load8 p0+1
store8 p0+2 v3
load8 p0+1
store8 p0+1 v5
store8 p0+3 v0
",
    },
];

fn assert_repeated(rt: &impl Abort, alloc: Global, row: &Row) -> Result<(), Fail> {
    let ssa = numbered(alloc, row.kernel)?;
    let units = repeated_units(alloc, &ssa)?;
    let shown = spelled(alloc, &units)?;
    assert!(rt; shown.as_str() == row.units, "{}", shown.as_str());
    Ok(())
}

#[test]
fn loads_are_repeated_for_each_free_use(rt: HostRuntime) -> Result<(), Fail> {
    for row in ROWS.iter() {
        assert_repeated(&rt, rt.alloc(), row)?;
    }
    Ok(())
}

// The numbered values have the same units.
fn assert_numbered(rt: &impl Abort, alloc: Global, row: &Row) -> Result<(), Fail> {
    let ssa = numbered(alloc, row.kernel)?;
    match repeated(alloc, &ssa)? {
        None => assert!(rt; false, "too many units"),
        Some(new) => {
            let shown = spelled(alloc, new.units.as_slice())?;
            assert!(rt; shown.as_str() == row.units, "{}", shown.as_str());
        }
    }
    Ok(())
}

#[test]
fn repeated_units_are_numbered(rt: HostRuntime) -> Result<(), Fail> {
    for row in ROWS.iter() {
        assert_numbered(&rt, rt.alloc(), row)?;
    }
    Ok(())
}
