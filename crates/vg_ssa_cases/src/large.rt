//! Kernels of about 8,192 loads and operations are numbered in a moment.

use crate::numbered::numbered;
use std::alloc::Global;
use std::process::Abort;
use std::test::Fail;

// A kernel of many statements. Statement i has the number i + 1 after the first piece, i after
// the second and 8 i after the third.
struct Large {
    head: &'static str,
    pieces: [&'static str; 4],
    statements: u32,
    units: usize,
}

const LARGE: [Large; 6] = [
    Large {
        head: "kernel copies(d: ptr, p: ptr) {",
        pieces: [" store8(d + ", ", load8(p + ", ")); // ", "\n"],
        statements: 4096,
        units: 8192,
    },
    Large {
        head: "kernel sum(p: ptr) { s0 = load16(p);",
        pieces: [" s", " = s", " + load16(p + ", ");"],
        statements: 4095,
        units: 8191,
    },
    Large {
        head: "kernel differences(p: ptr) { s0 = load32(p);",
        pieces: [" s", " = s", " - load32(p + ", ");"],
        statements: 4095,
        units: 8191,
    },
    Large {
        head: "kernel polynomial(p: ptr, x: i64) { s0 = load64(p);",
        pieces: [" s", " = s", " * x + load64(p + ", ");"],
        statements: 2730,
        units: 8191,
    },
    Large {
        head: "kernel least(p: ptr) { s0 = load8(p);",
        pieces: [" s", " = smin(s", ", load8(p + ", "));"],
        statements: 4095,
        units: 8191,
    },
    Large {
        head: "kernel powers(p: ptr, k: i32) { s0 = load32(p);",
        pieces: [" s", " = s", " + sext32(trunc16(k)) * ", "i32;"],
        statements: 2047,
        units: 8189,
    },
];

fn written(alloc: Global, large: &Large) -> Result<String, Fail> {
    let mut text = String::from_str(alloc, large.head)?;
    let [first, second, third, last] = large.pieces;
    for i in 0..large.statements {
        let number = i as u64;
        let (next, offset) = (number + 1, 8 * number);
        let line = format!(in alloc; "{first}{next}{second}{number}{third}{offset}{last}")?;
        text.push_str(line.as_str())?;
    }
    text.push_str(" }")?;
    Ok(text)
}

fn check(rt: &impl Abort, alloc: Global, large: &Large) -> Result<(), Fail> {
    let text = written(alloc, large)?;
    let ssa = numbered(alloc, text.as_bytes())?;
    assert!(rt; ssa.units.as_slice().len() == large.units, "{}", large.head);
    Ok(())
}

#[test]
fn large_kernels(rt: HostRuntime) -> Result<(), Fail> {
    let alloc = rt.alloc();
    for large in LARGE.iter() {
        check(&rt, alloc, large)?;
    }
    Ok(())
}
