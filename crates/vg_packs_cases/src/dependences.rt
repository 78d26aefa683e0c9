//! Which units depend on which, and which layouts keep what `noalias` says.

ghost use Rattle.std.specs.Prelude.{IfOk};
ghost use Rattle.vg_shapes.specs.Sound.{IsSound};

use crate::shown::{numbered, push_units};
use std::alloc::Global;
use std::process::Abort;
use std::test::Fail;
use vg_deps::{depends, independent, respects};
use vg_shapes::{DepList, Ssa};

/// Writes the units on which a unit depends, if any, behind a comma where something stands there.
fn push_row(text: &mut String, unit: u32, row: &[u32]) -> Result<(), Fail> {
    if row.is_empty() {
        return Ok(());
    }
    let comma = if text.is_empty() { "" } else { ", " };
    write!(text, "{comma}{unit}:")?;
    push_units(text, row)
}

/// The units on which each unit depends, the greatest first, as `2: 1 0, 3: 2`.
fn shown_rows(alloc: Global, deps: &DepList, numbers: u32) -> Result<String, Fail> {
    let mut text = String::new(alloc);
    for unit in 0..numbers {
        push_row(&mut text, unit, deps.row(unit))?;
    }
    Ok(text)
}

/// The numbered values of a kernel of these parameters, an arrow, and its body.
fn numbered_line(alloc: Global, kernel: &str) -> Result<Ssa, Fail>
    ensures { IfOk result (λ ssa. IsSound ssa) }
{
    let Some((params, body)) = kernel.split_once(" => ") else {
        return Err(Fail::new("a line without a body"));
    };
    let text = format!(in alloc; "kernel k({params}) {{ {body} }}")?;
    numbered(alloc, text.as_str())
}

// Each line: parameters, a body, and the rows of its units. Numbers begin after the integer parameters.
const DEPENDENCES: &str = "
d: ptr, p: ptr => store32(d, load32(p)); store32(d + 4, load32(p + 4)); => 1: 0, 2: 1, 3: 2 0
d: noalias ptr, p: ptr => store32(d, load32(p)); store32(d + 4, load32(p + 4)); => 1: 0, 3: 2
p: ptr, x: i32 => store32(p, x); store32(p + 4, x); store16(p + 3, trunc16(x)); => 4: 3 2 1
p: ptr, x: i32 => store32(p - 4, x); store32(p, x); store32(p - 1, x); => 3: 2 1
d: noalias ptr, p: ptr => store32(d, load32(p) + load32(p + 2)); => 2: 1 0, 3: 2
d: noalias ptr, x: i32 => store32(d, x); y = load32(d); store32(d + 4, y); => 2: 1, 3: 2
d: noalias ptr, p: ptr => x = load32(p); store32(d, x * x); => 1: 0, 2: 1
d: ptr, x: i32, y: i64 => store32(d, x); store64(d - 7, y); store8(d - 8, trunc8(x)); => 3: 2, 5: 4
";

/// The rows of a line's kernel.
fn rows_of(alloc: Global, kernel: &str) -> Result<String, Fail> {
    let ssa = numbered_line(alloc, kernel)?;
    let deps = depends(alloc, &ssa)?;
    shown_rows(alloc, &deps, 8)
}

fn check_rows(rt: &impl Abort, alloc: Global, line: &str) -> Result<(), Fail> {
    let Some((kernel, rows)) = line.rsplit_once(" => ") else {
        return Err(Fail::new("a line without rows"));
    };
    let shown = rows_of(alloc, kernel)?;
    assert!(rt; shown.as_str() == rows, "{line}");
    Ok(())
}

#[test]
fn units_depend_on_what_they_use_and_on_bytes_that_they_may_share(
    rt: HostRuntime,
) -> Result<(), Fail> {
    for line in DEPENDENCES.trim().lines() {
        check_rows(&rt, rt.alloc(), line)?;
    }
    Ok(())
}

const MIXED: &str = "kernel mixed(d: ptr, p: ptr) {
    store32(d, load32(p)); store32(d + 4, load32(p + 4));
}";

/// Asserts of pairs of units whether they are independent.
fn check_pairs(rt: &impl Abort, deps: &DepList, pairs: &[(u32, u32)], wanted: bool) {
    for (a, b) in pairs {
        assert!(rt; independent(deps, *a, *b) == wanted, "{a} {b}");
    }
}

#[test]
fn units_are_independent_where_neither_waits_for_the_other(rt: HostRuntime) -> Result<(), Fail> {
    let alloc = rt.alloc();
    let ssa = numbered(alloc, MIXED)?;
    let deps = depends(alloc, &ssa)?;
    check_pairs(&rt, &deps, &[(0, 2), (2, 0), (1, 3), (3, 1)], true);
    let waiting = [(0, 1), (1, 0), (1, 2), (2, 1), (0, 3), (3, 0)];
    check_pairs(&rt, &deps, &waiting, false);
    Ok(())
}

// Each line: parameters, a body, the places of the pointers, and whether they keep what `noalias` says.
const LAYOUTS: &str = "
d: noalias ptr, p: ptr => store32(d, load32(p)); => 0 4 => yes
d: noalias ptr, p: ptr => store32(d, load32(p)); => 4 0 => yes
d: noalias ptr, p: ptr => store32(d, load32(p)); => 0 3 => no
d: noalias ptr, p: ptr => store32(d, load32(p)); => 3 0 => no
d: noalias ptr, p: ptr => store32(d, load32(p)); => 7 7 => no
d: noalias ptr, p: ptr => store32(d, load32(p)); => 18446744073709551615 0 => yes
d: noalias ptr, p: ptr => store32(d, load32(p - 4)); => 0 4 => no
d: noalias ptr, p: ptr => store32(d, load32(p - 4)); => 0 8 => yes
d: ptr, p: ptr => store32(d, load32(p)); => 0 3 => yes
d: ptr, p: noalias ptr => store32(d, load32(p)); => 0 3 => no
d: ptr, p: noalias ptr, q: noalias ptr => store32(d, load32(p) + load32(q)); => 0 8 8 => yes
d: ptr, p: noalias ptr, q: noalias ptr => store32(d, load32(p) + load32(q)); => 0 8 1 => no
";

fn places_in(alloc: Global, words: &str) -> Result<Vec<u64>, Fail> {
    let mut places = Vec::new(alloc);
    for word in words.split_whitespace() {
        places.push(word.parse::<u64>()?)?;
    }
    Ok(places)
}

/// Whether the pointers of a line's kernel keep what `noalias` says.
fn is_respected(alloc: Global, kernel: &str) -> Result<bool, Fail> {
    let Some((kernel, words)) = kernel.rsplit_once(" => ") else {
        return Err(Fail::new("a line without places"));
    };
    let places = places_in(alloc, words)?;
    let ssa = numbered_line(alloc, kernel)?;
    Ok(respects(&ssa, places.as_slice()))
}

#[test]
fn noalias_keeps_bytes_apart_that_are_written(rt: HostRuntime) -> Result<(), Fail> {
    let alloc = rt.alloc();
    for line in LAYOUTS.trim().lines() {
        let Some((kernel, answer)) = line.rsplit_once(" => ") else {
            return Err(Fail::new("a line without an answer"));
        };
        assert!(rt; is_respected(alloc, kernel)? == (answer == "yes"), "{line}");
    }
    Ok(())
}
