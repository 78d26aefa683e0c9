//! What is told of the plans of kernels.

use crate::beside::{ALL, Case, Unit, expect_plan, expect_told_cost};
use crate::entries::{DPBUSD, HADD, MADD, PACKS, SUM_AND_PRODUCT};
use crate::kernels::{
    ARGUMENTS, CLAMPS, DOTS, MOVED, NOTHING, NUMBERS, PAIRS, PRODUCTS, REVERSED, TAPS,
};
use std::test::Fail;

/// A kernel with entries of all extensions, and what its program costs.
pub fn case_of<'a>(instructions: &'a [u8], kernel: &'a [u8], cost: u32, scalar: u32) -> Case<'a> {
    Case {
        instructions,
        allowed: ALL,
        kernel,
        cost,
        scalar,
        unit: Unit::DoubleWord,
    }
}

#[test]
fn each_pack_has_its_line(rt: HostRuntime) -> Result<(), Fail> {
    let alloc = rt.alloc();
    let moved = b"pack store 8 p+0\npack load 8 q+0\nplan cost 2 plain 2 scalar 4\n";
    expect_plan(&rt, alloc, b"", MOVED, moved)?;
    let numbers = b"pack store 16 d+0\nplan cost 2 plain 2 scalar 4\n";
    expect_plan(&rt, alloc, b"", NUMBERS, numbers)
}

#[test]
fn a_call_is_told_with_its_lanes(rt: HostRuntime) -> Result<(), Fail> {
    let lines = b"pack store 16 d+0
pack call _mm_madd_epi16 lanes 4
pack load 16 p+0
pack load 16 q+0
plan cost 4 plain 4 scalar 48
";
    expect_plan(&rt, rt.alloc(), MADD, PRODUCTS, lines)
}

#[test]
fn the_empty_plan_has_one_line(rt: HostRuntime) -> Result<(), Fail> {
    let alloc = rt.alloc();
    expect_plan(&rt, alloc, b"", NOTHING, b"plan cost 0 plain 0 scalar 0\n")?;
    expect_plan(
        &rt,
        alloc,
        b"",
        ARGUMENTS,
        b"plan cost 2 plain 4 scalar 2\n",
    )
}

#[test]
fn programs_cost_what_is_told_of_their_plans(rt: HostRuntime) -> Result<(), Fail> {
    let alloc = rt.alloc();
    let taps = case_of(SUM_AND_PRODUCT, TAPS, 40, 192);
    expect_told_cost(&rt, alloc, &taps, b"plan cost 40 plain 40 scalar 192\n")?;
    let clamps = case_of(PACKS, CLAMPS, 4, 40);
    expect_told_cost(&rt, alloc, &clamps, b"plan cost 4 plain 4 scalar 40\n")?;
    let dots = case_of(DPBUSD, DOTS, 5, 104);
    expect_told_cost(&rt, alloc, &dots, b"plan cost 5 plain 5 scalar 104\n")?;
    let pairs = case_of(HADD, PAIRS, 6, 16);
    expect_told_cost(&rt, alloc, &pairs, b"plan cost 6 plain 6 scalar 16\n")
}

#[test]
fn a_plan_that_only_the_search_meets_is_taken(rt: HostRuntime) -> Result<(), Fail> {
    // One load pack, one store group, four extracts and four scalar stores. The plain plan has both
    // store groups: with the load pack, five lines for the second one's operand and four extracts it
    // costs 12.
    let reversed = case_of(b"", REVERSED, 10, 12);
    expect_told_cost(
        &rt,
        rt.alloc(),
        &reversed,
        b"plan cost 10 plain 12 scalar 12\n",
    )
}
