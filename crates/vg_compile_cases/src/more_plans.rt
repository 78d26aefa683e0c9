//! Kernels of which more plans are asked for.

use crate::beside::{Case, expect_costs, expect_more_left, expect_more_told};
use crate::entries::{
    ADD, ADD_AND_MADD, DPBUSD, GREATER_AND_WIDEN, HADD, MADD, PACKS, SUB, SUM_AND_PRODUCT,
};
use crate::kernels::{
    CLAMPS, DOTS, MASKS, MOVED, PAIRS, PRODUCTS, SEVEN_LESS, SUMS_AND_PRODUCTS, SUMS_OF_SUMS, TAPS,
};
use crate::plans::case_of;
use std::alloc::Global;
use std::process::Abort;
use std::test::Fail;

/// Asserts that a kernel costs what its scalar program does without more plans, and `case.cost` with
/// them.
fn expect_gain(
    rt: &impl Abort,
    alloc: Global,
    case: &Case,
    places: &str,
    memory: &str,
    left: &str,
) -> Result<(), Fail> {
    let before = case_of(case.instructions, case.kernel, case.scalar, case.scalar);
    expect_costs(rt, alloc, &before)?;
    expect_more_left(rt, alloc, case, places, memory, left)
}

#[test]
fn sums_of_sums_are_cut(rt: HostRuntime) -> Result<(), Fail> {
    expect_gain(
        &rt,
        rt.alloc(),
        &case_of(ADD, SUMS_OF_SUMS, 8, 32),
        "0 16",
        "4*7 1 2 3 4 5 6 7 8 9 a b c d e f 10",
        "1c 20 24 28 1 2 3 4 5 6 7 8 9 a b c d e f 10",
    )
}

#[test]
fn whole_and_cut_terms_stand_in_one_plan(rt: HostRuntime) -> Result<(), Fail> {
    expect_gain(
        &rt,
        rt.alloc(),
        &case_of(ADD_AND_MADD, SUMS_AND_PRODUCTS, 8, 64),
        "0 32 48",
        "1 2 3 4 10 20 30 40 4*20001 4*30002",
        "19 2a 3b 4c 10 20 30 40 4*20001 4*30002",
    )
}

#[test]
fn a_comparison_is_written_out(rt: HostRuntime) -> Result<(), Fail> {
    // 1 < 2, -1 < 0, -32768 < 32767, and 5 is not below 5
    expect_gain(
        &rt,
        rt.alloc(),
        &case_of(GREATER_AND_WIDEN, MASKS, 6, 28),
        "0 16 24",
        "4*7 ffff0001 58000 2 57fff",
        "3*ffffffff 0 ffff0001 58000 2 57fff",
    )
}

#[test]
fn a_number_less_a_value_is_turned(rt: HostRuntime) -> Result<(), Fail> {
    expect_gain(
        &rt,
        rt.alloc(),
        &case_of(SUB, SEVEN_LESS, 4, 12),
        "0 16",
        "4*9 1 2 8 ffffffff",
        "6 5 ffffffff 8 1 2 8 ffffffff",
    )
}

#[test]
fn what_whole_terms_give_stays(rt: HostRuntime) -> Result<(), Fail> {
    let alloc = rt.alloc();
    let products = case_of(MADD, PRODUCTS, 4, 48);
    expect_more_told(&rt, alloc, &products, b"plan cost 4 plain 4 scalar 48\n")?;
    let clamps = case_of(PACKS, CLAMPS, 4, 40);
    expect_more_told(&rt, alloc, &clamps, b"plan cost 4 plain 4 scalar 40\n")?;
    let dots = case_of(DPBUSD, DOTS, 5, 104);
    expect_more_told(&rt, alloc, &dots, b"plan cost 5 plain 5 scalar 104\n")?;
    let pairs = case_of(HADD, PAIRS, 6, 16);
    expect_more_told(&rt, alloc, &pairs, b"plan cost 6 plain 6 scalar 16\n")?;
    let moved = case_of(b"", MOVED, 2, 4);
    expect_more_told(&rt, alloc, &moved, b"plan cost 2 plain 2 scalar 4\n")?;
    let taps = case_of(SUM_AND_PRODUCT, TAPS, 40, 192);
    expect_more_told(&rt, alloc, &taps, b"plan cost 40 plain 40 scalar 192\n")
}

#[test]
fn the_plain_plan_that_is_told_stays(rt: HostRuntime) -> Result<(), Fail> {
    // Whole, no lane fits: a store group, its constant and four inserts, and 28 loads and sums.
    let sums = case_of(ADD, SUMS_OF_SUMS, 8, 32);
    expect_more_told(&rt, rt.alloc(), &sums, b"plan cost 8 plain 34 scalar 32\n")
}
