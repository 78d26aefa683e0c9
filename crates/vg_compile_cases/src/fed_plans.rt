//! Kernels whose loads feed the operands of packs.

use crate::beside::{Case, expect_costs, expect_more_left};
use crate::entries::{ADD, SUMS_SHUFFLES_PRODUCTS, SWAP};
use crate::kernels::{
    BYTES_REVERSED, BYTES_REVERSED_LATER, MATRICES, ROW_BY_MATRIX, SEVEN_AND_SUMS, SIXTY_EIGHT_SUMS,
};
use crate::plans::case_of;
use std::alloc::Global;
use std::process::Abort;
use std::test::Fail;

/// Asserts what a kernel costs without more plans, and that it costs `case.cost` with them.
fn expect_less(
    rt: &impl Abort,
    alloc: Global,
    case: &Case,
    before: u32,
    places: &str,
    memory: &str,
    left: &str,
) -> Result<(), Fail> {
    let without = case_of(case.instructions, case.kernel, before, case.scalar);
    expect_costs(rt, alloc, &without)?;
    expect_more_left(rt, alloc, case, places, memory, left)
}

#[test]
fn loads_feed_what_reverses_them(rt: HostRuntime) -> Result<(), Fail> {
    expect_less(
        &rt,
        rt.alloc(),
        &case_of(SWAP, BYTES_REVERSED, 4, 32),
        32,
        "0 16",
        "4*7 4030201 8070605 c0b0a09 100f0e0d",
        "1020304 5060708 90a0b0c d0e0f10 4030201 8070605 c0b0a09 100f0e0d",
    )
}

#[test]
fn groups_are_aligned_by_their_runs(rt: HostRuntime) -> Result<(), Fail> {
    // Stored from d + 4 on: aligned by the offset itself the plan would cost 28.
    expect_less(
        &rt,
        rt.alloc(),
        &case_of(SWAP, BYTES_REVERSED_LATER, 4, 32),
        32,
        "0 20",
        "5*7 4030201 8070605 c0b0a09 100f0e0d",
        "7 1020304 5060708 90a0b0c d0e0f10 4030201 8070605 c0b0a09 100f0e0d",
    )
}

#[test]
fn one_group_feeds_four_operands(rt: HostRuntime) -> Result<(), Fail> {
    expect_less(
        &rt,
        rt.alloc(),
        &case_of(SUMS_SHUFFLES_PRODUCTS, ROW_BY_MATRIX, 21, 52),
        40,
        "0 16 32",
        "4*7 1 2 3 4 1 2 3 4 10 20 30 40 100 200 300 400 1000 2000 3000 4000",
        "4321 8642 c963 10c84 1 2 3 4 1 2 3 4 10 20 30 40 100 200 300 400 1000 2000 3000 4000",
    )
}

#[test]
fn what_is_completed_is_fed(rt: HostRuntime) -> Result<(), Fail> {
    // A walk that does not feed leaves 128.
    expect_less(
        &rt,
        rt.alloc(),
        &case_of(SUMS_SHUFFLES_PRODUCTS, MATRICES, 72, 160),
        160,
        "0 64 128",
        "16*7 1 2 3 4 0 1 0 0 2 0 0 1 1 1 1 1 1 2 3 4 10 20 30 40 100 200 300 400 1000 2000 3000 4000",
        "4321 8642 c963 10c84 10 20 30 40 1002 2004 3006 4008 1111 2222 3333 4444 1 2 3 4 0 1 0 0 2 0 0 1 1 1 1 1 1 2 3 4 10 20 30 40 100 200 300 400 1000 2000 3000 4000",
    )
}

#[test]
fn a_kernel_past_the_search_is_grown_with_care(rt: HostRuntime) -> Result<(), Fail> {
    // 272 units: a plan that takes each store group costs 268.
    expect_less(
        &rt,
        rt.alloc(),
        &case_of(ADD, SIXTY_EIGHT_SUMS, 68, 272),
        268,
        "0 272 544",
        "68*7 68*5 68*6",
        "68*b 68*5 68*6",
    )
}

#[test]
fn a_plan_that_takes_what_is_not_aligned_may_cost_least(rt: HostRuntime) -> Result<(), Fail> {
    // Of aligned groups alone it would cost 25.
    expect_less(
        &rt,
        rt.alloc(),
        &case_of(ADD, SEVEN_AND_SUMS, 9, 33),
        33,
        "0 20",
        "5*9 1 2 3 4 5 6 7 8 9 a b c d e f 10",
        "7 1c 20 24 28 1 2 3 4 5 6 7 8 9 a b c d e f 10",
    )
}
