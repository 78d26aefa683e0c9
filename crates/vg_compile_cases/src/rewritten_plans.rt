//! Kernels whose units are rewritten before they are planned.

use crate::beside::{ALL, Case, Unit, expect_more_left, expect_more_starts};
use crate::entries::{ADD, MEAN, WORDS};
use crate::kernels::{HALVES, MEANS, NEIGHBOURS, NEIGHBOURS_THAT_MEET, WEIGHED};
use crate::plans::case_of;
use std::alloc::Global;
use std::process::Abort;
use std::test::Fail;

fn bytes_of<'a>(instructions: &'a [u8], kernel: &'a [u8], cost: u32, scalar: u32) -> Case<'a> {
    Case {
        instructions,
        allowed: ALL,
        kernel,
        cost,
        scalar,
        unit: Unit::Byte,
    }
}

/// Asserts what a kernel costs with more plans, over which units its plan is told to be, and what the
/// program leaves.
fn expect_rewritten(
    rt: &impl Abort,
    alloc: Global,
    case: &Case,
    line: &[u8],
    places: &str,
    memory: &str,
    left: &str,
) -> Result<(), Fail> {
    expect_more_starts(rt, alloc, case, line)?;
    expect_more_left(rt, alloc, case, places, memory, left)
}

#[test]
fn numbers_are_had_in_the_width_that_they_need(rt: HostRuntime) -> Result<(), Fail> {
    expect_rewritten(
        &rt,
        rt.alloc(),
        &bytes_of(WORDS, WEIGHED, 10, 72),
        b"rewritten narrowed\n",
        "0 8 16",
        "8*7 0 1 2 3 7f 80 fe ff 0 4 5 ff 80 1 10 ff",
        "0 1 2 42 7f 60 c2 ff 0 1 2 3 7f 80 fe ff 0 4 5 ff 80 1 10 ff",
    )
}

#[test]
fn the_low_bits_of_a_negative_number_come_from_above(rt: HostRuntime) -> Result<(), Fail> {
    expect_rewritten(
        &rt,
        rt.alloc(),
        &bytes_of(WORDS, HALVES, 30, 48),
        b"rewritten narrowed\n",
        "0 8",
        "8*7 0 1 2 7f 80 81 fe ff",
        "0 1 1 40 c0 c1 ff 0 0 1 2 7f 80 81 fe ff",
    )
}

#[test]
fn each_use_of_a_load_may_have_its_own(rt: HostRuntime) -> Result<(), Fail> {
    expect_rewritten(
        &rt,
        rt.alloc(),
        &case_of(ADD, NEIGHBOURS, 4, 13),
        b"rewritten repeated\n",
        "0 16",
        "4*7 1 2 10 ffffffff 5",
        "3 12 f 4 1 2 10 ffffffff 5",
    )
}

#[test]
fn a_use_behind_a_store_that_may_meet_the_load_takes_it_where_it_stood(
    rt: HostRuntime,
) -> Result<(), Fail> {
    let alloc = rt.alloc();
    let case = case_of(ADD, NEIGHBOURS_THAT_MEET, 11, 13);
    expect_rewritten(
        &rt,
        alloc,
        &case,
        b"rewritten repeated\n",
        "0 16",
        "4*7 1 2 10 ffffffff 5",
        "3 12 f 4 1 2 10 ffffffff 5",
    )?;
    // what is stored is what was loaded
    expect_more_left(&rt, alloc, &case, "4 0", "1 2 10 ffffffff 5", "1 3 12 f 4")
}

#[test]
fn extensions_of_loads_are_repeated_with_them(rt: HostRuntime) -> Result<(), Fail> {
    expect_rewritten(
        &rt,
        rt.alloc(),
        &bytes_of(MEAN, MEANS, 4, 58),
        b"rewritten repeated\n",
        "0 8",
        "8*7 0 1 ff ff 2 9 80 7f 40 7*0",
        "1 80 ff 81 6 45 80 60 0 1 ff ff 2 9 80 7f 40 7*0",
    )
}
