//! Kernels that are called instructions.

use crate::beside::{ALL, Case, Unit, expect_left, expect_trap};
use crate::entries::{ADD, DPBUSD, HADD, MADD, PACKS, SHUFFLE, SUM_AND_PRODUCT, WIDE_ADD};
use crate::kernels::{CLAMPS, DOTS, PAIRS, PRODUCTS, REVERSED, SUMS, TAPS, WIDE_SUMS};
use std::test::Fail;

/// SSE2 alone.
const SSE2: u16 = 1;

#[test]
fn sixteen_products_become_one_madd(rt: HostRuntime) -> Result<(), Fail> {
    let alloc = rt.alloc();
    let case = Case {
        instructions: MADD,
        allowed: ALL,
        kernel: PRODUCTS,
        cost: 4,
        scalar: 48,
        unit: Unit::DoubleWord,
    };
    // Products of least numbers, two of which sum to 2^31.
    expect_left(
        &rt,
        alloc,
        &case,
        "0 16 32",
        "4*7 8*80008000",
        "4*80000000 8*80008000",
    )
}

#[test]
fn eight_clamps_become_one_pack(rt: HostRuntime) -> Result<(), Fail> {
    let alloc = rt.alloc();
    let case = Case {
        instructions: PACKS,
        allowed: ALL,
        kernel: CLAMPS,
        cost: 4,
        scalar: 40,
        unit: Unit::DoubleWord,
    };
    // -32769, -32768, 32767 and 32768, twice over
    expect_left(
        &rt,
        alloc,
        &case,
        "0 16",
        "4*7 ffff7fff ffff8000 7fff 8000 ffff7fff ffff8000 7fff 8000",
        "80008000 7fff7fff 80008000 7fff7fff ffff7fff ffff8000 7fff 8000 ffff7fff ffff8000 7fff 8000",
    )
}

#[test]
fn byte_dot_products_become_one_dpbusd(rt: HostRuntime) -> Result<(), Fail> {
    let alloc = rt.alloc();
    let case = Case {
        instructions: DPBUSD,
        allowed: ALL,
        kernel: DOTS,
        cost: 5,
        scalar: 104,
        unit: Unit::DoubleWord,
    };
    // The greatest number and 1; 5 and 255 * -1 four times; 255 * -128 and 1 * 127; 9 and 0.
    expect_left(
        &rt,
        alloc,
        &case,
        "0 16 32 48",
        "4*7 7fffffff 5 0 9 1 ffffffff 1ff 3020100 1 ffffffff 7f80 0",
        "80000000 fffffc09 ffff80ff 9 7fffffff 5 0 9 1 ffffffff 1ff 3020100 1 ffffffff 7f80 0",
    )
}

#[test]
fn pair_sums_become_one_hadd(rt: HostRuntime) -> Result<(), Fail> {
    let alloc = rt.alloc();
    let case = Case {
        instructions: HADD,
        allowed: ALL,
        kernel: PAIRS,
        cost: 6,
        scalar: 16,
        unit: Unit::DoubleWord,
    };
    expect_left(
        &rt,
        alloc,
        &case,
        "0 16 32",
        "0 0 0 0 1 2 3 4 5 6 7 ffffffff",
        "3 7 b 6 1 2 3 4 5 6 7 ffffffff",
    )
}

#[test]
fn an_instruction_that_is_not_allowed_is_not_called(rt: HostRuntime) -> Result<(), Fail> {
    let alloc = rt.alloc();
    let case = Case {
        instructions: HADD,
        allowed: SSE2,
        kernel: PAIRS,
        cost: 16,
        scalar: 16,
        unit: Unit::DoubleWord,
    };
    expect_left(
        &rt,
        alloc,
        &case,
        "0 16 32",
        "0 0 0 0 1 2 3 4 5 6 7 ffffffff",
        "3 7 b 6 1 2 3 4 5 6 7 ffffffff",
    )
}

#[test]
fn loads_before_stores_add(rt: HostRuntime) -> Result<(), Fail> {
    let alloc = rt.alloc();
    let case = Case {
        instructions: ADD,
        allowed: ALL,
        kernel: SUMS,
        cost: 4,
        scalar: 16,
        unit: Unit::DoubleWord,
    };
    // The sums lie over what was added.
    expect_left(&rt, alloc, &case, "4 0 0", "1 2 3 4 5", "1 2 4 6 8")
}

#[test]
fn sixteen_sums_of_512_bits(rt: HostRuntime) -> Result<(), Fail> {
    let alloc = rt.alloc();
    let case = Case {
        instructions: WIDE_ADD,
        allowed: ALL,
        kernel: WIDE_SUMS,
        cost: 4,
        scalar: 64,
        unit: Unit::DoubleWord,
    };
    // The greatest number and 2 sum to 1.
    expect_left(
        &rt,
        alloc,
        &case,
        "0 64 128",
        "16*9 16*ffffffff 16*2",
        "16*1 16*ffffffff 16*2",
    )?;
    // With the last double word missing both trap.
    expect_trap(&rt, alloc, &case, "0 64 128", "47*9")
}

#[test]
fn reversed_copy_is_one_shuffle(rt: HostRuntime) -> Result<(), Fail> {
    let alloc = rt.alloc();
    let case = Case {
        instructions: SHUFFLE,
        allowed: ALL,
        kernel: REVERSED,
        cost: 4,
        scalar: 12,
        unit: Unit::DoubleWord,
    };
    expect_left(
        &rt,
        alloc,
        &case,
        "0 16 32",
        "8*0 1 2 3 4",
        "1 2 3 4 4 3 2 1 1 2 3 4",
    )
}

#[test]
fn sums_of_eight_products_are_eight_wide(rt: HostRuntime) -> Result<(), Fail> {
    let alloc = rt.alloc();
    // 8 loads, 8 constants, 8 products of cost 2, 7 sums and a store
    let case = Case {
        instructions: SUM_AND_PRODUCT,
        allowed: ALL,
        kernel: TAPS,
        cost: 40,
        scalar: 192,
        unit: Unit::DoubleWord,
    };
    // Of the numbers 0 to 14: the factors sum to 80, and each times its place to 364.
    expect_left(
        &rt,
        alloc,
        &case,
        "0 32",
        "8*9 0 1 2 3 4 5 6 7 8 9 a b c d e",
        "16c 1bc 20c 25c 2ac 2fc 34c 39c 0 1 2 3 4 5 6 7 8 9 a b c d e",
    )
}
