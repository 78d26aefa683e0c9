//! Registers: bits that are read, put and moved, and whole numbers at both ends of their widths.

use std::process::Abort;
use std::test::Fail;
use vg_bits::{Outcome, Reg, signed, unsigned};

/// A row is a lowest bit, a width, and a number in hexadecimal digits.
fn row_of(row: &str) -> Result<(usize, usize, u128), Fail> {
    let Some((low, behind)) = row.trim().split_once(' ') else {
        return Err("a width is missing".into());
    };
    let Some((width, digits)) = behind.split_once(' ') else {
        return Err("a number is missing".into());
    };
    Ok((
        low.parse::<usize>()?,
        width.parse::<usize>()?,
        u128::from_str_radix(digits, 16)?,
    ))
}

/// Each line is a row: asserts the answers of get on bytes 0x81, in which the lowest and the
/// highest bit are set.
fn check_get<const B: usize>(rt: &impl Abort, rows: &str) -> Result<(), Fail> {
    let reg = Reg::<B> { bytes: [0x81; B] };
    for row in rows.trim().lines() {
        let (low, width, number) = row_of(row)?;
        assert!(rt; B <= 64 && low <= 512 && width <= 128);
        assert!(rt; width >= 1 && low + width <= 8 * B);
        assert!(rt; reg.get(low, width) == number, "{row}");
    }
    Ok(())
}

#[test]
fn gets_across_the_borders_of_bytes(rt: HostRuntime) -> Result<(), Fail> {
    check_get::<1>(
        &rt,
        "
        0 1 1
        1 1 0
        7 1 1
        0 7 1
        1 7 40
        0 8 81
        ",
    )?;
    check_get::<16>(
        &rt,
        "
        127 1 1
        6 7 06
        7 8 03
        9 8 c0
        7 9 103
        8 9 181
        0 63 0181818181818181
        0 64 8181818181818181
        1 64 c0c0c0c0c0c0c0c0
        63 65 10303030303030303
        0 127 01818181818181818181818181818181
        1 127 40c0c0c0c0c0c0c0c0c0c0c0c0c0c0c0
        0 128 81818181818181818181818181818181
        ",
    )?;
    check_get::<32>(
        &rt,
        "
        63 128 03030303030303030303030303030303
        128 128 81818181818181818181818181818181
        255 1 1
        ",
    )?;
    check_get::<64>(
        &rt,
        "
        383 128 03030303030303030303030303030303
        385 127 40c0c0c0c0c0c0c0c0c0c0c0c0c0c0c0
        448 64 8181818181818181
        ",
    )
}

/// A row: what is left of the bits of a register of ones where zeros are put, and the other way
/// round.
fn check_put(rt: &impl Abort, row: &str) -> Result<(), Fail> {
    let (low, width, left) = row_of(row)?;
    assert!(rt; low <= 128 && width >= 1 && width <= 128);
    assert!(rt; low + width <= 128);
    let mut reg = Reg::<16> { bytes: [0xff; 16] };
    reg.put(low, width, 0);
    assert!(rt; reg.get(0, 128) == left, "{row}");
    let mut reg = Reg::<16>::zero();
    reg.put(low, width, u128::MAX);
    assert!(rt; reg.get(0, 128) == u128::MAX - left, "{row}");
    Ok(())
}

#[test]
fn puts_keep_the_bits_beside(rt: HostRuntime) -> Result<(), Fail> {
    let rows = "
        0 1 fffffffffffffffffffffffffffffffe
        7 1 ffffffffffffffffffffffffffffff7f
        7 2 fffffffffffffffffffffffffffffe7f
        8 7 ffffffffffffffffffffffffffff80ff
        7 9 ffffffffffffffffffffffffffff007f
        9 8 fffffffffffffffffffffffffffe01ff
        1 63 ffffffffffffffff0000000000000001
        0 64 ffffffffffffffff0000000000000000
        63 65 00000000000000007fffffffffffffff
        0 127 80000000000000000000000000000000
        1 127 1
        0 128 0
    ";
    for row in rows.trim().lines() {
        check_put(&rt, row)?;
    }
    Ok(())
}

#[test]
fn moves_bits_of_any_width(rt: HostRuntime) {
    let mut from = Reg::<64>::zero();
    from.put(256, 64, 0x0123_4567_89ab_cdef);
    from.put(448, 64, 0xfedc_ba98_7654_3210);
    let mut half = Reg::<32> { bytes: [0xff; 32] };
    half.move_bits(0, &from, 256, 256);
    assert!(rt; half.get(0, 128) == 0x0123_4567_89ab_cdef);
    assert!(rt; half.get(128, 128) == 0xfedc_ba98_7654_3210_0000_0000_0000_0000);
    let mut shifted = Reg::<64> { bytes: [0xff; 64] };
    shifted.move_bits(4, &half, 0, 256);
    assert!(rt; shifted.get(0, 72) == 0x1234_5678_9abc_deff);
    assert!(rt; shifted.get(196, 64) == 0xfedc_ba98_7654_3210);
    assert!(rt; shifted.get(260, 128) == u128::MAX);
    let mut one = Reg::<1>::zero();
    one.move_bits(1, &half, 1, 6);
    one.move_bits(3, &half, 0, 0);
    assert!(rt; one.get(0, 8) == 0x6e);
}

/// Asserts what numbers of this width, of which these are the ends, are as whole numbers.
fn check_ends(rt: &impl Abort, width: u32, least: i128, greatest: i128) {
    assert!(rt; width >= 1 && width <= 128);
    let top = 1u128 << (width - 1);
    let ends = (signed(top, width), signed(top - 1, width));
    assert!(rt;
        ends == (least, greatest) && signed(u128::MAX, width) == -1,
        "{width}"
    );
    let ends = (unsigned(least, width), unsigned(greatest, width));
    assert!(rt;
        ends == (top, top - 1) && unsigned(-1, width) == top - 1 + top,
        "{width}"
    );
}

#[test]
fn signed_numbers_at_both_ends(rt: HostRuntime) {
    check_ends(&rt, 1, -1, 0);
    check_ends(&rt, 7, -64, 63);
    check_ends(&rt, 8, -128, 127);
    check_ends(&rt, 9, -256, 255);
    check_ends(
        &rt,
        63,
        -4_611_686_018_427_387_904,
        4_611_686_018_427_387_903,
    );
    check_ends(
        &rt,
        64,
        -9_223_372_036_854_775_808,
        9_223_372_036_854_775_807,
    );
    check_ends(
        &rt,
        65,
        -18_446_744_073_709_551_616,
        18_446_744_073_709_551_615,
    );
    check_ends(
        &rt,
        127,
        -85_070_591_730_234_615_865_843_651_857_942_052_864,
        85_070_591_730_234_615_865_843_651_857_942_052_863,
    );
    check_ends(&rt, 128, i128::MIN, i128::MAX);
    assert!(rt; unsigned(300, 8) == 44 && unsigned(-300, 8) == 212);
    assert!(rt; Outcome::Done != Outcome::Trap);
}
