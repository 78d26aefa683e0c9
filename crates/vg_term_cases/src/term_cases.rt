//! Terms: their values, known widths, order, measure and text.

use crate::tables::{Told, assert_rows, assert_values};
use std::alloc::{AllocError, Global};
use std::process::Abort;
use std::test::Fail;
use vg_base::Items;
use vg_terms::{Env, LeafKey, order_is_total};

// The parameter 0 from its bit 0 on is 300, and not 7; the load 3, 8 bytes below the pointer 0, has all bits.
fn env(alloc: Global) -> Result<Env, AllocError> {
    let bits = LeafKey {
        kind: 0,
        first: 0,
        second: 0,
        third: 0,
    };
    let load = LeafKey {
        kind: 1,
        first: 0,
        second: -8,
        third: 3,
    };
    let mut pairs = Vec::new(alloc);
    pairs.push((bits, 300u128))?;
    pairs.push((bits, 7))?;
    pairs.push((load, u128::MAX))?;
    Ok(Env {
        pairs: Items::from_vec(pairs),
    })
}

fn assert_values_in_env(rt: &impl Abort, alloc: Global, rows: &str) -> Result<(), Fail> {
    let env = env(alloc)?;
    assert_values(rt, alloc, &env, rows)
}

#[test]
fn values_of_one(rt: HostRuntime) -> Result<(), Fail> {
    assert_values_in_env(
        &rt,
        rt.alloc(),
        "
        (zext16 255:8) => 255
        (zext2 1:1) => 1
        (zext128 170141183460469231731687303715884105727:127) => 170141183460469231731687303715884105727
        (sext16 255:8) => 65535
        (sext16 128:8) => 65408
        (sext16 127:8) => 127
        (sext2 1:1) => 3
        (sext128 1:1) => 340282366920938463463374607431768211455
        (trunc8 43981:16) => 205
        (trunc1 340282366920938463463374607431768211455:128) => 1
        (lshr8 255:8 1) => 127
        (lshr8 255:8 7) => 1
        (lshr1 1:1 0) => 1
        (lshr128 340282366920938463463374607431768211455:128 127) => 1
        (ashr8 255:8 1) => 255
        (ashr8 128:8 1) => 192
        (ashr8 127:8 1) => 63
        (ashr8 128:8 7) => 255
        (ashr1 1:1 0) => 1
        (ashr128 170141183460469231731687303715884105728:128 127) => 340282366920938463463374607431768211455
        (ashr128 170141183460469231731687303715884105728:128 1) => 255211775190703847597530955573826158592
        ",
    )
}

#[test]
fn values_of_two(rt: HostRuntime) -> Result<(), Fail> {
    assert_values_in_env(
        &rt,
        rt.alloc(),
        "
        (add8 255:8 1:8) => 0
        (add8 127:8 1:8) => 128
        (add1 1:1 1:1) => 0
        (add128 340282366920938463463374607431768211455:128 1:128) => 0
        (mul8 255:8 255:8) => 1
        (mul8 128:8 2:8) => 0
        (mul1 1:1 1:1) => 1
        (mul128 340282366920938463463374607431768211455:128 340282366920938463463374607431768211455:128) => 1
        (and8 240:8 60:8) => 48
        (and1 1:1 0:1) => 0
        (and128 340282366920938463463374607431768211455:128 170141183460469231731687303715884105728:128) => 170141183460469231731687303715884105728
        (or8 240:8 60:8) => 252
        (or1 1:1 0:1) => 1
        (or128 170141183460469231731687303715884105728:128 170141183460469231731687303715884105727:128) => 340282366920938463463374607431768211455
        (xor8 240:8 60:8) => 204
        (xor1 1:1 1:1) => 0
        (xor128 340282366920938463463374607431768211455:128 170141183460469231731687303715884105728:128) => 170141183460469231731687303715884105727
        (smin8 128:8 127:8) => 128
        (smin1 0:1 1:1) => 1
        (smin128 170141183460469231731687303715884105727:128 170141183460469231731687303715884105728:128) => 170141183460469231731687303715884105728
        (smax8 128:8 127:8) => 127
        (smax1 0:1 1:1) => 0
        (smax128 170141183460469231731687303715884105727:128 170141183460469231731687303715884105728:128) => 170141183460469231731687303715884105727
        (umin8 128:8 127:8) => 127
        (umin1 0:1 1:1) => 0
        (umin128 340282366920938463463374607431768211455:128 0:128) => 0
        (umax8 128:8 127:8) => 128
        (umax1 0:1 1:1) => 1
        (umax128 340282366920938463463374607431768211455:128 0:128) => 340282366920938463463374607431768211455
        ",
    )
}

#[test]
fn values_of_comparisons_pairs_and_choices(rt: HostRuntime) -> Result<(), Fail> {
    assert_values_in_env(
        &rt,
        rt.alloc(),
        "
        (eq8 255:8 255:8) => 1
        (eq8 255:8 0:8) => 0
        (eq128 340282366920938463463374607431768211455:128 340282366920938463463374607431768211455:128) => 1
        (slt8 128:8 127:8) => 1
        (slt8 127:8 128:8) => 0
        (slt8 5:8 5:8) => 0
        (slt1 1:1 0:1) => 1
        (slt128 170141183460469231731687303715884105728:128 0:128) => 1
        (ult8 128:8 127:8) => 0
        (ult8 127:8 128:8) => 1
        (ult1 1:1 0:1) => 0
        (ult128 170141183460469231731687303715884105728:128 0:128) => 0
        (cat16 171:8 205:8) => 43981
        (cat2 1:1 0:1) => 2
        (cat128 18446744073709551615:64 0:64) => 340282366920938463444927863358058659840
        (cat128 1:1 0:127) => 170141183460469231731687303715884105728
        (sel8 1:1 7:8 9:8) => 7
        (sel8 0:1 7:8 9:8) => 9
        ",
    )
}

#[test]
fn the_first_pair_of_a_key_counts(rt: HostRuntime) -> Result<(), Fail> {
    assert_values_in_env(
        &rt,
        rt.alloc(),
        "
        a.0:8 => 44
        a.0:128 => 300
        b.0:8 => 0
        p-8@3:16 => 65535
        p+8@3:16 => 0
        ",
    )
}

#[test]
fn known_widths(rt: HostRuntime) -> Result<(), Fail> {
    assert_rows(
        &rt,
        rt.alloc(),
        Told::Known,
        "
        a.0:8 => 8 8
        0:8 => 1 1
        1:8 => 1 2
        5:8 => 3 4
        127:8 => 7 8
        128:8 => 8 8
        200:8 => 8 7
        255:8 => 8 1
        1:1 => 1 1
        340282366920938463463374607431768211455:128 => 128 1
        (zext32 a.0:8) => 8 9
        (sext32 a.0:8) => 32 8
        (sext32 (zext16 a.0:8)) => 8 9
        (trunc12 (zext16 a.0:8)) => 8 9
        (trunc8 (zext16 a.0:8)) => 8 8
        (lshr16 (zext16 a.0:8) 3) => 5 6
        (lshr16 (zext16 a.0:8) 9) => 1 2
        (ashr16 (zext16 a.0:8) 3) => 5 6
        (ashr16 (sext16 a.0:8) 3) => 16 5
        (ashr16 (sext16 a.0:8) 7) => 16 1
        (ashr16 (sext16 a.0:8) 15) => 16 1
        (add32 (zext32 a.0:8) (zext32 a.0:8)) => 9 10
        (add32 (zext32 a.0:8) (sext32 a.0:8)) => 32 10
        (mul32 (zext32 a.0:8) (zext32 a.0:8)) => 16 17
        (mul32 (zext32 a.0:8) (sext32 a.0:8)) => 32 16
        (and32 (zext32 a.0:8) (zext32 a.0:8)) => 8 9
        (and32 (zext32 a.0:8) (sext32 a.0:8)) => 8 9
        (or32 (zext32 a.0:8) (zext32 a.0:8)) => 8 9
        (or32 (zext32 a.0:8) (sext32 a.0:8)) => 32 9
        (xor32 (zext32 a.0:8) (zext32 a.0:8)) => 8 9
        (xor32 (zext32 a.0:8) (sext32 a.0:8)) => 32 9
        (smin32 (zext32 a.0:8) (zext32 a.0:8)) => 8 9
        (smin32 (zext32 a.0:8) (sext32 a.0:8)) => 32 9
        (smax32 (zext32 a.0:8) (zext32 a.0:8)) => 8 9
        (smax32 (zext32 a.0:8) (sext32 a.0:8)) => 32 9
        (umin32 (zext32 a.0:8) (zext32 a.0:8)) => 8 9
        (umin32 (zext32 a.0:8) (sext32 a.0:8)) => 8 9
        (umax32 (zext32 a.0:8) (zext32 a.0:8)) => 8 9
        (umax32 (zext32 a.0:8) (sext32 a.0:8)) => 32 32
        (mul32 (sext32 a.0:8) (sext32 a.0:8)) => 32 16
        (cat16 5:8 a.0:8) => 11 12
        (eq32 (zext32 a.0:8) (zext32 a.0:8)) => 1 1
        (slt32 (zext32 a.0:8) (zext32 a.0:8)) => 1 1
        (ult32 (zext32 a.0:8) (zext32 a.0:8)) => 1 1
        (sel32 a.0:1 (zext32 a.0:8) (sext32 a.0:8)) => 32 9
        ",
    )
}

#[test]
fn terms_are_ordered_by_shape_and_then_by_keys(rt: HostRuntime) -> Result<(), Fail> {
    order_is_total();
    assert_rows(
        &rt,
        rt.alloc(),
        Told::Next,
        "
        d.0:8 => 0:8
        #9:8 => a.0:16
        255:8 => 0:16
        1:8 => 2:8
        (lshr8 d.0:8 1) => (lshr8 a.0:8 2)
        (zext64 d.0:8) => (sext16 a.0:8)
        (add8 b.0:8 a.0:8) => (add8 b.0:8 0:8)
        (add8 a.0:8 c.0:8) => (add8 b.0:8 a.0:8)
        (add8 b.0:8 0:8) => (sel8 a.0:1 a.0:8 a.0:8)
        d.9:8 => p+0@0:8
        p-1@9:8 => p+0@0:8
        p+5@1:8 => p+5@2:8
        p+5@1:8 => n:8
        n:8 => #0:8
        #0:8 => #1:8
        ",
    )
}

#[test]
fn weight_and_disorder(rt: HostRuntime) -> Result<(), Fail> {
    assert_rows(
        &rt,
        rt.alloc(),
        Told::Measures,
        "
        (zext16 a.0:8) => 2 0
        (sext16 a.0:8) => 3 0
        (lshr16 a.0:16 0) => 129 0
        (ashr16 a.0:16 0) => 130 0
        (add16 a.0:16 b.0:16) => 130 0
        (cat16 a.0:8 b.0:8) => 130 0
        (eq8 a.0:8 b.0:8) => 66 0
        (ult8 a.0:8 b.0:8) => 66 0
        (add8 (mul8 a.0:8 c.0:8) (mul8 b.0:8 a.0:8)) => 196 1
        (add8 (mul8 a.0:8 c.0:8) (mul8 a.0:8 b.0:8)) => 196 1
        (sel8 a.0:1 (add8 (mul8 a.0:8 c.0:8) (mul8 a.0:8 b.0:8)) a.0:8) => 262 1
        (add8 a.0:8 b.0:8) => 66 0
        (add8 b.0:8 b.0:8) => 66 0
        (add8 b.0:8 a.0:8) => 66 1
        (umax8 b.0:8 a.0:8) => 66 1
        (eq8 b.0:8 a.0:8) => 66 1
        (slt8 b.0:8 a.0:8) => 66 0
        (cat16 b.0:8 a.0:8) => 130 0
        (add8 (add8 a.0:8 b.0:8) c.0:8) => 131 0
        (add8 (add8 a.0:8 c.0:8) b.0:8) => 131 1
        (add8 a.0:8 (add8 b.0:8 c.0:8)) => 131 1
        (add8 a.0:8 (mul8 c.0:8 b.0:8)) => 131 1
        ",
    )
}

#[test]
fn ill_formed_terms_are_told(rt: HostRuntime) -> Result<(), Fail> {
    assert_rows(
        &rt,
        rt.alloc(),
        Told::IllFormed,
        "
        a.0:0
        0:129
        256:8
        (zext8 a.0:8)
        (trunc8 a.0:8)
        (lshr8 a.0:8 8)
        (add8 a.0:8 a.0:16)
        (cat129 a.0:1 b.0:128)
        (sel8 a.0:8 a.0:8 b.0:8)
        (eq8 a.0:8 a.0:16)
        (sext128 (zext16 a.0:0))
        (add8 (add8 a.0:8 256:8) b.0:8)
        ",
    )
}

#[test]
fn texts(rt: HostRuntime) -> Result<(), Fail> {
    assert_rows(
        &rt,
        rt.alloc(),
        Told::Text,
        "
        b.32:16
        p+4@17:32
        p+0@0:32
        p-2147483648@4:64
        n:8
        #12:8
        340282366920938463463374607431768211455:128
        (zext16 a.0:8)
        (sext16 a.0:8)
        (trunc4 a.0:8)
        (lshr8 a.0:8 1)
        (ashr8 a.0:8 0)
        (add8 a.0:8 b.0:8)
        (mul8 a.0:8 b.0:8)
        (and8 a.0:8 b.0:8)
        (or8 a.0:8 b.0:8)
        (xor8 a.0:8 b.0:8)
        (smin8 a.0:8 b.0:8)
        (smax8 a.0:8 b.0:8)
        (umin8 a.0:8 b.0:8)
        (umax8 a.0:8 b.0:8)
        (eq8 a.0:8 b.0:8)
        (slt8 a.0:8 b.0:8)
        (ult8 a.0:8 b.0:8)
        (cat16 a.0:8 b.0:8)
        (sel8 1:1 a.0:8 b.0:8)
        (sel8 a.0:1 (add8 (ashr8 d.0:8 3) 9:8) c.0:8)
        (ashr64 (lshr64 (ashr64 n:64 1) 2) 63)
        (sel128 (slt128 a.0:128 (sext128 b.0:64)) (mul128 c.0:128 (zext128 #4294967295:1)) (cat128 p-8@0:64 d.9223372036854775807:64))
        ",
    )
}
