//! Terms, each with what the rules for sums make of it.

use crate::tables::assert_steps;
use std::test::Fail;
use vg_rules_sum::SumRules;

#[test]
fn constants_beside_a_term(rt: HostRuntime) -> Result<(), Fail> {
    assert_steps(
        &rt,
        rt.alloc(),
        &SumRules,
        "
        (add8 a.0:8 0:8) => a.0:8
        (add8 a.0:8 255:8) => none
        (mul8 a.0:8 1:8) => a.0:8
        (mul8 a.0:8 0:8) => 0:8
        (mul8 a.0:8 255:8) => none
        (and8 a.0:8 255:8) => a.0:8
        (and8 a.0:8 0:8) => 0:8
        (and8 a.0:8 254:8) => none
        (or8 a.0:8 0:8) => a.0:8
        (or8 a.0:8 255:8) => 255:8
        (or8 a.0:8 254:8) => none
        (xor8 a.0:8 0:8) => a.0:8
        (xor8 a.0:8 255:8) => none
        (smin8 a.0:8 127:8) => a.0:8
        (smin8 a.0:8 128:8) => 128:8
        (smin8 a.0:8 129:8) => none
        (smax8 a.0:8 128:8) => a.0:8
        (smax8 a.0:8 127:8) => 127:8
        (smax8 a.0:8 126:8) => none
        (umin8 a.0:8 255:8) => a.0:8
        (umin8 a.0:8 0:8) => 0:8
        (umin8 a.0:8 127:8) => none
        (umax8 a.0:8 0:8) => a.0:8
        (umax8 a.0:8 255:8) => 255:8
        (umax8 a.0:8 128:8) => none
        (add1 a.0:1 1:1) => none
        (mul1 a.0:1 1:1) => a.0:1
        (mul1 a.0:1 0:1) => 0:1
        (smin1 a.0:1 0:1) => a.0:1
        (smin1 a.0:1 1:1) => 1:1
        (smax1 a.0:1 1:1) => a.0:1
        (smax1 a.0:1 0:1) => 0:1
        (and128 a.0:128 340282366920938463463374607431768211455:128) => a.0:128
        (smin128 a.0:128 170141183460469231731687303715884105727:128) => a.0:128
        (smax128 a.0:128 170141183460469231731687303715884105728:128) => a.0:128
        (smax128 a.0:128 340282366920938463463374607431768211455:128) => none
        ",
    )
}

#[test]
fn one_term_twice(rt: HostRuntime) -> Result<(), Fail> {
    assert_steps(
        &rt,
        rt.alloc(),
        &SumRules,
        "
        (add1 a.0:1 a.0:1) => none
        (add1 a.0:1 b.0:1) => none
        (mul1 a.0:1 a.0:1) => none
        (mul1 a.0:1 b.0:1) => none
        (and1 a.0:1 a.0:1) => a.0:1
        (and1 a.0:1 b.0:1) => none
        (or1 a.0:1 a.0:1) => a.0:1
        (or1 a.0:1 b.0:1) => none
        (xor1 a.0:1 a.0:1) => 0:1
        (xor1 a.0:1 b.0:1) => none
        (smin1 a.0:1 a.0:1) => a.0:1
        (smin1 a.0:1 b.0:1) => none
        (smax1 a.0:1 a.0:1) => a.0:1
        (smax1 a.0:1 b.0:1) => none
        (umin1 a.0:1 a.0:1) => a.0:1
        (umin1 a.0:1 b.0:1) => none
        (umax1 a.0:1 a.0:1) => a.0:1
        (umax1 a.0:1 b.0:1) => none
        (eq1 a.0:1 a.0:1) => none
        (eq1 a.0:1 b.0:1) => none
        (slt1 a.0:1 a.0:1) => none
        (slt1 a.0:1 b.0:1) => none
        (and16 a.0:16 a.0:16) => a.0:16
        (or128 a.0:128 a.0:128) => a.0:128
        (xor64 n:64 n:64) => 0:64
        (smin33 a.0:33 a.0:33) => a.0:33
        (umax8 p+4@0:8 p+4@0:8) => p+4@0:8
        (umax8 p+4@0:8 p+4@1:8) => none
        ",
    )
}

#[test]
fn sides_are_put_in_order(rt: HostRuntime) -> Result<(), Fail> {
    assert_steps(
        &rt,
        rt.alloc(),
        &SumRules,
        "
        (add8 b.0:8 a.0:8) => (add8 a.0:8 b.0:8)
        (umax8 b.0:8 a.0:8) => (umax8 a.0:8 b.0:8)
        (eq8 b.0:8 a.0:8) => (eq8 a.0:8 b.0:8)
        (slt8 b.0:8 a.0:8) => none
        (ult8 b.0:8 a.0:8) => none
        (cat16 b.0:8 a.0:8) => none
        (mul128 b.0:128 a.0:128) => (mul128 a.0:128 b.0:128)
        (and1 1:1 a.0:1) => (and1 a.0:1 1:1)
        (eq128 5:128 a.0:128) => (eq128 a.0:128 5:128)
        ",
    )
}

#[test]
fn parts_are_opened_again_and_again(rt: HostRuntime) -> Result<(), Fail> {
    assert_steps(
        &rt,
        rt.alloc(),
        &SumRules,
        "
        (or8 (or8 7:8 c.0:8) (or8 a.0:8 (or8 (mul8 a.0:8 a.0:8) b.0:8))) => (or8 (or8 (or8 (or8 a.0:8 b.0:8) c.0:8) (mul8 a.0:8 a.0:8)) 7:8)
        (or8 (or8 (or8 (or8 a.0:8 b.0:8) c.0:8) (mul8 a.0:8 a.0:8)) 7:8) => none
        (add64 a.0:64 (add64 b.0:64 c.0:64)) => (add64 (add64 a.0:64 b.0:64) c.0:64)
        (umin3 (umin3 c.0:3 b.0:3) (umin3 d.0:3 a.0:3)) => (umin3 (umin3 (umin3 a.0:3 b.0:3) c.0:3) d.0:3)
        ",
    )
}

#[test]
fn constants_alone_are_folded(rt: HostRuntime) -> Result<(), Fail> {
    assert_steps(
        &rt,
        rt.alloc(),
        &SumRules,
        "
        (sext16 128:8) => 65408:16
        (slt8 128:8 127:8) => 1:1
        (add8 255:8 2:8) => 1:8
        (sel8 0:1 3:8 4:8) => 4:8
        (sel8 a.0:1 3:8 4:8) => none
        0:8 => none
        (zext128 255:8) => 255:128
        (trunc1 255:8) => 1:1
        (lshr64 18446744073709551615:64 63) => 1:64
        (ashr16 32768:16 15) => 65535:16
        (mul128 340282366920938463463374607431768211455:128 340282366920938463463374607431768211455:128) => 1:128
        (cat16 1:8 2:8) => 258:16
        (eq1 1:1 1:1) => 1:1
        (ult64 1:64 0:64) => 0:1
        (smax8 128:8 127:8) => 127:8
        (umin8 128:8 127:8) => 127:8
        ",
    )
}

#[test]
fn the_first_row_that_applies_is_taken(rt: HostRuntime) -> Result<(), Fail> {
    assert_steps(
        &rt,
        rt.alloc(),
        &SumRules,
        "
        (or8 (or8 a.0:8 1:8) 255:8) => (or8 a.0:8 255:8)
        (mul8 (mul8 a.0:8 20:8) 13:8) => (mul8 (mul8 a.0:8 13:8) 20:8)
        (mul8 (mul8 a.0:8 13:8) 20:8) => (mul8 a.0:8 4:8)
        (add8 (or8 a.0:8 1:8) 2:8) => none
        (xor128 (xor128 a.0:128 1:128) 3:128) => (xor128 a.0:128 2:128)
        (smin16 (smin16 a.0:16 5:16) 7:16) => (smin16 a.0:16 5:16)
        (umax4 (umax4 a.0:4 5:4) 7:4) => (umax4 a.0:4 7:4)
        ",
    )
}

#[test]
fn a_sum_that_ends_at_its_leaf(rt: HostRuntime) -> Result<(), Fail> {
    assert_steps(
        &rt,
        rt.alloc(),
        &SumRules,
        "
        (add8 1:8 (add8 a.0:8 255:8)) => (add8 (add8 a.0:8 1:8) 255:8)
        (add8 (add8 a.0:8 1:8) 255:8) => (add8 a.0:8 0:8)
        (add8 a.0:8 0:8) => a.0:8
        a.0:8 => none
        ",
    )
}
