//! Terms, each with what the rules for widths make of it.

use crate::tables::assert_steps;
use std::test::Fail;
use vg_rules_width::WidthRules;

#[test]
fn operations_on_one_term(rt: HostRuntime) -> Result<(), Fail> {
    assert_steps(
        &rt,
        rt.alloc(),
        &WidthRules,
        "
        (trunc4 (trunc8 a.0:16)) => (trunc4 a.0:16)
        (trunc1 (trunc2 a.0:128)) => (trunc1 a.0:128)
        (trunc7 (zext16 a.0:8)) => (trunc7 a.0:8)
        (trunc8 (zext16 a.0:8)) => a.0:8
        (trunc9 (zext16 a.0:8)) => (zext9 a.0:8)
        (trunc1 (sext2 a.0:1)) => a.0:1
        (trunc8 (sext16 a.0:8)) => a.0:8
        (trunc9 (sext16 a.0:8)) => (sext9 a.0:8)
        (zext32 (zext16 a.0:8)) => (zext32 a.0:8)
        (sext32 (sext16 a.0:8)) => (sext32 a.0:8)
        (sext32 (zext16 a.0:8)) => (zext32 a.0:8)
        (zext32 (sext16 a.0:8)) => none
        (sext32 (lshr16 a.0:16 1)) => (zext32 (lshr16 a.0:16 1))
        (sext32 (ashr16 a.0:16 1)) => none
        (trunc8 (ashr16 a.0:16 8)) => (trunc8 (lshr16 a.0:16 8))
        (trunc8 (ashr16 a.0:16 9)) => none
        (trunc8 (lshr16 a.0:16 7)) => (trunc8 (lshr15 (trunc15 a.0:16) 7))
        (trunc8 (lshr16 a.0:16 0)) => (lshr8 (trunc8 a.0:16) 0)
        (trunc8 (lshr16 a.0:16 8)) => none
        (lshr16 (zext16 a.0:8) 0) => (zext16 a.0:8)
        (lshr16 (zext16 a.0:8) 7) => (zext16 (lshr8 a.0:8 7))
        (lshr16 (zext16 a.0:8) 8) => 0:16
        (ashr16 (zext16 a.0:8) 7) => (zext16 (lshr8 a.0:8 7))
        (ashr16 (zext16 a.0:8) 8) => 0:16
        (ashr16 (sext16 a.0:8) 6) => (sext16 (ashr8 a.0:8 6))
        (ashr16 (sext16 a.0:8) 8) => (sext16 (ashr8 a.0:8 7))
        (ashr2 (sext2 a.0:1) 1) => (sext2 (ashr1 a.0:1 0))
        (lshr16 (sext16 a.0:8) 3) => none
        (lshr8 (lshr8 a.0:8 3) 4) => (lshr8 a.0:8 7)
        (lshr8 (lshr8 a.0:8 3) 5) => 0:8
        (ashr8 (ashr8 a.0:8 3) 3) => (ashr8 a.0:8 6)
        (ashr8 (ashr8 a.0:8 3) 5) => (ashr8 a.0:8 7)
        (ashr8 (lshr8 a.0:8 3) 0) => (lshr8 a.0:8 3)
        (ashr8 (lshr8 a.0:8 3) 1) => none
        (trunc64 (trunc100 a.0:128)) => (trunc64 a.0:128)
        (trunc32 (sext64 a.0:16)) => (sext32 a.0:16)
        (zext128 (zext64 a.0:1)) => (zext128 a.0:1)
        (sext128 (sext2 a.0:1)) => (sext128 a.0:1)
        (trunc1 (ashr64 a.0:64 63)) => (trunc1 (lshr64 a.0:64 63))
        (trunc1 (lshr64 a.0:64 3)) => (trunc1 (lshr4 (trunc4 a.0:64) 3))
        (lshr128 (zext128 a.0:64) 63) => (zext128 (lshr64 a.0:64 63))
        (ashr128 (sext128 a.0:64) 127) => (sext128 (ashr64 a.0:64 63))
        (lshr128 (lshr128 a.0:128 127) 1) => 0:128
        (ashr128 (ashr128 a.0:128 127) 127) => (ashr128 a.0:128 127)
        ",
    )
}

#[test]
fn operations_on_a_pair_of_terms(rt: HostRuntime) -> Result<(), Fail> {
    assert_steps(
        &rt,
        rt.alloc(),
        &WidthRules,
        "
        (trunc8 (add16 a.0:16 b.0:16)) => (add8 (trunc8 a.0:16) (trunc8 b.0:16))
        (trunc1 (mul2 a.0:2 b.0:2)) => (mul1 (trunc1 a.0:2) (trunc1 b.0:2))
        (trunc8 (and16 a.0:16 b.0:16)) => (and8 (trunc8 a.0:16) (trunc8 b.0:16))
        (trunc8 (or16 a.0:16 b.0:16)) => (or8 (trunc8 a.0:16) (trunc8 b.0:16))
        (trunc8 (xor16 a.0:16 b.0:16)) => (xor8 (trunc8 a.0:16) (trunc8 b.0:16))
        (trunc8 (smin16 a.0:16 b.0:16)) => none
        (trunc8 (umax16 a.0:16 b.0:16)) => none
        (trunc7 (cat16 a.0:8 b.0:8)) => (trunc7 b.0:8)
        (trunc8 (cat16 a.0:8 b.0:8)) => b.0:8
        (trunc9 (cat16 a.0:8 b.0:8)) => (cat9 (trunc1 a.0:8) b.0:8)
        (trunc1 (cat2 a.0:1 b.0:1)) => b.0:1
        (lshr16 (cat16 a.0:8 b.0:8) 7) => none
        (lshr16 (cat16 a.0:8 b.0:8) 8) => (zext16 a.0:8)
        (lshr16 (cat16 a.0:8 b.0:8) 9) => (zext16 (lshr8 a.0:8 1))
        (ashr16 (cat16 a.0:8 b.0:8) 8) => none
        (zext32 (add16 a.0:16 b.0:16)) => none
        (trunc64 (add128 a.0:128 b.0:128)) => (add64 (trunc64 a.0:128) (trunc64 b.0:128))
        (trunc32 (xor33 a.0:33 b.0:33)) => (xor32 (trunc32 a.0:33) (trunc32 b.0:33))
        (trunc96 (cat128 a.0:64 b.0:64)) => (cat96 (trunc32 a.0:64) b.0:64)
        (lshr128 (cat128 a.0:64 b.0:64) 64) => (zext128 a.0:64)
        (lshr9 (cat9 a.0:1 b.0:8) 8) => (zext9 a.0:1)
        (trunc16 (sel64 n:1 a.0:64 b.0:64)) => (sel16 n:1 (trunc16 a.0:64) (trunc16 b.0:64))
        ",
    )
}

#[test]
fn products_and_sums_of_known_widths(rt: HostRuntime) -> Result<(), Fail> {
    assert_steps(
        &rt,
        rt.alloc(),
        &WidthRules,
        "
        (mul16 (zext16 a.0:8) (zext16 b.0:8)) => none
        (mul17 (zext17 a.0:8) (zext17 b.0:8)) => (zext17 (mul16 (trunc16 (zext17 a.0:8)) (trunc16 (zext17 b.0:8))))
        (mul16 (sext16 a.0:8) (sext16 b.0:8)) => none
        (mul17 (sext17 a.0:8) (sext17 b.0:8)) => (sext17 (mul16 (trunc16 (sext17 a.0:8)) (trunc16 (sext17 b.0:8))))
        (mul16 (sext16 a.0:8) (zext16 b.0:8)) => none
        (mul17 (sext17 a.0:8) (zext17 b.0:8)) => (sext17 (mul16 (trunc16 (sext17 a.0:8)) (trunc16 (zext17 b.0:8))))
        (mul17 (zext17 a.0:8) (sext17 b.0:8)) => (sext17 (mul16 (trunc16 (zext17 a.0:8)) (trunc16 (sext17 b.0:8))))
        (zext32 (add9 (zext9 a.0:8) (zext9 b.0:8))) => none
        (zext32 (add10 (zext10 a.0:8) (zext10 b.0:8))) => (zext32 (add9 (trunc9 (zext10 a.0:8)) (trunc9 (zext10 b.0:8))))
        (sext32 (add9 (zext9 a.0:8) (zext9 b.0:8))) => none
        (sext32 (add10 (zext10 a.0:8) (zext10 b.0:8))) => (zext32 (add9 (trunc9 (zext10 a.0:8)) (trunc9 (zext10 b.0:8))))
        (sext32 (add9 (sext9 a.0:8) (sext9 b.0:8))) => none
        (sext32 (add10 (sext10 a.0:8) (sext10 b.0:8))) => (sext32 (add9 (trunc9 (sext10 a.0:8)) (trunc9 (sext10 b.0:8))))
        (zext32 (add10 (sext10 a.0:8) (sext10 b.0:8))) => none
        (mul128 (sext128 a.0:16) (sext128 b.0:16)) => (sext128 (mul32 (trunc32 (sext128 a.0:16)) (trunc32 (sext128 b.0:16))))
        (mul32 (sext32 a.0:16) (sext32 b.0:16)) => none
        (trunc32 (sext128 (mul32 (sext32 a.0:16) (sext32 b.0:16)))) => (mul32 (sext32 a.0:16) (sext32 b.0:16))
        (mul3 (zext3 a.0:1) (zext3 b.0:1)) => (zext3 (mul2 (trunc2 (zext3 a.0:1)) (trunc2 (zext3 b.0:1))))
        (zext128 (add100 (zext100 a.0:64) (zext100 b.0:64))) => (zext128 (add65 (trunc65 (zext100 a.0:64)) (trunc65 (zext100 b.0:64))))
        ",
    )
}

#[test]
fn constants_and_leaves(rt: HostRuntime) -> Result<(), Fail> {
    assert_steps(
        &rt,
        rt.alloc(),
        &WidthRules,
        "
        (cat16 0:8 b.0:8) => (zext16 b.0:8)
        (cat16 1:8 b.0:8) => none
        (cat16 255:8 b.0:8) => none
        (cat9 0:1 b.0:8) => (zext9 b.0:8)
        (cat9 1:1 b.0:8) => none
        (sext16 0:8) => (zext16 0:8)
        (sext16 127:8) => (zext16 127:8)
        (sext16 128:8) => none
        (sext16 255:8) => none
        (sext16 0:1) => none
        (sext16 1:1) => none
        (lshr8 a.0:8 0) => a.0:8
        (lshr8 a.0:8 1) => none
        (ashr1 a.0:1 0) => a.0:1
        (ashr8 a.0:8 7) => none
        (trunc8 (sel16 a.0:1 a.0:16 b.0:16)) => (sel8 a.0:1 (trunc8 a.0:16) (trunc8 b.0:16))
        a.0:8 => none
        (cat128 0:64 a.0:64) => (zext128 a.0:64)
        (ashr64 a.0:64 0) => a.0:64
        (sext64 (zext33 a.0:32)) => (zext64 a.0:32)
        ",
    )
}
