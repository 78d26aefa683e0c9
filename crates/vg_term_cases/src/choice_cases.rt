//! Terms, each with what the rules for choices make of it.

use crate::tables::assert_steps;
use std::test::Fail;
use vg_rules_choice::ChoiceRules;

#[test]
fn selections_that_are_decided(rt: HostRuntime) -> Result<(), Fail> {
    assert_steps(
        &rt,
        rt.alloc(),
        &ChoiceRules,
        "
        (sel8 c.0:1 a.0:8 a.0:8) => a.0:8
        (sel8 1:1 a.0:8 b.0:8) => a.0:8
        (sel8 0:1 a.0:8 b.0:8) => b.0:8
        (sel8 c.0:1 a.0:8 b.0:8) => none
        (sel128 n:1 a.0:128 a.0:128) => a.0:128
        (sel1 1:1 a.0:1 b.0:1) => a.0:1
        ",
    )
}

#[test]
fn opposite_conditions(rt: HostRuntime) -> Result<(), Fail> {
    assert_steps(
        &rt,
        rt.alloc(),
        &ChoiceRules,
        "
        (sel8 (xor1 c.0:1 1:1) a.0:8 b.0:8) => (sel8 c.0:1 b.0:8 a.0:8)
        (sel8 (xor1 c.0:1 0:1) a.0:8 b.0:8) => none
        (sel8 (and1 c.0:1 1:1) a.0:8 b.0:8) => none
        (sel8 (xor1 c.0:1 1:1) a.0:8 a.0:8) => a.0:8
        (sel8 (xor1 1:1 c.0:1) a.0:8 b.0:8) => none
        (sel64 (xor1 n:1 1:1) a.0:64 b.0:64) => (sel64 n:1 b.0:64 a.0:64)
        ",
    )
}

#[test]
fn selections_between_the_sides(rt: HostRuntime) -> Result<(), Fail> {
    assert_steps(
        &rt,
        rt.alloc(),
        &ChoiceRules,
        "
        (sel8 (slt8 a.0:8 b.0:8) a.0:8 b.0:8) => (smin8 a.0:8 b.0:8)
        (sel8 (slt8 a.0:8 b.0:8) b.0:8 a.0:8) => (smax8 a.0:8 b.0:8)
        (sel8 (ult8 a.0:8 b.0:8) a.0:8 b.0:8) => (umin8 a.0:8 b.0:8)
        (sel8 (ult8 a.0:8 b.0:8) b.0:8 a.0:8) => (umax8 a.0:8 b.0:8)
        (sel8 (eq8 a.0:8 b.0:8) a.0:8 b.0:8) => none
        (sel8 (slt8 a.0:8 b.0:8) a.0:8 c.0:8) => none
        (sel8 (slt8 a.0:8 b.0:8) c.0:8 b.0:8) => none
        (sel8 (slt8 a.0:8 b.0:8) a.0:8 a.0:8) => a.0:8
        (sel1 (slt1 a.0:1 b.0:1) a.0:1 b.0:1) => (smin1 a.0:1 b.0:1)
        (sel128 (ult128 a.0:128 b.0:128) b.0:128 a.0:128) => (umax128 a.0:128 b.0:128)
        (sel8 (slt8 a.0:8 a.0:8) a.0:8 a.0:8) => a.0:8
        ",
    )
}

#[test]
fn selections_of_extended_sides(rt: HostRuntime) -> Result<(), Fail> {
    assert_steps(
        &rt,
        rt.alloc(),
        &ChoiceRules,
        "
        (sel16 (slt8 a.0:8 b.0:8) (sext16 a.0:8) (sext16 b.0:8)) => (sext16 (smin8 a.0:8 b.0:8))
        (sel16 (slt8 a.0:8 b.0:8) (zext16 a.0:8) (zext16 b.0:8)) => none
        (sel16 (ult8 a.0:8 b.0:8) (zext16 a.0:8) (zext16 b.0:8)) => (zext16 (umin8 a.0:8 b.0:8))
        (sel16 (ult8 a.0:8 b.0:8) (sext16 a.0:8) (sext16 b.0:8)) => none
        (sel2 (slt1 a.0:1 b.0:1) (sext2 a.0:1) (sext2 b.0:1)) => (sext2 (smin1 a.0:1 b.0:1))
        (sel32 (slt16 (zext16 a.0:8) (zext16 b.0:8)) (zext32 a.0:8) (zext32 b.0:8)) => (sext32 (smin16 (zext16 a.0:8) (zext16 b.0:8)))
        (sel128 (slt127 (sext127 a.0:8) (sext127 b.0:8)) (sext128 a.0:8) (sext128 b.0:8)) => (sext128 (smin127 (sext127 a.0:8) (sext127 b.0:8)))
        (sel32 (ult16 (zext16 a.0:8) (zext16 b.0:8)) (zext32 a.0:8) (zext32 b.0:8)) => (zext32 (umin16 (zext16 a.0:8) (zext16 b.0:8)))
        (sel32 (ult16 (sext16 a.0:8) (sext16 b.0:8)) (sext32 a.0:8) (sext32 b.0:8)) => none
        (sel12 (slt16 (zext16 a.0:8) (zext16 b.0:8)) (zext12 a.0:8) (zext12 b.0:8)) => none
        (sel8 (slt16 (zext16 a.0:8) (zext16 b.0:8)) a.0:8 b.0:8) => none
        ",
    )
}

#[test]
fn a_clamp_from_below(rt: HostRuntime) -> Result<(), Fail> {
    assert_steps(
        &rt,
        rt.alloc(),
        &ChoiceRules,
        "
        (sel32 (slt32 a.0:32 4294934528:32) 4294934528:32 a.0:32) => (smax32 a.0:32 4294934528:32)
        (sel32 (slt16 a.0:16 32768:16) 4294934528:32 (sext32 a.0:16)) => (sext32 (smax16 a.0:16 32768:16))
        (sel32 (slt16 a.0:16 32768:16) 32768:32 (sext32 a.0:16)) => none
        (sel32 (slt16 a.0:16 32768:16) 4294934527:32 (sext32 a.0:16)) => none
        (sel32 (slt16 a.0:16 32767:16) 32767:32 (sext32 a.0:16)) => (sext32 (smax16 a.0:16 32767:16))
        (smax32 (sext32 a.0:8) 4294934528:32) => (sext32 (smax16 (trunc16 (sext32 a.0:8)) (trunc16 4294934528:32)))
        (smax32 (sext32 a.0:8) 4294934527:32) => (sext32 (smax17 (trunc17 (sext32 a.0:8)) (trunc17 4294934527:32)))
        (smax32 (sext32 a.0:8) 2147483648:32) => none
        ",
    )
}

#[test]
fn operations_in_more_bits_than_needed(rt: HostRuntime) -> Result<(), Fail> {
    assert_steps(
        &rt,
        rt.alloc(),
        &ChoiceRules,
        "
        (smin9 (zext9 a.0:8) (zext9 b.0:8)) => (zext9 (umin8 (trunc8 (zext9 a.0:8)) (trunc8 (zext9 b.0:8))))
        (smax9 (zext9 a.0:8) (zext9 b.0:8)) => (zext9 (umax8 (trunc8 (zext9 a.0:8)) (trunc8 (zext9 b.0:8))))
        (smin9 (zext9 a.0:8) (sext9 b.0:8)) => none
        (smin10 (zext10 a.0:8) (sext10 b.0:8)) => (sext10 (smin9 (trunc9 (zext10 a.0:8)) (trunc9 (sext10 b.0:8))))
        (smax9 (sext9 a.0:8) (sext9 b.0:8)) => (sext9 (smax8 (trunc8 (sext9 a.0:8)) (trunc8 (sext9 b.0:8))))
        (umin9 (zext9 a.0:8) (zext9 b.0:8)) => (zext9 (umin8 (trunc8 (zext9 a.0:8)) (trunc8 (zext9 b.0:8))))
        (umax2 (zext2 a.0:1) (zext2 b.0:1)) => (zext2 (umax1 (trunc1 (zext2 a.0:1)) (trunc1 (zext2 b.0:1))))
        (umin16 (zext16 a.0:8) (sext16 b.0:8)) => none
        (umax16 (sext16 a.0:8) (sext16 b.0:8)) => none
        (smin1 a.0:1 b.0:1) => none
        (smin128 a.0:128 b.0:128) => none
        (add16 (zext16 a.0:8) (zext16 b.0:8)) => none
        (slt9 (zext9 a.0:8) (zext9 b.0:8)) => (ult8 (trunc8 (zext9 a.0:8)) (trunc8 (zext9 b.0:8)))
        (slt9 (zext9 a.0:8) (sext9 b.0:8)) => none
        (slt10 (zext10 a.0:8) (sext10 b.0:8)) => (slt9 (trunc9 (zext10 a.0:8)) (trunc9 (sext10 b.0:8)))
        (ult2 (zext2 a.0:1) (zext2 b.0:1)) => (ult1 (trunc1 (zext2 a.0:1)) (trunc1 (zext2 b.0:1)))
        (ult16 (zext16 a.0:8) (sext16 b.0:8)) => none
        (eq9 (zext9 a.0:8) (zext9 b.0:8)) => (eq8 (trunc8 (zext9 a.0:8)) (trunc8 (zext9 b.0:8)))
        (eq10 (sext10 a.0:8) (zext10 b.0:8)) => (eq9 (trunc9 (sext10 a.0:8)) (trunc9 (zext10 b.0:8)))
        (eq9 (sext9 a.0:8) (zext9 b.0:8)) => none
        (slt1 a.0:1 b.0:1) => none
        ",
    )
}
