//! Pairs of terms, with whether they have the same sum.

use crate::tables::{columns, read_formed};
use std::alloc::Global;
use std::process::Abort;
use std::test::Fail;
use vg_sums::have_same_sum;

fn is_same(rt: &impl Abort, alloc: Global, row: &str) -> Result<bool, Fail> {
    let (left, right) = columns(row)?;
    let left = read_formed(rt, alloc, left)?;
    let right = read_formed(rt, alloc, right)?;
    Ok(have_same_sum(alloc, &left, &right)?)
}

fn assert_all(rt: &impl Abort, alloc: Global, want: bool, rows: &str) -> Result<(), Fail> {
    for row in rows.trim().lines() {
        let same = is_same(rt, alloc, row)?;
        assert!(rt; same == want, "{row}");
    }
    Ok(())
}

#[test]
fn terms_with_the_same_sum(rt: HostRuntime) -> Result<(), Fail> {
    assert_all(
        &rt,
        rt.alloc(),
        true,
        "
        (mul32 a.0:32 5:32) => (add32 a.0:32 (mul32 a.0:32 4:32))
        (mul8 (add8 a.0:8 b.0:8) c.0:8) => (add8 (mul8 c.0:8 a.0:8) (mul8 b.0:8 c.0:8))
        (trunc8 (add16 (zext16 a.0:8) (zext16 b.0:8))) => (add8 a.0:8 b.0:8)
        (zext32 (add16 (zext16 a.0:8) (zext16 b.0:8))) => (add32 (zext32 a.0:8) (zext32 b.0:8))
        (trunc16 (sext32 a.0:16)) => a.0:16
        (cat16 (trunc8 (lshr16 a.0:16 8)) (trunc8 a.0:16)) => a.0:16
        (trunc8 (lshr9 (add9 (add9 (zext9 a.0:8) (zext9 b.0:8)) 1:9) 1)) => (trunc8 (lshr16 (add16 (add16 (zext16 b.0:8) (zext16 a.0:8)) 1:16) 1))
        (and8 c.0:8 (sext8 (ult8 a.0:8 b.0:8))) => (sel8 (ult8 a.0:8 b.0:8) c.0:8 0:8)
        (and16 a.0:16 255:16) => (zext16 (trunc8 a.0:16))
        (umin8 a.0:8 b.0:8) => (umin8 b.0:8 a.0:8)
        (add8 (umin8 a.0:8 b.0:8) (umax8 a.0:8 b.0:8)) => (add8 a.0:8 b.0:8)
        (xor8 a.0:8 255:8) => (add8 (mul8 a.0:8 255:8) 255:8)
        ",
    )
}

#[test]
fn terms_with_other_sums(rt: HostRuntime) -> Result<(), Fail> {
    assert_all(
        &rt,
        rt.alloc(),
        false,
        "
        (mul32 a.0:32 5:32) => (add32 a.0:32 (mul32 a.0:32 8:32))
        (zext16 (add8 a.0:8 b.0:8)) => (add16 (zext16 a.0:8) (zext16 b.0:8))
        a.0:8 => a.0:16
        (sext16 a.0:8) => (zext16 a.0:8)
        (lshr8 (add8 a.0:8 b.0:8) 1) => (add8 (lshr8 a.0:8 1) (lshr8 b.0:8 1))
        (and8 a.0:8 c.0:8) => (mul8 a.0:8 c.0:8)
        ",
    )
}
