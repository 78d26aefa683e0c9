//! Terms, each with its canonical form.

ghost use Rattle.std.specs.Prelude.{IfOk};
ghost use Rattle.vg_canon.specs.Canonical.{HasCanonicalChildren, IsCanonical};
ghost use Rattle.vg_terms.specs.Term.{WellFormed, tree};

use crate::tables::{Told, assert_rows, assert_text, read_formed};
use std::alloc::Global;
use std::process::Abort;
use std::test::Fail;
use vg_canon::{canon, canon_root};
use vg_terms::{Term, TwoOp, make_two};

#[test]
fn canonical_forms(rt: HostRuntime) -> Result<(), Fail> {
    assert_rows(
        &rt,
        rt.alloc(),
        Told::Form,
        "
        (add8 1:8 (add8 a.0:8 255:8)) => a.0:8
        (sel8 (slt8 a.0:8 b.0:8) a.0:8 b.0:8) => (smin8 a.0:8 b.0:8)
        (trunc32 (mul128 (sext128 a.0:16) (sext128 b.0:16))) => (mul32 (sext32 a.0:16) (sext32 b.0:16))
        (trunc64 (mul128 (sext128 a.0:32) (sext128 b.0:32))) => (mul64 (sext64 a.0:32) (sext64 b.0:32))
        (trunc8 (ashr128 (add128 (add128 (zext128 a.0:8) (zext128 b.0:8)) 1:128) 1)) => (trunc8 (lshr9 (add9 (add9 (zext9 a.0:8) (zext9 b.0:8)) 1:9) 1))
        (trunc16 (smin128 (smax128 (sext128 a.0:32) 340282366920938463463374607431768178688:128) 32767:128)) => (trunc16 (smin32 (smax32 a.0:32 4294934528:32) 32767:32))
        (add8 (add8 a.0:8 255:8) 1:8) => a.0:8
        (trunc4 (trunc8 a.0:16)) => (trunc4 a.0:16)
        a.0:8 => a.0:8
        7:8 => 7:8
        (zext64 (zext32 (zext16 a.0:8))) => (zext64 a.0:8)
        (xor8 (xor8 a.0:8 b.0:8) (xor8 b.0:8 a.0:8)) => 0:8
        (sel8 (xor1 1:1 (xor1 c.0:1 1:1)) a.0:8 b.0:8) => (sel8 c.0:1 a.0:8 b.0:8)
        (lshr16 (cat16 a.0:8 b.0:8) 8) => (zext16 a.0:8)
        (trunc8 (lshr16 (cat16 a.0:8 b.0:8) 8)) => a.0:8
        (trunc8 (cat16 a.0:8 b.0:8)) => b.0:8
        (eq8 3:8 (and8 a.0:8 255:8)) => (eq8 a.0:8 3:8)
        ",
    )
}

// The canonical form of a text's term.
fn form_of(rt: &impl Abort, alloc: Global, text: &str) -> Result<Term, Fail>
    ensures { IfOk result (λ form. IsCanonical (tree form)) }
{
    let t = read_formed(rt, alloc, text)?;
    Ok(canon(alloc, t)?)
}

/// A sum whose sides are canonical, and which is not.
pub fn sum_of_forms(rt: &impl Abort, alloc: Global) -> Result<Term, Fail>
    ensures well_formed { IfOk result (λ t. WellFormed (tree t)) }
    ensures children { IfOk result (λ t. HasCanonicalChildren (tree t)) }
{
    let sum = form_of(rt, alloc, "(add8 a.0:8 255:8)")?;
    let one = form_of(rt, alloc, "1:8")?;
    let t = make_two(alloc, TwoOp::Add, 8, sum, one)?;
    assert!(rt; t.is_well_formed());
    Ok(t)
}

#[test]
fn rules_go_on_at_the_root(rt: HostRuntime) -> Result<(), Fail> {
    let alloc = rt.alloc();
    let form = canon_root(alloc, sum_of_forms(&rt, alloc)?)?;
    assert_text(&rt, alloc, &form, "a.0:8")
}
