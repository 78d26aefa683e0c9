//! The checks of kernels, and the places at which they hold.

ghost use Rattle.std.specs.Prelude.{IfOk};
ghost use Rattle.vg_kernel.specs.Tree.{tree_of};
ghost use Rattle.vg_kernel.specs.WellFormed.{IsWellFormed};

use std::alloc::Global;
use std::process::Abort;
use std::test::Fail;
use vg_guard::{Check, Guarded, all_noalias, checks_hold, checks_of, parse_guarded};
use vg_kernel::{KParamKind, Kernel, parse_kernel};

fn read(alloc: Global, text: &str) -> Result<Kernel, Fail>
    ensures { IfOk result (λ k. IsWellFormed (tree_of k)) }
{
    match parse_kernel(alloc, text.as_bytes()) {
        Ok(kernel) => Ok(kernel),
        Err(_) => Err("a kernel is refused".into()),
    }
}

/// Each check as two ranges, `0+0:8 1-4:2`, a pointer by its number.
fn spelled(alloc: Global, checks: &[Check]) -> Result<String, Fail> {
    let mut text = String::new(alloc);
    for check in checks {
        write!(
            text,
            "{}{:+}:{} {}{:+}:{};",
            check.first,
            check.first_low,
            check.first_len,
            check.second,
            check.second_low,
            check.second_len
        )?;
    }
    Ok(text)
}

/// The checks of a kernel of these parameters and these statements.
fn found(alloc: Global, params: &str, statements: &str) -> Result<String, Fail> {
    let text = format!(in alloc; "kernel t({params}) {{ {statements} }}")?;
    let kernel = read(alloc, text.as_str())?;
    let checks = checks_of(alloc, &kernel)?;
    spelled(alloc, checks.as_slice())
}

/// Asserts of each row, the checks of a kernel after its parameters and its statements, a `|` between
/// them, that the kernel has these checks.
fn expect_all(rt: &impl Abort, alloc: Global, rows: &str) -> Result<(), Fail> {
    for row in rows.trim().lines() {
        let Some((params, behind)) = row.trim_start().split_once('|') else {
            return Err("statements are missing".into());
        };
        let Some((statements, checks)) = behind.split_once('|') else {
            return Err("checks are missing".into());
        };
        let found = found(alloc, params, statements)?;
        assert!(rt; found.as_str() == checks, "{row}");
    }
    Ok(())
}

#[test]
fn checks_are_of_pairs_of_which_one_is_stored_through(rt: HostRuntime) -> Result<(), Fail> {
    expect_all(
        &rt,
        rt.alloc(),
        "p: ptr, q: ptr|store32(p, load32(q)); store32(p + 4, load32(q + 4));|0+0:8 1+0:8;
        p: noalias ptr, q: ptr|store32(p, load32(q));|
        p: ptr, q: noalias ptr|store32(p, load32(q));|
        p: ptr, q: ptr|store32(p, 1i32);|
        p: ptr, q: ptr, k: i8|x = load8(p) + load8(q);|
        p: ptr, k: i8, q: ptr, d: ptr|store8(d, load8(p) + load8(q));|0+0:1 2+0:1;1+0:1 2+0:1;
        d: ptr, p: ptr, e: ptr|store8(d, 1i8); store8(e, load8(p));|0+0:1 1+0:1;0+0:1 2+0:1;1+0:1 2+0:1;
        p: ptr|store8(p, load8(p + 1));|",
    )
}

#[test]
fn a_check_goes_from_the_least_offset_to_the_farthest_byte(rt: HostRuntime) -> Result<(), Fail> {
    expect_all(
        &rt,
        rt.alloc(),
        "a: ptr, b: ptr|store8(a - 2147483648, 1i8); store64(a + 2147483647, 1i64); x = load8(b);|0-2147483648:4294967303 1+0:1;
        a: ptr, b: ptr, k: i8|x = load64(a - 3); store8(a + 1, k); y = load8(b + 7); z = load16(b + 5);|0-3:8 1+5:3;
        a: ptr, b: ptr, k: i8|x = select(eq(load8(a), k), load8(a + 9), load8(b)); store8(b - 1, k);|0+0:10 1-1:2;",
    )
}

/// Whether it is an integer or a noalias pointer.
fn is_right(kind: &KParamKind) -> bool {
    match kind {
        KParamKind::Pointer { noalias } => *noalias,
        KParamKind::Integer(_) => true,
    }
}

#[test]
fn every_pointer_is_made_noalias(rt: HostRuntime) -> Result<(), Fail> {
    let text = "kernel t(p: ptr, k: i8, q: noalias ptr) { store8(p, k); }";
    let kernel = read(rt.alloc(), text)?;
    let noalias = all_noalias(rt.alloc(), &kernel)?;
    assert!(rt; noalias.statements.as_slice().len() == 1);
    for param in noalias.params.as_slice() {
        assert!(rt; is_right(&param.kind));
    }
    Ok(())
}

/// Two ranges of 8 bytes, that of q 2 bytes below its place.
const TWO: &[u8] = b"guarded two(p: ptr, q: ptr)
check disjoint p+0 8 q-2 8
then
end cost 0 scalar 0
else
end cost 0 scalar 0
end checks 1
";

/// Asserts of a row, two places and a word, whether the checks hold there.
fn expect_held(rt: &impl Abort, guarded: &Guarded, row: &str) -> Result<(), Fail> {
    let Some((p, behind)) = row.split_once(' ') else {
        return Err("a place is missing".into());
    };
    let Some((q, word)) = behind.split_once(' ') else {
        return Err("a word is missing".into());
    };
    let places = [p.parse::<u64>()?, q.parse::<u64>()?];
    assert!(rt; checks_hold(guarded, &places) == (word == "holds"), "{row}");
    Ok(())
}

#[test]
fn checks_hold_where_ranges_are_apart_or_touch(rt: HostRuntime) -> Result<(), Fail> {
    let Ok(guarded) = parse_guarded(rt.alloc(), TWO, &[]) else {
        return Err("a guarded text is refused".into());
    };
    for row in "0 10 holds
        0 9 fails
        0 2 fails
        6 0 holds
        5 0 fails
        100 0 holds
        18446744073709551615 18446744073709551609 holds
        18446744073709551615 18446744073709551610 fails
        18446744073709551608 18446744073709551615 fails
        18446744073709551615 0 holds"
        .lines()
    {
        expect_held(&rt, &guarded, row.trim_start())?;
    }
    Ok(())
}
