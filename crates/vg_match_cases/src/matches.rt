//! The matches of small kernels.

use crate::shown::shown;
use crate::terms::{descriptions, kernel, terms};
use std::alloc::Global;
use std::process::Abort;
use std::test::Fail;
use vg_match::build;
use vg_shapes::{Match, MatchTable};

/// The matches of descriptions, a line of lanes each, in a kernel of these values.
fn table(alloc: Global, lanes: &str, values: &str) -> Result<MatchTable, Fail> {
    let descriptions = descriptions(alloc, lanes)?;
    let ssa = kernel(alloc, terms(alloc, values)?)?;
    Ok(build(alloc, descriptions.as_slice(), &ssa)?)
}

fn assert_shown(
    rt: &impl Abort,
    alloc: Global,
    matches: &[Match],
    expected: &str,
) -> Result<(), Fail> {
    let text = shown(alloc, matches)?;
    assert!(rt; text.as_str() == expected);
    Ok(())
}

/// Asserts all the matches, as text.
fn assert_matches(
    rt: &impl Abort,
    alloc: Global,
    lanes: &str,
    values: &str,
    expected: &str,
) -> Result<(), Fail> {
    let table = table(alloc, lanes, values)?;
    assert_shown(rt, alloc, table.as_slice(), expected)
}

/// A description whose lanes do one operation, and one whose lanes do different ones: a product, and
/// a sum of turned operands.
const EVEN_AND_MIXED: &str = "
    p0.0 p1.0 +, p0.32 p1.32 +
    p0.0 p1.0 *, p1.32 p0.32 +
";

/// Two loads, their sum, and a store of it.
const STORED_SUM: &str = "l0, l1, l0 l1 +, 0i8";

#[test]
fn lanes_of_one_description_may_differ(rt: HostRuntime) -> Result<(), Fail> {
    let alloc = rt.alloc();
    let table = table(alloc, EVEN_AND_MIXED, STORED_SUM)?;
    let expected = "0.0 v2 0.0=v0 1.0=v1
0.1 v2 0.32=v0 1.32=v1
1.1 v2 1.32=v0 0.32=v1
";
    assert_shown(&rt, alloc, table.as_slice(), expected)?;
    assert_shown(&rt, alloc, table.at(2), expected)?;
    assert!(rt; table.at(3).len() == 0, "a store");
    let is_sum_alone = table.get(1, 1, 2).is_some() && table.get(1, 0, 2).is_none();
    assert!(rt; is_sum_alone, "a product is no sum");
    Ok(())
}

#[test]
fn constants_are_bound(rt: HostRuntime) -> Result<(), Fail> {
    assert_matches(
        &rt,
        rt.alloc(),
        "p0.0 p1.0 *, p0.32 7i32 *, p0.64 8i32 *",
        "l0, l0 7i32 *",
        "0.0 v1 0.0=v0 1.0=7i32\n0.1 v1 0.32=v0\n",
    )
}

#[test]
fn a_leaf_is_bound_to_the_least_value(rt: HostRuntime) -> Result<(), Fail> {
    assert_matches(
        &rt,
        rt.alloc(),
        "p0.0 p1.0 *, p0.0 p0.32 + p0.0 *, p0.0 p0.0 *",
        "l0, l1, l0 l1 +, l0 l1 +, l0 l1 + l0 *",
        "0.0 v4 0.0=v2 1.0=v0\n0.1 v4 0.0=v0 0.32=v1\n",
    )
}

#[test]
fn operands_stand_before_the_value(rt: HostRuntime) -> Result<(), Fail> {
    assert_matches(
        &rt,
        rt.alloc(),
        "p0.0 p1.0 +",
        "l1 l2 +, l1, l2, l1 l2 +",
        "0.0 v3 0.0=v1 1.0=v2\n",
    )
}

#[test]
fn leaves_and_constants_match_nothing(rt: HostRuntime) -> Result<(), Fail> {
    assert_matches(&rt, rt.alloc(), "p0.0, 0i8, 0i32", STORED_SUM, "")
}
