//! Values of more than 128 nodes, which are known by their classes.

use crate::beside::{Expected, compared};
use std::alloc::Global;
use std::process::Abort;
use std::test::Fail;

/// The sums of 2 to 67 bytes, each of the one before and the next byte.
fn sums_of_bytes(alloc: Global) -> Result<String, Fail> {
    let mut text = String::new(alloc);
    for i in 0..66u64 {
        write!(text, " s{} = s{i} + load8(p + {});", i + 1, i + 1)?;
    }
    Ok(text)
}

/// A kernel that stores the sum of 67 bytes, of which a term would have 133 nodes.
fn sum_of_bytes(alloc: Global) -> Result<String, Fail> {
    let sums = sums_of_bytes(alloc)?;
    let front = "kernel large(d: noalias ptr, p: ptr) { s0 = load8(p);";
    Ok(format!(in alloc; "{front}{sums} store8(d + 0, s66); }}")?)
}

/// The lines that load 67 bytes.
fn loads(alloc: Global) -> Result<String, Fail> {
    let mut text = String::new(alloc);
    for i in 0..67u64 {
        write!(text, "%s{i}:i8 = load p+{i}\n")?;
    }
    Ok(text)
}

/// The lines that add all bytes but the first two and the last.
fn sums(alloc: Global) -> Result<String, Fail> {
    let mut text = String::new(alloc);
    for i in 2..66u64 {
        write!(text, "%s{}:i8 = add %s{} %s{i}\n", i + 66, i + 65)?;
    }
    Ok(text)
}

/// A program that loads all bytes first and adds them in the order of the kernel, the last one by this operation.
fn sum_by_lines(alloc: Global, last: &str) -> Result<String, Fail> {
    let loads = loads(alloc)?;
    let sums = sums(alloc)?;
    Ok(format!(in alloc;
        "program large(d: ptr, p: ptr)
{loads}%s67:i8 = add %s0 %s1
{sums}%s132:i8 = {last} %s131 %s66
store d+0 %s132
end cost 134 scalar 134
"
    )?)
}

/// A program that adds the bytes from the last one down.
fn sum_from_behind(alloc: Global) -> Result<String, Fail> {
    let loads = loads(alloc)?;
    let mut sums = String::new(alloc);
    for i in 0..65u64 {
        write!(sums, "%s{}:i8 = add %s{} %s{}\n", i + 68, i + 67, 64 - i)?;
    }
    Ok(format!(in alloc;
        "program large(d: ptr, p: ptr)
{loads}%s67:i8 = add %s66 %s65
{sums}store d+0 %s132
end cost 134 scalar 134
"
    )?)
}

fn compared_by(alloc: Global, last: &str, more: bool) -> Result<Expected, Fail> {
    let kernel = sum_of_bytes(alloc)?;
    let program = sum_by_lines(alloc, last)?;
    compared(alloc, b"", kernel.as_bytes(), program.as_bytes(), more)
}

fn expect_by_classes(rt: &impl Abort, alloc: Global, more: bool) -> Result<(), Fail> {
    let same = compared_by(alloc, "add", more)?;
    assert!(rt; same == Expected::Same);
    let other = compared_by(alloc, "sub", more)?;
    assert!(rt; other == Expected::Value { unit: 133 });
    Ok(())
}

#[test]
fn large_values_are_the_same_by_their_classes(rt: HostRuntime) -> Result<(), Fail> {
    expect_by_classes(&rt, rt.alloc(), false)?;
    expect_by_classes(&rt, rt.alloc(), true)
}

/// The program adds the last two bytes first: their sum is met nowhere in the kernel.
#[test]
fn large_values_of_one_sum_are_the_same_with_more(rt: HostRuntime) -> Result<(), Fail> {
    let kernel = sum_of_bytes(rt.alloc())?;
    let program = sum_from_behind(rt.alloc())?;
    let text = program.as_bytes();
    let found = compared(rt.alloc(), b"", kernel.as_bytes(), text, false)?;
    assert!(rt; found == Expected::Value { unit: 133 });
    let wider = compared(rt.alloc(), b"", kernel.as_bytes(), text, true)?;
    assert!(rt; wider == Expected::Same);
    Ok(())
}
