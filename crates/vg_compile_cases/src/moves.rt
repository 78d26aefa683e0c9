//! Kernels that call nothing.

use crate::beside::{ALL, Case, Unit, expect_costs, expect_left, expect_text, expect_trap};
use crate::kernels::{ALIASED, ARGUMENTS, DEAD, MOVED, NOTHING, NUMBERS, OVERLAPPING};
use std::test::Fail;

/// A kernel that calls nothing, and what its program costs, and the kernel.
fn without_calls(kernel: &[u8], cost: u32, scalar: u32) -> Case<'_> {
    Case {
        instructions: b"",
        allowed: ALL,
        kernel,
        cost,
        scalar,
        unit: Unit::Byte,
    }
}

#[test]
fn two_words_through_noalias_pointers_move_at_once(rt: HostRuntime) -> Result<(), Fail> {
    let alloc = rt.alloc();
    expect_text(
        &rt,
        alloc,
        MOVED,
        b"program two(p: ptr, q: ptr)
%v0 = vload 8 q+0
vstore 8 p+0 %v0
end cost 2 scalar 4
",
    )?;
    let case = without_calls(MOVED, 2, 4);
    expect_left(
        &rt,
        alloc,
        &case,
        "8 0",
        "1 2 3 4 5 6 7 8 9 a b c d e f 10",
        "1 2 3 4 5 6 7 8 1 2 3 4 5 6 7 8",
    )
}

#[test]
fn two_words_that_may_alias_stay_scalar(rt: HostRuntime) -> Result<(), Fail> {
    let alloc = rt.alloc();
    expect_text(
        &rt,
        alloc,
        ALIASED,
        b"program two(p: ptr, q: ptr)
%s0:i32 = load q+0
store p+0 %s0
%s1:i32 = load q+4
store p+4 %s1
end cost 4 scalar 4
",
    )?;
    let case = without_calls(ALIASED, 4, 4);
    expect_left(
        &rt,
        alloc,
        &case,
        "4 0",
        "1 2 3 4 5 6 7 8 9 a b c",
        "1 2 3 4 1 2 3 4 1 2 3 4",
    )
}

#[test]
fn a_dead_load_still_traps(rt: HostRuntime) -> Result<(), Fail> {
    let alloc = rt.alloc();
    expect_text(
        &rt,
        alloc,
        DEAD,
        b"program dead(p: ptr)
%s0:i8 = load p+4
end cost 1 scalar 1
",
    )?;
    let case = without_calls(DEAD, 1, 1);
    expect_left(&rt, alloc, &case, "0", "1 2 3 4 5", "1 2 3 4 5")?;
    expect_trap(&rt, alloc, &case, "0", "1 2 3 4")
}

#[test]
fn overlapping_stores_keep_their_order(rt: HostRuntime) -> Result<(), Fail> {
    let alloc = rt.alloc();
    expect_text(
        &rt,
        alloc,
        OVERLAPPING,
        b"program over(d: ptr)
store d+0 67305985i32
store d+2 134678021i32
end cost 2 scalar 2
",
    )?;
    let case = without_calls(OVERLAPPING, 2, 2);
    expect_left(&rt, alloc, &case, "0", "6*0", "1 2 5 6 7 8")
}

#[test]
fn constants_become_one_register(rt: HostRuntime) -> Result<(), Fail> {
    let alloc = rt.alloc();
    expect_text(
        &rt,
        alloc,
        NUMBERS,
        b"program numbers(d: ptr)
%v0 = const 01000000020000000300000004000000
vstore 16 d+0 %v0
end cost 2 scalar 4
",
    )?;
    let case = without_calls(NUMBERS, 2, 4);
    expect_left(&rt, alloc, &case, "0", "16*9", "1 3*0 2 3*0 3 3*0 4 3*0")
}

#[test]
fn a_plan_that_costs_more_than_none_is_not_taken(rt: HostRuntime) -> Result<(), Fail> {
    let alloc = rt.alloc();
    expect_costs(&rt, alloc, &without_calls(ARGUMENTS, 2, 2))?;
    expect_text(
        &rt,
        alloc,
        NOTHING,
        b"program none()\nend cost 0 scalar 0\n",
    )
}
