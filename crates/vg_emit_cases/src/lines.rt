//! The lines of small kernels.

use crate::emitted::Two::{Call, Loads, Stores};
use crate::emitted::{Two, add, emitted, turn};
use std::alloc::Global;
use std::process::Abort;
use std::test::Fail;
use vg_shapes::Node::{PackAt, UnitAt};
use vg_shapes::{Description, Node};

const COPY: &[u8] = b"kernel copy(p: noalias ptr, q: ptr) {
  a = load32(q); b = load32(q + 4);
  store32(p, a); store32(p + 4, b);
}";

/// Asserts the text of the program that is emitted for a kernel, by these packs in this order.
fn expect(
    rt: &impl Abort,
    alloc: Global,
    kernel: &[u8],
    descriptions: &[Description],
    packs: &[Two],
    order: &[Node],
    text: &[u8],
) -> Result<(), Fail> {
    let found = emitted(alloc, kernel, descriptions, packs, order)?;
    assert!(rt; found.as_slice() == text);
    Ok(())
}

#[test]
fn two_words_are_copied_by_two_lines(rt: HostRuntime) -> Result<(), Fail> {
    let packs = [Loads(0, 1), Stores(2, 3)];
    let order = [PackAt(0), PackAt(1)];
    let expected = b"program copy(p: ptr, q: ptr)
%v0 = vload 8 q+0
vstore 8 p+0 %v0
end cost 2 scalar 4
";
    expect(&rt, rt.alloc(), COPY, &[], &packs, &order, expected)
}

#[test]
fn without_packs_units_stand_by_their_numbers(rt: HostRuntime) -> Result<(), Fail> {
    let order = [UnitAt(1), UnitAt(3), UnitAt(0), UnitAt(2)];
    let expected = b"program copy(p: ptr, q: ptr)
%s0:i32 = load q+0
%s1:i32 = load q+4
store p+0 %s0
store p+4 %s1
end cost 4 scalar 4
";
    expect(&rt, rt.alloc(), COPY, &[], &[], &order, expected)
}

#[test]
fn arguments_are_put_beside_constants(rt: HostRuntime) -> Result<(), Fail> {
    let kernel = b"kernel mix(p: ptr, k: i32) { store32(p, k); store32(p + 4, 7i32); }";
    let packs = [Stores(1, 2)];
    let expected = b"program mix(p: ptr, k: i32)
%v0 = const 00000000070000000000000000000000
%v1 = insert %v0 0 k
vstore 8 p+0 %v1
end cost 3 scalar 2
";
    expect(&rt, rt.alloc(), kernel, &[], &packs, &[PackAt(0)], expected)
}

#[test]
fn a_shuffle_turns_what_was_loaded(rt: HostRuntime) -> Result<(), Fail> {
    let kernel = b"kernel turn(p: noalias ptr, q: ptr) {
      a = load32(q); b = load32(q + 4);
      store32(p, b); store32(p + 4, a);
    }";
    let packs = [Loads(0, 1), Stores(2, 3)];
    let order = [PackAt(0), PackAt(1)];
    let expected = b"program turn(p: ptr, q: ptr)
%v0 = vload 8 q+0
%v1 = call turn %v0
vstore 8 p+0 %v1
end cost 3 scalar 4
";
    let turn = turn(rt.alloc())?;
    expect(&rt, rt.alloc(), kernel, &[turn], &packs, &order, expected)
}

#[test]
fn a_sum_that_is_stored_twice_is_taken_out(rt: HostRuntime) -> Result<(), Fail> {
    let kernel = b"kernel sums(p: noalias ptr, q: ptr, r: ptr) {
      a = load32(q); b = load32(q + 4); c = load32(r); d = load32(r + 4);
      e = a + c; f = b + d;
      store32(p, e); store32(p + 4, f); store32(p + 8, f);
    }";
    let packs = [Loads(0, 1), Loads(2, 3), Call(4, 5), Stores(6, 7)];
    let order = [PackAt(1), PackAt(0), PackAt(2), UnitAt(8), PackAt(3)];
    let expected = b"program sums(p: ptr, q: ptr, r: ptr)
%v0 = vload 8 r+0
%v1 = vload 8 q+0
%v2 = call add %v1 %v0
%s0:i32 = extract %v2 1
store p+8 %s0
vstore 8 p+0 %v2
end cost 6 scalar 9
";
    let add = add(rt.alloc())?;
    expect(&rt, rt.alloc(), kernel, &[add], &packs, &order, expected)
}
