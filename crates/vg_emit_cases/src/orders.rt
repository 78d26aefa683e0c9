//! One plan in each of its legal orders: what the programs leave of a memory.

use crate::emitted::{Two, emitted};
use std::alloc::Global;
use std::test::Fail;
use vg_machine::{Machine, Outcome};
use vg_program::parse_program;
use vg_shapes::Node;
use vg_shapes::Node::{PackAt, UnitAt};

// Two words are copied, then copied in the other order, and a byte is stored.
const KERNEL: &[u8] = b"kernel turned(p: noalias ptr, q: noalias ptr, x: noalias ptr, k: i8) {
  a = load32(x); b = load32(x + 4);
  store32(p, a); store32(p + 4, b);
  store32(q, b); store32(q + 4, a);
  store8(q + 8, k);
}";

const PACKS: [Two; 3] = [Two::Loads(1, 2), Two::Stores(3, 4), Two::Stores(5, 6)];

// The loads stand before both packs of stores; the byte stands anywhere. The argument has number 0.
const ORDERS: [[Node; 4]; 8] = [
    [PackAt(0), PackAt(1), PackAt(2), UnitAt(7)],
    [PackAt(0), PackAt(1), UnitAt(7), PackAt(2)],
    [PackAt(0), UnitAt(7), PackAt(1), PackAt(2)],
    [UnitAt(7), PackAt(0), PackAt(1), PackAt(2)],
    [PackAt(0), PackAt(2), PackAt(1), UnitAt(7)],
    [PackAt(0), PackAt(2), UnitAt(7), PackAt(1)],
    [PackAt(0), UnitAt(7), PackAt(2), PackAt(1)],
    [UnitAt(7), PackAt(0), PackAt(2), PackAt(1)],
];

const BEFORE: [u8; 25] = [
    1, 2, 3, 4, 5, 6, 7, 8, 0, 0, 0, 0, 0, 0, 0, 0, 0, 0, 0, 0, 0, 0, 0, 0, 0,
];

const AFTER: [u8; 25] = [
    1, 2, 3, 4, 5, 6, 7, 8, 1, 2, 3, 4, 5, 6, 7, 8, 5, 6, 7, 8, 1, 2, 3, 4, 200,
];

/// What a program without calls leaves of the memory, with p at 8, q at 16, x at 0 and 200 as k. None
/// where it traps.
fn left_by(alloc: Global, text: &[u8]) -> Result<Option<Vec<u8>>, Fail> {
    let program = parse_program(alloc, text, &[])?;
    let mut machine = Machine::new(alloc, &[], &program)?;
    let mut memory = Vec::from_slice(alloc, BEFORE.as_slice())?;
    match machine.run(memory.as_mut_slice(), &[8, 16, 0], &[200]) {
        Outcome::Done => Ok(Some(memory)),
        Outcome::Trap => Ok(None),
    }
}

#[test]
fn each_order_of_a_plan_leaves_the_same_memory(rt: HostRuntime) -> Result<(), Fail> {
    let alloc = rt.alloc();
    for order in ORDERS.iter() {
        let text = emitted(alloc, KERNEL, &[], &PACKS, order.as_slice())?;
        let Some(left) = left_by(alloc, text.as_slice())? else {
            return Err(Fail::new("the program traps"));
        };
        assert!(rt; left.as_slice() == AFTER.as_slice());
    }
    Ok(())
}
