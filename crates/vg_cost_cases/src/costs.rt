//! What plans of small kernels cost.

use crate::kernels::{
    add, copied, load, store_number, store_value, summed, turned, turns, unmatched,
};
use crate::plans::{Two, cost_of};
use std::alloc::Global;
use std::test::Fail;
use vg_shapes::SsaUnit;

fn cost_of_copied(alloc: Global, packs: &[Two]) -> Result<u64, Fail> {
    let ssa = copied(alloc)?;
    cost_of(alloc, &ssa, &[], packs)
}

#[test]
fn a_pack_takes_what_another_holds(rt: HostRuntime) -> Result<(), Fail> {
    let alloc = rt.alloc();
    assert!(rt; cost_of_copied(alloc, &[])? == 4);
    let group = cost_of_copied(alloc, &[Two::Stores(3, 5)])?;
    assert!(rt; group == 6, "a line, a constant, two inserts, two loads");
    let both = [Two::Stores(3, 5), Two::Loads(2, 4)];
    assert!(rt; cost_of_copied(alloc, &both)? == 2);
    Ok(())
}

fn cost_of_units(alloc: Global, units: &[SsaUnit], packs: &[Two]) -> Result<u64, Fail> {
    let ssa = unmatched(alloc, units)?;
    cost_of(alloc, &ssa, &[], packs)
}

#[test]
fn constants_and_inserts_cost_lines(rt: HostRuntime) -> Result<(), Fail> {
    let alloc = rt.alloc();
    let numbers = [store_number(0, 5), store_number(4, 6)];
    let cost = cost_of_units(alloc, &numbers, &[Two::Stores(2, 3)])?;
    assert!(rt; cost == 2, "a line and a constant");
    let mixed = [store_value(0, 1), store_number(4, 6)];
    let cost = cost_of_units(alloc, &mixed, &[Two::Stores(2, 3)])?;
    assert!(rt; cost == 3, "a line, a constant and an insert");
    Ok(())
}

#[test]
fn an_operand_of_two_packs_is_counted_once(rt: HostRuntime) -> Result<(), Fail> {
    let alloc = rt.alloc();
    let units = [
        store_value(0, 0),
        store_value(4, 1),
        store_value(16, 0),
        store_value(20, 1),
        store_value(32, 1),
        store_value(36, 0),
    ];
    let same = cost_of_units(alloc, &units, &[Two::Stores(2, 3), Two::Stores(4, 5)])?;
    assert!(rt;
        same == 7,
        "two packs, an operand of three lines, and two stores"
    );
    let turned = cost_of_units(alloc, &units, &[Two::Stores(2, 3), Two::Stores(6, 7)])?;
    assert!(rt; turned == 10, "an operand of three lines more");
    Ok(())
}

#[test]
fn a_value_of_a_pack_that_is_needed_is_extracted(rt: HostRuntime) -> Result<(), Fail> {
    let alloc = rt.alloc();
    let units = [load(1, 0), load(1, 4), store_value(0, 3), store_value(8, 3)];
    assert!(rt; cost_of_units(alloc, &units, &[])? == 4);
    let cost = cost_of_units(alloc, &units, &[Two::Loads(2, 3)])?;
    assert!(rt; cost == 4, "a pack, an extract and two stores");
    Ok(())
}

/// What a plan costs where there are shuffles of these costs.
fn cost_with_shuffles(alloc: Global, costs: &[u32], packs: &[Two]) -> Result<u64, Fail> {
    let ssa = turned(alloc)?;
    let descriptions = turns(alloc, costs)?;
    cost_of(alloc, &ssa, descriptions.as_slice(), packs)
}

#[test]
fn a_shuffle_costs_no_more_than_inserts(rt: HostRuntime) -> Result<(), Fail> {
    let alloc = rt.alloc();
    let packs = [Two::Loads(2, 3), Two::Stores(4, 5)];
    // what two shuffles cost, and the plan with them
    let cases = [(9, 9, 7), (4, 9, 7), (3, 9, 5), (3, 2, 4), (1, 2, 3)];
    for (first, second, whole) in cases {
        let cost = cost_with_shuffles(alloc, &[first, second], &packs)?;
        assert!(rt; cost == whole, "shuffles of {first} and {second}");
    }
    let cost = cost_with_shuffles(alloc, &[1], &[Two::Stores(4, 5)])?;
    assert!(rt; cost == 6, "no pack has what the shuffle takes");
    Ok(())
}

/// What a plan costs where there is a description of a sum that costs 2.
fn cost_of_summed(alloc: Global, packs: &[Two]) -> Result<u64, Fail> {
    let ssa = summed(alloc)?;
    let descriptions = vec![in alloc; add(alloc, 2)?]?;
    cost_of(alloc, &ssa, descriptions.as_slice(), packs)
}

#[test]
fn a_call_costs_what_its_description_says(rt: HostRuntime) -> Result<(), Fail> {
    let alloc = rt.alloc();
    assert!(rt; cost_of_summed(alloc, &[])? == 8);
    let short = [Two::Stores(8, 9), Two::Call(4, 7)];
    assert!(rt;
        cost_of_summed(alloc, &short)? == 13,
        "packs of 1 and 2, two operands of 3, four loads"
    );
    let whole = [
        Two::Stores(8, 9),
        Two::Call(4, 7),
        Two::Loads(2, 5),
        Two::Loads(3, 6),
    ];
    assert!(rt; cost_of_summed(alloc, &whole)? == 5);
    Ok(())
}
