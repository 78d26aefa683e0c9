//! Orders of small plans, and of a long chain.

use crate::inputs::{Outcome, unpacked, with_packs};
use std::alloc::{AllocError, Global};
use std::test::Fail;
use vg_base::Items;
use vg_shapes::Node;

/// The units of a row, with a space between them.
fn row_of(alloc: Global, text: &str) -> Result<Items<u32>, Fail> {
    let mut units = Vec::new(alloc);
    for word in text.split_whitespace() {
        units.push(word.parse::<u32>()?)?;
    }
    Ok(Items::from_vec(units))
}

/// Rows of what each unit depends on, with a `|` between them.
fn rows_of(alloc: Global, text: &str) -> Result<Vec<Items<u32>>, Fail> {
    let mut rows = Vec::new(alloc);
    for row in text.split('|') {
        rows.push(row_of(alloc, row)?)?;
    }
    Ok(rows)
}

/// The nodes of an order, none where there is no order.
fn order_of(came: &Outcome) -> &[Node] {
    match came {
        Outcome::Order(nodes) => nodes.as_slice(),
        Outcome::Cycle(_) | Outcome::Unfit => &[],
    }
}

/// The units of a cycle, none where there is no cycle.
fn cycle_of(came: &Outcome) -> &[u32] {
    match came {
        Outcome::Cycle(units) => units.as_slice(),
        Outcome::Order(_) | Outcome::Unfit => &[],
    }
}

#[test]
fn an_unpacked_kernel_comes_out_in_number_order(rt: HostRuntime) -> Result<(), Fail> {
    let rows = rows_of(rt.alloc(), "|0||0 2")?;
    let came = unpacked(rt.alloc(), 4, rows)?;
    let wanted = [
        Node::UnitAt(0),
        Node::UnitAt(1),
        Node::UnitAt(2),
        Node::UnitAt(3),
    ];
    assert!(rt; order_of(&came) == wanted.as_slice());
    Ok(())
}

// The third unit depends on the second, and the fourth on the first: so do the packs on each other.
#[test]
fn a_cycle_of_two_packs_is_named(rt: HostRuntime) -> Result<(), Fail> {
    let rows = rows_of(rt.alloc(), "||1|0")?;
    let came = with_packs(rt.alloc(), 4, &[0, 2], &[1, 3], rows)?;
    let units = cycle_of(&came);
    assert!(rt; units.len() == 2 && units[0] % 2 != units[1] % 2);
    Ok(())
}

// A pack without units stands beside it.
#[test]
fn a_pack_that_depends_on_itself_is_a_cycle(rt: HostRuntime) -> Result<(), Fail> {
    let rows = rows_of(rt.alloc(), "||1")?;
    let came = with_packs(rt.alloc(), 3, &[1, 2], &[], rows)?;
    let units = cycle_of(&came);
    assert!(rt; units.len() == 1 && (units[0] == 1 || units[0] == 2));
    Ok(())
}

// A pack stands where its first unit is reached, and after what its other units wait for.
#[test]
fn a_pack_waits_for_all_its_units(rt: HostRuntime) -> Result<(), Fail> {
    let rows = rows_of(rt.alloc(), "||1")?;
    let came = with_packs(rt.alloc(), 3, &[0, 2], &[], rows)?;
    let wanted = [Node::UnitAt(1), Node::PackAt(0), Node::PackAt(1)];
    assert!(rt; order_of(&came) == wanted.as_slice());
    Ok(())
}

// The first pack waits for the third unit, which is named first, and then for the second pack.
#[test]
fn what_is_named_first_comes_first(rt: HostRuntime) -> Result<(), Fail> {
    let rows = rows_of(rt.alloc(), "|||2 1|")?;
    let came = with_packs(rt.alloc(), 5, &[0, 3], &[1, 4], rows)?;
    let wanted = [Node::UnitAt(2), Node::PackAt(1), Node::PackAt(0)];
    assert!(rt; order_of(&came) == wanted.as_slice());
    Ok(())
}

/// Rows of which each names the next unit.
fn chain(alloc: Global) -> Result<Vec<Items<u32>>, AllocError> {
    let mut rows = Vec::new(alloc);
    for unit in 1..12288u32 {
        let row = Vec::from_slice(alloc, &[unit])?;
        rows.push(Items::from_vec(row))?;
    }
    Ok(rows)
}

#[test]
fn a_chain_against_the_order_of_the_paths_ends(rt: HostRuntime) -> Result<(), Fail> {
    let came = unpacked(rt.alloc(), 12288, chain(rt.alloc())?)?;
    let order = order_of(&came);
    let (first, last) = (order.first().copied(), order.last().copied());
    assert!(rt; first == Some(Node::UnitAt(12287)) && last == Some(Node::UnitAt(0)));
    Ok(())
}
