//! Large terms, of up to 1,024 nodes: each has a canonical form, a copy and a text.

use crate::tables::{assert_settles, spell};
use std::alloc::{AllocError, Global};
use std::process::Abort;
use std::test::Fail;
use vg_terms::{LeafKey, OneOp, Term, TwoOp, make_const, make_leaf, make_one, make_sel, make_two};

// Bits of the first parameter, from this one on.
fn leaf(width: u32, low: u32) -> Term {
    let key = LeafKey {
        kind: 0,
        first: 0,
        second: low as i64,
        third: 0,
    };
    make_leaf(width, key)
}

fn length_of_text(alloc: Global, t: &Term) -> Result<u64, AllocError> {
    let text = spell(alloc, t)?;
    Ok(text.len() as u64)
}

// The term has this many nodes, and its canonical form no more than so many.
fn assert_large(
    rt: &impl Abort,
    alloc: Global,
    t: Term,
    nodes: u64,
    most: u64,
) -> Result<(), AllocError> {
    assert!(rt; t.is_well_formed() && t.node_count() == nodes);
    let length = length_of_text(alloc, &t)?;
    let form = assert_settles(rt, alloc, &t)?;
    assert!(rt; length > nodes && !form.is_disordered() && form.node_count() <= most);
    Ok(())
}

// Leaves in falling order, one more than `most`.
fn falling_chain(alloc: Global, op: TwoOp, most: u32) -> Result<Term, AllocError> {
    let mut chain = leaf(8, most);
    for i in 0..most {
        chain = make_two(alloc, op, 8, chain, leaf(8, most - 1 - i))?;
    }
    Ok(chain)
}

#[test]
fn falling_chains(rt: HostRuntime) -> Result<(), Fail> {
    let alloc = rt.alloc();
    let ops = [
        TwoOp::Add,
        TwoOp::Mul,
        TwoOp::And,
        TwoOp::Or,
        TwoOp::Xor,
        TwoOp::Smin,
        TwoOp::Smax,
        TwoOp::Umin,
        TwoOp::Umax,
    ];
    for op in ops {
        assert_large(&rt, alloc, falling_chain(alloc, op, 511)?, 1023, 1023)?;
    }
    Ok(())
}

// One operation over the other, 1,023 times over a leaf.
fn tower(alloc: Global, ops: &[(OneOp, u32, u32)], start: u32) -> Result<Term, AllocError> {
    let mut t = leaf(start, 0);
    for (op, width, amount) in ops.iter().cycle().take(1023) {
        t = make_one(alloc, *op, *width, *amount, t)?;
    }
    Ok(t)
}

// The tower over a leaf of this width has a canonical form of no more than so many nodes.
fn assert_tower(
    rt: &impl Abort,
    alloc: Global,
    ops: &[(OneOp, u32, u32)],
    start: u32,
    most: u64,
) -> Result<(), AllocError> {
    assert_large(rt, alloc, tower(alloc, ops, start)?, 1024, most)
}

#[test]
fn towers_of_operations_on_one_term(rt: HostRuntime) -> Result<(), Fail> {
    let alloc = rt.alloc();
    let zeros = [(OneOp::Zext, 64, 0), (OneOp::Trunc, 8, 0)];
    assert_tower(&rt, alloc, &zeros, 8, 2)?;
    let signs = [(OneOp::Sext, 128, 0), (OneOp::Trunc, 1, 0)];
    assert_tower(&rt, alloc, &signs, 1, 2)?;
    assert_tower(&rt, alloc, &[(OneOp::Lshr, 64, 1)], 64, 1)?;
    assert_tower(&rt, alloc, &[(OneOp::Ashr, 32, 1)], 32, 2)?;
    Ok(())
}

fn nested_selections(alloc: Global) -> Result<Term, AllocError> {
    let mut choice = leaf(8, 0);
    for i in 0..341u32 {
        choice = make_sel(alloc, 8, leaf(1, i), leaf(8, i), choice)?;
    }
    Ok(choice)
}

fn nested_pairs(alloc: Global) -> Result<Term, AllocError> {
    let mut pairs = leaf(1, 0);
    for i in 0..127u32 {
        pairs = make_two(alloc, TwoOp::Cat, 2 + i, leaf(1, i), pairs)?;
    }
    Ok(pairs)
}

fn sums_of_products(alloc: Global) -> Result<Term, AllocError> {
    let mut sums = leaf(8, 0);
    for i in 0..255u32 {
        let product = make_two(alloc, TwoOp::Mul, 8, sums, make_const(8, 3))?;
        sums = make_two(alloc, TwoOp::Add, 8, leaf(8, i), product)?;
    }
    Ok(sums)
}

#[test]
fn nested_selections_and_pairs(rt: HostRuntime) -> Result<(), Fail> {
    let alloc = rt.alloc();
    assert_large(&rt, alloc, nested_selections(alloc)?, 1024, 1024)?;
    assert_large(&rt, alloc, nested_pairs(alloc)?, 255, 255)?;
    assert_large(&rt, alloc, sums_of_products(alloc)?, 1021, 1021)?;
    Ok(())
}
