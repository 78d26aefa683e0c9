//! A pool: equal terms have one node, and a node gives its term back.

ghost use Rattle.std.specs.Prelude.{◌≡◌, ◌<◌, ◌≤◌, length, IfOk};
ghost use Rattle.vg_terms.specs.Term.{WellFormed, tree, width_of};
ghost use Rattle.vg_pool.specs.Pool.{tree_at};

use crate::tables::{assert_text, read_formed};
use std::alloc::{AllocError, Global};
use std::process::Abort;
use std::test::Fail;
use vg_pool::{Pool, pool_is_shared};
use vg_terms::{LeafKey, OneOp, Term, TwoOp, make_leaf};

// The node of a term, which is the same when it is interned again, and has the term's size.
fn shared_node(rt: &impl Abort, pool: &mut Pool, t: &Term) -> Result<usize, AllocError>
    requires { WellFormed (tree t.now) }
    ensures { IfOk result (λ node. node < length pool.new) }
{
    let node = pool.intern(t)?;
    let again = pool.intern(t)?;
    assert!(rt; again == node && pool.size(node) as u64 == t.node_count());
    Ok(node)
}

// The term of this text, interned twice, has one number; its node has its size and gives it back.
fn assert_term_shared(
    rt: &impl Abort,
    alloc: Global,
    pool: &mut Pool,
    text: &str,
) -> Result<(), Fail> {
    let t = read_formed(rt, alloc, text)?;
    let node = shared_node(rt, pool, &t)?;
    let again = pool.tree_of(alloc, node)?;
    assert_text(rt, alloc, &again, text)
}

// Each line is a term.
fn assert_shared(rt: &impl Abort, alloc: Global, pool: &mut Pool, rows: &str) -> Result<(), Fail> {
    for row in rows.trim().lines() {
        assert_term_shared(rt, alloc, pool, row.trim())?;
    }
    Ok(())
}

#[test]
fn a_term_interned_twice_has_one_number(rt: HostRuntime) -> Result<(), Fail> {
    let alloc = rt.alloc();
    let mut pool = Pool::new(alloc);
    assert_shared(
        &rt,
        alloc,
        &mut pool,
        "
        a.0:8
        a.8:8
        7:8
        7:16
        (zext16 a.0:8)
        (sext16 a.0:8)
        (lshr8 a.0:8 1)
        (lshr8 a.0:8 2)
        (add8 a.0:8 a.8:8)
        (add8 a.8:8 a.0:8)
        (mul8 a.0:8 a.8:8)
        (sel8 b.0:1 a.0:8 a.8:8)
        (sel8 b.0:1 a.8:8 a.0:8)
        (add8 (add8 a.0:8 a.8:8) (add8 a.0:8 a.8:8))
        ",
    )?;
    pool_is_shared(&pool);
    Ok(())
}

// The node of the sum of a node's term with itself, so many times over.
fn doubled(pool: &mut Pool, node: usize, times: u32) -> Result<usize, AllocError>
    requires node { node < length pool.old }
    requires width { width_of (tree_at pool.old node) ≡ 8 }
    ensures node { IfOk result (λ sum. sum < length pool.new) }
    ensures width { IfOk result (λ sum. width_of (tree_at pool.new sum) ≡ 8) }
{
    let mut sum = node;
    'times: for _ in 0..times {
        sum = pool.two(TwoOp::Add, 8, sum, sum)?;
    }
    Ok(sum)
}

// Bits of the first parameter, from this one on.
fn key(low: i64) -> LeafKey {
    LeafKey {
        kind: 0,
        first: 0,
        second: low,
        third: 0,
    }
}

// The node of the sum of the first 8 bits with themselves, so many times over.
fn doubled_leaf(pool: &mut Pool, times: u32) -> Result<usize, AllocError>
    ensures node { IfOk result (λ sum. sum < length pool.new) }
    ensures width { IfOk result (λ sum. width_of (tree_at pool.new sum) ≡ 8) }
{
    let leaf = pool.intern(&make_leaf(8, key(0)))?;
    doubled(pool, leaf, times)
}

// So many times doubled, the leaf has a node of this size, whose term is given up to 4,096 nodes.
fn assert_doubled(
    rt: &impl Abort,
    alloc: Global,
    pool: &mut Pool,
    times: u32,
    size: u32,
) -> Result<(), AllocError> {
    let sum = doubled_leaf(pool, times)?;
    assert!(rt; pool.size(sum) == size);
    assert!(rt; pool.tree_of(alloc, sum).is_ok() == (times <= 11));
    Ok(())
}

// 1,023 nodes, one more and more than the greatest size.
fn assert_widened(rt: &impl Abort, pool: &mut Pool) -> Result<(), AllocError> {
    let sum = doubled_leaf(pool, 9)?;
    let wide = pool.one(OneOp::Zext, 16, 0, sum)?;
    let greater = pool.two(TwoOp::Add, 16, wide, wide)?;
    assert!(rt; pool.size(wide) == 1024 && pool.size(greater) == 1025);
    Ok(())
}

// The sizes of sums that are doubled so many times.
fn assert_sizes(rt: &impl Abort, alloc: Global, pool: &mut Pool) -> Result<(), AllocError> {
    for (times, size) in [(0, 1), (1, 3), (9, 1023), (10, 1025), (60, 1025)] {
        assert_doubled(rt, alloc, pool, times, size)?;
    }
    Ok(())
}

#[test]
fn sizes_of_sums_that_double(rt: HostRuntime) -> Result<(), Fail> {
    let mut pool = Pool::new(rt.alloc());
    assert_sizes(&rt, rt.alloc(), &mut pool)?;
    assert_widened(&rt, &mut pool)?;
    Ok(())
}

// The node of a selection by the first bit between the second and the third 8 bits.
fn selection(pool: &mut Pool) -> Result<usize, AllocError>
    ensures { IfOk result (λ node. node < length pool.new) }
{
    let c = pool.intern(&make_leaf(1, key(0)))?;
    let x = pool.intern(&make_leaf(8, key(8)))?;
    let y = pool.intern(&make_leaf(8, key(16)))?;
    pool.sel(c, x, y)
}

// The node of the selection is that of the text's term, and gives this term.
fn assert_selection(
    rt: &impl Abort,
    alloc: Global,
    pool: &mut Pool,
    text: &str,
) -> Result<(), Fail> {
    let t = read_formed(rt, alloc, text)?;
    let node = selection(pool)?;
    let same = pool.intern(&t)?;
    assert!(rt; same == node);
    let term = pool.tree_of(alloc, node)?;
    assert_text(rt, alloc, &term, text)
}

#[test]
fn a_selection_over_nodes(rt: HostRuntime) -> Result<(), Fail> {
    let mut pool = Pool::new(rt.alloc());
    assert_selection(&rt, rt.alloc(), &mut pool, "(sel8 a.0:1 a.8:8 a.16:8)")
}
