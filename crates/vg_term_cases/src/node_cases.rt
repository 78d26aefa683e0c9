//! Canonical forms of nodes: the nodes of the terms' canonical forms.

ghost use Rattle.std.specs.Prelude.{◌≡◌, ◌<◌, length, IfOk};
ghost use Rattle.vg_canon.specs.Canonical.{HasCanonicalChildren};
ghost use Rattle.vg_terms.specs.Term.{WellFormed, tree, width_of};
ghost use Rattle.vg_pool.specs.Pool.{tree_at};

use crate::canon_cases::sum_of_forms;
use crate::tables::{assert_text, columns, read_formed};
use std::alloc::{AllocError, Global};
use std::process::Abort;
use std::test::Fail;
use vg_canon::{canon, canon_node, canon_root_node};
use vg_pool::Pool;
use vg_terms::{LeafKey, OneOp, Term, TwoOp, make_leaf};

// The term of the node that `canon_node` gives the term's canonical form. It gives that node itself.
fn form_of_node(
    rt: &impl Abort,
    alloc: Global,
    pool: &mut Pool,
    t: &Term,
) -> Result<Term, AllocError>
    requires { WellFormed (tree t.now) }
{
    let node = pool.intern(t)?;
    let form = canon_node(alloc, pool, node)?;
    assert!(rt; canon_node(alloc, pool, form)? == form);
    pool.tree_of(alloc, form)
}

// The canonical forms of the text's term, by nodes and by the term itself, are the same and have this
// text.
fn assert_canonical_node(
    rt: &impl Abort,
    alloc: Global,
    pool: &mut Pool,
    text: &str,
    want: &str,
) -> Result<(), Fail> {
    let t = read_formed(rt, alloc, text)?;
    let by_node = form_of_node(rt, alloc, pool, &t)?;
    let form = canon(alloc, t)?;
    assert!(rt; form.is_same(&by_node), "{text}");
    assert_text(rt, alloc, &by_node, want)
}

// Each line is a term, an arrow and its canonical form, which are given one node by `canon_node`.
fn assert_canonical_nodes(
    rt: &impl Abort,
    alloc: Global,
    pool: &mut Pool,
    rows: &str,
) -> Result<(), Fail> {
    for row in rows.trim().lines() {
        let (text, want) = columns(row)?;
        assert_canonical_node(rt, alloc, pool, text, want)?;
    }
    Ok(())
}

#[test]
fn nodes_of_canonical_forms(rt: HostRuntime) -> Result<(), Fail> {
    let alloc = rt.alloc();
    let mut pool = Pool::new(alloc);
    assert_canonical_nodes(
        &rt,
        alloc,
        &mut pool,
        "
        (add8 1:8 (add8 a.0:8 255:8)) => a.0:8
        (sel8 (slt8 a.0:8 b.0:8) a.0:8 b.0:8) => (smin8 a.0:8 b.0:8)
        (trunc32 (mul128 (sext128 a.0:16) (sext128 b.0:16))) => (mul32 (sext32 a.0:16) (sext32 b.0:16))
        (add8 c.0:8 (add8 b.0:8 a.0:8)) => (add8 (add8 a.0:8 b.0:8) c.0:8)
        (xor8 (xor8 a.0:8 b.0:8) (xor8 b.0:8 a.0:8)) => 0:8
        (trunc8 (lshr16 (cat16 a.0:8 b.0:8) 8)) => a.0:8
        a.0:8 => a.0:8
        7:8 => 7:8
        ",
    )
}

// The node of the canonical form of a text's term.
fn node_of(rt: &impl Abort, alloc: Global, pool: &mut Pool, text: &str) -> Result<usize, Fail> {
    let t = read_formed(rt, alloc, text)?;
    let node = pool.intern(&t)?;
    Ok(canon_node(alloc, pool, node)?)
}

// The canonical form of each of these terms is the first 8 bits of the first parameter.
fn assert_one_node(rt: &impl Abort, alloc: Global, pool: &mut Pool) -> Result<(), Fail> {
    let wanted = pool.intern(&make_leaf(8, key(0)))?;
    for text in [
        "(add8 1:8 (add8 a.0:8 255:8))",
        "(and8 a.0:8 a.0:8)",
        "(trunc8 (zext16 a.0:8))",
    ] {
        assert!(rt; node_of(rt, alloc, pool, text)? == wanted, "{text}");
    }
    Ok(())
}

#[test]
fn equal_forms_have_one_node(rt: HostRuntime) -> Result<(), Fail> {
    let mut pool = Pool::new(rt.alloc());
    assert_one_node(&rt, rt.alloc(), &mut pool)
}

// Whether the canonical form of a term with canonical children is the first 8 bits of the first
// parameter.
fn is_leaf_at_root(alloc: Global, pool: &mut Pool, t: &Term) -> Result<bool, AllocError>
    requires well_formed { WellFormed (tree t.now) }
    requires children { HasCanonicalChildren (tree t.now) }
{
    let node = pool.intern(t)?;
    let form = canon_root_node(alloc, pool, node)?;
    let wanted = pool.intern(&make_leaf(8, key(0)))?;
    Ok(form == wanted)
}

#[test]
fn rules_go_on_at_the_root_of_a_node(rt: HostRuntime) -> Result<(), Fail> {
    let t = sum_of_forms(&rt, rt.alloc())?;
    let mut pool = Pool::new(rt.alloc());
    assert!(rt; is_leaf_at_root(rt.alloc(), &mut pool, &t)?);
    Ok(())
}

// Bits of the first parameter, from this one on.
fn key(low: i64) -> LeafKey {
    LeafKey {
        kind: 0,
        first: 0,
        second: low,
        third: 0,
    }
}

// Over a node's term, so many times a shift and after it the sum with that term: two levels each.
fn raised(pool: &mut Pool, node: usize, times: u32) -> Result<usize, AllocError>
    requires node { node < length pool.old }
    requires width { width_of (tree_at pool.old node) ≡ 8 }
    ensures node { IfOk result (λ top. top < length pool.new) }
{
    let mut top = node;
    'times: for _ in 0..times {
        let shifted = pool.one(OneOp::Lshr, 8, 1, top)?;
        top = pool.two(TwoOp::Add, 8, shifted, node)?;
    }
    Ok(top)
}

// The node has the greatest size, and neither its term nor its canonical form is given.
fn assert_too_large(rt: &impl Abort, alloc: Global, pool: &mut Pool, node: usize)
    requires { node < length pool.old }
{
    assert!(rt; pool.size(node) == 1025 && pool.tree_of(alloc, node).is_err());
    assert!(rt; canon_node(alloc, pool, node).is_err());
    assert!(rt; pool.size(node) == 1025);
}

#[test]
fn a_term_of_many_levels_is_refused(rt: HostRuntime) -> Result<(), Fail> {
    let mut pool = Pool::new(rt.alloc());
    let leaf = pool.intern(&make_leaf(8, key(0)))?;
    let top = raised(&mut pool, leaf, 50_000)?;
    assert_too_large(&rt, rt.alloc(), &mut pool, top);
    Ok(())
}
