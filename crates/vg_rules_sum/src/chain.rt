//! Putting a chain in order.

ghost use Rattle.std.specs.Prelude.{◌≡◌, ◌++◌, IfOk, OnOk, map};
ghost use Rattle.vg_rules_sum.specs.Insertion.{is_in_order_but_last, last_put_in};
ghost use Rattle.vg_rules_sum.specs.Rules.{put_in_order};
ghost use Rattle.vg_terms.specs.Chain.{chain_of, parts, sorted};
ghost use Rattle.vg_terms.specs.Term.{WellFormed, two, tree};

use std::alloc::{AllocError, Global};
use std::mem;
use vg_terms::{Term, TwoOp, make_const, make_two};

/// The term in order: an equality is turned round, and a chain is nested to the left over its parts in
/// rising order. The parts are moved; where all but the last are in order, no memory is taken.
#[tactic(auto, using(crate::proofs::Inserting::last_ordered))]
pub fn put_in_order(alloc: Global, t: Term) -> Result<Term, AllocError>
    requires { WellFormed (tree t) }
    ensures { IfOk result (λ new. tree new ≡ put_in_order (tree t)) }
{
    if is_in_order_but_last(&t) {
        return Ok(last_put_in(t));
    }
    with_all_sorted(alloc, t)
}

// Whether the term is a chain whose parts before the last are in order.
fn is_in_order_but_last(t: &Term) -> bool
    ensures { result ≡ is_in_order_but_last (tree t.now) }
{
    match t {
        Term::Two { op, x, y, .. } => op.makes_chains() && !y.opens(*op) && !x.is_disordered(),
        _ => false,
    }
}

fn last_put_in(mut t: Term) -> Term
    ensures { tree result ≡ last_put_in (tree t) }
{
    put_in(&mut t);
    t
}

// The last part changes places with those before it, up to one that it is not before.
fn put_in(t: &mut Term)
    ensures { tree t.new ≡ last_put_in (tree t.old) }
{
    if let Term::Two { op, x, y, .. } = t {
        if let Term::Two { op: own, y: b, .. } = &mut **x {
            if op.is(*own) {
                if !b.is_not_after(y) {
                    mem::swap(b, y);
                    put_in(x);
                }
                return;
            }
        }
        if !x.is_not_after(y) {
            mem::swap(x, y);
        }
    }
}

fn with_all_sorted(alloc: Global, t: Term) -> Result<Term, AllocError>
    ensures { IfOk result (λ new. tree new ≡ put_in_order (tree t)) }
{
    match t {
        Term::Two { op, width, x, y } => match op {
            TwoOp::Eq => Ok(Term::Two {
                op,
                width,
                x: y,
                y: x,
            }),
            _ => sorted_chain(alloc, op, width, Box::into_inner(x), Box::into_inner(y)),
        },
        other => Ok(other),
    }
}

fn sorted_chain(alloc: Global, op: TwoOp, width: u32, x: Term, y: Term) -> Result<Term, AllocError>
    ensures { IfOk result (λ new. tree new ≡ chain_of op width (sorted (parts op (two op width (tree
        x) (tree y))))) }
{
    let mut found = Vec::new(alloc);
    collect(op, x, &mut found)?;
    collect(op, y, &mut found)?;
    sort(&mut found)?;
    chain_of(alloc, op, width, found)
}

// The parts of the term, left before right, put after those that were found before.
fn collect(op: TwoOp, t: Term, found: &mut Vec<Term>) -> Result<(), AllocError>
    ensures { OnOk result (map tree found.new.items ≡ map tree found.old.items ++ parts op (tree
        t)) }
{
    match t {
        Term::Two {
            op: own,
            width,
            x,
            y,
        } => {
            if op.is(own) {
                collect(op, Box::into_inner(x), found)?;
                collect(op, Box::into_inner(y), found)
            } else {
                Ok(found.push(Term::Two {
                    op: own,
                    width,
                    x,
                    y,
                })?)
            }
        }
        other => Ok(found.push(other)?),
    }
}

fn sort(found: &mut Vec<Term>) -> Result<(), AllocError>
    ensures { OnOk result (map tree found.new.items ≡ sorted (map tree found.old.items)) }
{
    found.sort_by(|x, y| x.key_cmp(y))
}

fn chain_of(alloc: Global, op: TwoOp, width: u32, parts: Vec<Term>) -> Result<Term, AllocError>
    ensures { IfOk result (λ new. tree new ≡ chain_of op width (map tree parts.items)) }
{
    let mut rest = parts.into_iter();
    let Some(mut whole) = rest.next() else {
        return Ok(make_const(width, 0));
    };
    'nest: for part in rest {
        whole = make_two(alloc, op, width, whole, part)?;
    }
    Ok(whole)
}
