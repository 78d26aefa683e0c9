//! Whether a term is in order.

ghost use Rattle.std.specs.Prelude.{◌≡◌, ◌↔◌, IsTrue};
ghost use Rattle.vg_terms.specs.Chain.{CanBeSorted, in_order, is_disordered, leads_to, makes_chains, not_after, opens, same_op};
ghost use Rattle.vg_terms.specs.Term.{WellFormed, tree};

use crate::term::{Term, TwoOp};
use std::cmp::Ordering;

impl TwoOp {
    /// Whether neither order nor grouping matters to the operation, so that terms of it are chains:
    /// sums, products, bitwise operations, least and greatest.
    pub fn makes_chains(self) -> bool
        ensures { result ≡ makes_chains self }
    {
        match self {
            TwoOp::Eq => false,
            TwoOp::Slt => false,
            TwoOp::Ult => false,
            TwoOp::Cat => false,
            _ => true,
        }
    }

    /// Whether the two are one operation.
    pub fn is(self, other: TwoOp) -> bool
        ensures { result ≡ same_op self other }
    {
        self.tag() == other.tag()
    }
}

impl Term {
    /// Whether the term can be put in order: it is an operation that makes chains, and is not the chain,
    /// nested to the left, of its parts in rising order; or it is `Eq` of two terms, the first after the
    /// second. The parts are got by opening children of the same operation. Takes no memory; each two
    /// neighbouring parts are compared once.
    pub fn is_disordered(&self) -> bool
        ensures is { result ≡ is_disordered (tree self.now) }
        ensures means { WellFormed (tree self.now) → (IsTrue result ↔ CanBeSorted (tree self.now)) }
    {
        can_be_sorted(self)
    }

    /// Whether the term is not after the other in the order of terms.
    pub fn is_not_after(&self, other: &Term) -> bool
        ensures { result ≡ not_after (tree self.now) (tree other.now) }
    {
        match self.key_cmp(other) {
            Ordering::Greater => false,
            _ => true,
        }
    }

    /// Whether the term is this operation.
    pub fn opens(&self, op: TwoOp) -> bool
        ensures { result ≡ opens op (tree self.now) }
    {
        match self {
            Term::Two { op: own, .. } => op.is(*own),
            _ => false,
        }
    }
}

fn can_be_sorted(t: &Term) -> bool
    ensures { result ≡ is_disordered (tree t.now) }
{
    match t {
        Term::Two { op, x, y, .. } => match op {
            TwoOp::Eq => !x.is_not_after(y),
            TwoOp::Slt => false,
            TwoOp::Ult => false,
            TwoOp::Cat => false,
            _ => !is_in_order(*op, x, y),
        },
        _ => false,
    }
}

fn is_in_order(op: TwoOp, x: &Term, y: &Term) -> bool
    ensures { result ≡ in_order op (tree x.now) (tree y.now) }
{
    !y.opens(op) && is_leading_to(op, x, y)
}

// Whether x is one part, or a chain in rising order, and its last part is not after y.
fn is_leading_to(op: TwoOp, x: &Term, y: &Term) -> bool
    ensures { result ≡ leads_to op (tree x.now) (tree y.now) }
{
    match x {
        Term::Two {
            op: own,
            x: a,
            y: b,
            ..
        } => {
            if op.is(*own) {
                b.is_not_after(y) && !b.opens(op) && is_leading_to(op, a, b)
            } else {
                x.is_not_after(y)
            }
        }
        _ => x.is_not_after(y),
    }
}
