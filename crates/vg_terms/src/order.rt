//! The order of terms.

ghost use Rattle.std.specs.Prelude.{◌≡◌, ◌↔◌, IsTrue};
ghost use Rattle.std.specs.Cmp.{IsTotalOrder};
ghost use Rattle.vg_terms.specs.Order.{below_cmp, extra_of, is_same_term, leaf_cmp, leaves_cmp, node_cmp, node_of, one_tag, order, shapes_cmp, tag_of, two_tag};
ghost use Rattle.vg_terms.specs.Term.{tree};

use crate::term::{LeafKey, OneOp, Term, TwoOp};
use std::cmp::Ordering;

impl OneOp {
    /// The place of the operation in the order of terms, 1 to 5.
    pub fn tag(self) -> u32
        ensures { result ≡ one_tag self }
    {
        match self {
            OneOp::Zext => 1,
            OneOp::Sext => 2,
            OneOp::Trunc => 3,
            OneOp::Lshr => 4,
            OneOp::Ashr => 5,
        }
    }
}

impl TwoOp {
    /// The place of the operation in the order of terms, 6 to 17 or 19.
    pub fn tag(self) -> u32
        ensures { result ≡ two_tag self }
    {
        match self {
            TwoOp::Add => 6,
            TwoOp::Mul => 7,
            TwoOp::And => 8,
            TwoOp::Or => 9,
            TwoOp::Xor => 10,
            TwoOp::Smin => 11,
            TwoOp::Smax => 12,
            TwoOp::Umin => 13,
            TwoOp::Umax => 14,
            TwoOp::Eq => 15,
            TwoOp::Slt => 16,
            TwoOp::Ult => 17,
            TwoOp::Cat => 19,
        }
    }
}

impl Term {
    /// The total order of terms: first by shape, which is the list of (tag, width, amount or constant)
    /// of the nodes, a parent before its children and left before right; then by the list of leaf keys.
    /// Equal terms only compare as equal. Takes no memory, and two steps a node.
    pub fn key_cmp(&self, other: &Term) -> Ordering
        ensures is { result ≡ order (tree self.now) (tree other.now) }
        ensures same { result ≡ Ordering.Equal → tree self.now ≡ tree other.now }
    {
        match compare_shapes(self, other) {
            Ordering::Equal => compare_leaves(self, other),
            unequal => unequal,
        }
    }

    /// Whether the two are one and the same term.
    pub fn is_same(&self, other: &Term) -> bool
        ensures is { result ≡ is_same_term (tree self.now) (tree other.now) }
        ensures means { IsTrue result ↔ (tree self.now ≡ tree other.now) }
    {
        self.key_cmp(other).is_eq()
    }

    // The place of the term's operation in the order: 0 for a leaf, 20 for a constant.
    fn tag(&self) -> u32
        ensures { result ≡ tag_of (tree self.now) }
    {
        match self {
            Term::Leaf { .. } => 0,
            Term::Const { .. } => 20,
            Term::One { op, .. } => op.tag(),
            Term::Two { op, .. } => op.tag(),
            Term::Sel { .. } => 18,
        }
    }

    // The amount of a shift, the value of a constant, else 0.
    fn extra(&self) -> u128
        ensures { result ≡ extra_of (tree self.now) }
    {
        match self {
            Term::Const { value, .. } => *value,
            Term::One { amount, .. } => *amount as u128,
            _ => 0,
        }
    }
}

/// The law of the order, which costs nothing to call: of two terms one comes first unless they are
/// equal, and what comes before a second comes before a third that the second comes before.
pub fn order_is_total()
    ensures { IsTotalOrder order }
{}

fn compare_nodes(t: &Term, u: &Term) -> Ordering
    ensures { result ≡ node_cmp (node_of (tree t.now)) (node_of (tree u.now)) }
{
    let extras = t.extra().cmp(&u.extra());
    t.tag()
        .cmp(&u.tag())
        .then(t.width().cmp(&u.width()).then(extras))
}

fn compare_keys(k: &LeafKey, l: &LeafKey) -> Ordering
    ensures { result ≡ leaf_cmp k.now l.now }
{
    let thirds = k.third.cmp(&l.third);
    let seconds = k.second.cmp(&l.second);
    k.kind
        .cmp(&l.kind)
        .then(k.first.cmp(&l.first).then(seconds.then(thirds)))
}

#[cycle(shapes)]
fn compare_shapes(t: &Term, u: &Term) -> Ordering
    ensures { result ≡ shapes_cmp (tree t.now) (tree u.now) }
{
    match compare_nodes(t, u) {
        Ordering::Equal => compare_below(t, u),
        unequal => unequal,
    }
}

// The children's shapes, of terms whose first nodes compare as equal.
#[cycle(shapes)]
fn compare_below(t: &Term, u: &Term) -> Ordering
    ensures { result ≡ below_cmp (tree t.now) (tree u.now) }
{
    match (t, u) {
        (Term::One { x, .. }, Term::One { x: y, .. }) => compare_shapes(x, y),
        (Term::Two { x, y, .. }, Term::Two { x: x2, y: y2, .. }) => match compare_shapes(x, x2) {
            Ordering::Equal => compare_shapes(y, y2),
            unequal => unequal,
        },
        (
            Term::Sel { c, x, y, .. },
            Term::Sel {
                c: c2,
                x: x2,
                y: y2,
                ..
            },
        ) => {
            match compare_shapes(c, c2) {
                Ordering::Equal => match compare_shapes(x, x2) {
                    Ordering::Equal => compare_shapes(y, y2),
                    unequal => unequal,
                },
                unequal => unequal,
            }
        }
        _ => Ordering::Equal,
    }
}

// Of terms of one shape.
fn compare_leaves(t: &Term, u: &Term) -> Ordering
    ensures { result ≡ leaves_cmp (tree t.now) (tree u.now) }
{
    match (t, u) {
        (Term::Leaf { key, .. }, Term::Leaf { key: key2, .. }) => compare_keys(key, key2),
        (Term::One { x, .. }, Term::One { x: y, .. }) => compare_leaves(x, y),
        (Term::Two { x, y, .. }, Term::Two { x: x2, y: y2, .. }) => match compare_leaves(x, x2) {
            Ordering::Equal => compare_leaves(y, y2),
            unequal => unequal,
        },
        (
            Term::Sel { c, x, y, .. },
            Term::Sel {
                c: c2,
                x: x2,
                y: y2,
                ..
            },
        ) => {
            match compare_leaves(c, c2) {
                Ordering::Equal => match compare_leaves(x, x2) {
                    Ordering::Equal => compare_leaves(y, y2),
                    unequal => unequal,
                },
                unequal => unequal,
            }
        }
        _ => Ordering::Equal,
    }
}
