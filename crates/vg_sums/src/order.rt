//! The order of atoms and sums.

ghost use Rattle.std.specs.Prelude.{◌≡◌};
ghost use Rattle.vg_terms.specs.Order.{leaf_cmp};
ghost use Rattle.vg_sums.specs.Order.{atom_cmp, kind_cmp, sum_cmp};
ghost use Rattle.vg_sums.specs.Sums.{polynomial};

use crate::kind::Kind;
use crate::sum::Sum;
use std::cmp::Ordering;
use vg_terms::LeafKey;

fn compare_keys(k: LeafKey, l: LeafKey) -> Ordering
    ensures { result ≡ leaf_cmp k l }
{
    let thirds = k.third.cmp(&l.third);
    let seconds = k.second.cmp(&l.second);
    k.kind
        .cmp(&l.kind)
        .then(k.first.cmp(&l.first).then(seconds.then(thirds)))
}

fn compare_kinds(k: Kind, l: Kind) -> Ordering
    ensures { result ≡ kind_cmp k l }
{
    let keys = compare_keys(k.key(), l.key());
    let amounts = k.amount().cmp(&l.amount());
    k.tag().cmp(&l.tag()).then(amounts.then(keys))
}

fn compare(p: &Sum, q: &Sum) -> Ordering
    ensures { result ≡ sum_cmp (polynomial p.now) (polynomial q.now) }
{
    match (p, q) {
        (Sum::Number(x), Sum::Number(y)) => x.cmp(y),
        (Sum::Number(_), Sum::Plus { .. }) => Ordering::Less,
        (Sum::Plus { .. }, Sum::Number(_)) => Ordering::Greater,
        (
            Sum::Plus {
                kind: k,
                of: i,
                factor: f,
                rest: r,
            },
            Sum::Plus {
                kind: l,
                of: j,
                factor: g,
                rest: s,
            },
        ) => {
            let kinds = compare_kinds(*k, *l);
            if kinds.is_ne() {
                return kinds;
            }
            let atoms = compare(i, j);
            if atoms.is_ne() {
                return atoms;
            }
            match compare(f, g) {
                Ordering::Equal => compare(r, s),
                unequal => unequal,
            }
        }
    }
}

/// Atoms by their kinds and the sums that they are of.
pub(crate) fn compare_atoms(k: Kind, i: &Sum, l: Kind, j: &Sum) -> Ordering
    ensures { result ≡ atom_cmp k (polynomial i.now) l (polynomial j.now) }
{
    match compare_kinds(k, l) {
        Ordering::Equal => compare(i, j),
        unequal => unequal,
    }
}
