//! Products of sums.

ghost use Rattle.std.specs.Prelude.{◌≡◌, ◌*◌, nat_le};
ghost use Rattle.vg_sums.specs.Arithmetic.{most_products, multiply, product, times_atom};
ghost use Rattle.vg_sums.specs.Gives.{Gives};
ghost use Rattle.vg_sums.specs.Sums.{polynomial, size};

use crate::arithmetic::{add, scale};
use crate::kind::Kind;
use crate::lost::Lost;
use crate::order::compare_atoms;
use crate::sum::{Sum, make_joined, make_number, make_plus};
use std::alloc::Global;
use std::cmp::Ordering;

/// The most that the sizes of two sums may make, multiplied, for their product.
const MOST_PRODUCTS: u64 = 4096;

/// An atom of a sum, times another sum.
fn times_atom(alloc: Global, k: Kind, i: &Sum, p: &Sum) -> Result<Sum, Lost>
    ensures { Gives result (times_atom k (polynomial i.now) (polynomial p.now)) }
{
    match p {
        Sum::Number(z) => {
            let of = i.copy(alloc)?;
            make_joined(alloc, k, of, make_number(*z), make_number(0))
        }
        Sum::Plus {
            kind: l,
            of: j,
            factor: g,
            rest: s,
        } => {
            if compare_atoms(k, i, *l, j).is_eq() && k.is_truth() {
                let factor = add(alloc, g, s)?;
                let of = i.copy(alloc)?;
                make_joined(alloc, k, of, factor, make_number(0))
            } else if compare_atoms(*l, j, k, i).is_lt() {
                let factor = times_atom(alloc, k, i, g)?;
                let rest = times_atom(alloc, k, i, s)?;
                let of = j.copy(alloc)?;
                make_joined(alloc, *l, of, factor, rest)
            } else {
                let of = i.copy(alloc)?;
                let factor = p.copy(alloc)?;
                make_plus(alloc, k, of, factor, make_number(0))
            }
        }
    }
}

fn multiply(alloc: Global, p: &Sum, q: &Sum) -> Result<Sum, Lost>
    ensures { Gives result (multiply (polynomial p.now) (polynomial q.now)) }
{
    match p {
        Sum::Number(z) => scale(alloc, *z, q),
        Sum::Plus {
            kind,
            of,
            factor,
            rest,
        } => {
            let a = multiply(alloc, factor, q)?;
            let b = times_atom(alloc, *kind, of, &a)?;
            let c = multiply(alloc, rest, q)?;
            add(alloc, &b, &c)
        }
    }
}

// Whether the sizes of two sums make no more, multiplied, than a product may have.
fn are_small(p: &Sum, q: &Sum) -> bool
    ensures { result ≡ nat_le (size (polynomial p.now) * size (polynomial q.now)) most_products }
{
    p.size().saturating_mul(q.size()) <= MOST_PRODUCTS
}

/// The product of sums that are not too large together.
pub(crate) fn product(alloc: Global, p: &Sum, q: &Sum) -> Result<Sum, Lost>
    ensures { Gives result (product (polynomial p.now) (polynomial q.now)) }
{
    if are_small(p, q) {
        multiply(alloc, p, q)
    } else {
        Err(Lost::Past)
    }
}
