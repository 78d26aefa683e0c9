//! Sums added and scaled.

ghost use Rattle.std.specs.Prelude.{◌≡◌, ◌+◌, negsuc};
ghost use Rattle.vg_sums.specs.Arithmetic.{add, add_number, merged, negated, scale, subtract};
ghost use Rattle.vg_sums.specs.Gives.{Gives};
ghost use Rattle.vg_sums.specs.Sums.{polynomial, size};

use crate::kind::Kind;
use crate::lost::Lost;
use crate::number::{product, sum};
use crate::order::compare_atoms;
use crate::sum::{Sum, make_joined, make_number, make_plus};
use std::alloc::Global;
use std::cmp::Ordering;

/// A number added to a sum.
pub(crate) fn add_number(alloc: Global, z: i128, p: &Sum) -> Result<Sum, Lost>
    ensures { Gives result (add_number z (polynomial p.now)) }
{
    match p {
        Sum::Number(y) => match sum(z, *y) {
            Some(x) => Ok(make_number(x)),
            None => Err(Lost::Past),
        },
        Sum::Plus {
            kind,
            of,
            factor,
            rest,
        } => {
            let rest = add_number(alloc, z, rest)?;
            let of = of.copy(alloc)?;
            let factor = factor.copy(alloc)?;
            make_plus(alloc, *kind, of, factor, rest)
        }
    }
}

/// The sum of two sums.
pub(crate) fn add(alloc: Global, p: &Sum, q: &Sum) -> Result<Sum, Lost>
    ensures { Gives result (add (polynomial p.now) (polynomial q.now)) }
{
    match p {
        Sum::Number(z) => add_number(alloc, *z, q),
        Sum::Plus {
            kind: k,
            of: i,
            factor: f,
            rest: r,
        } => match q {
            Sum::Number(_) => {
                let rest = add(alloc, r, q)?;
                let of = i.copy(alloc)?;
                let factor = f.copy(alloc)?;
                make_plus(alloc, *k, of, factor, rest)
            }
            Sum::Plus {
                kind: l,
                of: j,
                factor: g,
                rest: s,
            } => match compare_atoms(*k, i, *l, j) {
                Ordering::Equal => {
                    let factor = add(alloc, f, g)?;
                    let rest = add(alloc, r, s)?;
                    let of = i.copy(alloc)?;
                    make_joined(alloc, *k, of, factor, rest)
                }
                Ordering::Less => {
                    let rest = add(alloc, r, q)?;
                    let of = i.copy(alloc)?;
                    let factor = f.copy(alloc)?;
                    make_plus(alloc, *k, of, factor, rest)
                }
                Ordering::Greater => {
                    let rest = add(alloc, p, s)?;
                    let of = j.copy(alloc)?;
                    let factor = g.copy(alloc)?;
                    make_plus(alloc, *l, of, factor, rest)
                }
            },
        },
    }
}

/// A sum times a number.
pub(crate) fn scale(alloc: Global, z: i128, p: &Sum) -> Result<Sum, Lost>
    ensures { Gives result (scale z (polynomial p.now)) }
{
    match p {
        Sum::Number(y) => match product(z, *y) {
            Some(x) => Ok(make_number(x)),
            None => Err(Lost::Past),
        },
        Sum::Plus {
            kind,
            of,
            factor,
            rest,
        } => {
            let factor = scale(alloc, z, factor)?;
            let rest = scale(alloc, z, rest)?;
            let of = of.copy(alloc)?;
            make_joined(alloc, *kind, of, factor, rest)
        }
    }
}

/// The negative of a sum.
pub(crate) fn negated(alloc: Global, p: &Sum) -> Result<Sum, Lost>
    ensures { Gives result (negated (polynomial p.now)) }
{
    scale(alloc, -1, p)
}

/// The first less the second.
pub(crate) fn subtract(alloc: Global, p: &Sum, q: &Sum) -> Result<Sum, Lost>
    ensures { Gives result (subtract (polynomial p.now) (polynomial q.now)) }
{
    let n = negated(alloc, q)?;
    add(alloc, p, &n)
}
