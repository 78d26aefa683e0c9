//! The greater of a sum and 0, and tests of sums, as sums.

ghost use Rattle.std.specs.Prelude.{◌≡◌};
ghost use Rattle.vg_sums.specs.Choices.{complement, is_natural, is_negative, is_turned, leading, negative, opposite, positive, selected, zero};
ghost use Rattle.vg_sums.specs.Gives.{Gives};
ghost use Rattle.vg_sums.specs.Sums.{polynomial};

use crate::arithmetic::{add, add_number, negated, subtract};
use crate::kind::Kind;
use crate::lost::Lost;
use crate::products::product;
use crate::span::{shows_natural, shows_negative};
use crate::span_of::span_of;
use crate::sum::{Sum, make_atom, make_number};
use std::alloc::Global;

fn leading(p: &Sum) -> i128
    ensures { result ≡ leading (polynomial p.now) }
{
    match p {
        Sum::Number(z) => *z,
        Sum::Plus { factor, .. } => leading(factor),
    }
}

fn is_turned(p: &Sum) -> bool
    ensures { result ≡ is_turned (polynomial p.now) }
{
    leading(p) < 0
}

fn is_natural(p: &Sum) -> bool
    ensures { result ≡ is_natural (polynomial p.now) }
{
    shows_natural(span_of(p))
}

fn is_negative(p: &Sum) -> bool
    ensures { result ≡ is_negative (polynomial p.now) }
{
    shows_negative(span_of(p))
}

/// The greater of a sum and 0.
pub(crate) fn positive(alloc: Global, p: &Sum) -> Result<Sum, Lost>
    ensures { Gives result (positive (polynomial p.now)) }
{
    if is_natural(p) {
        p.copy(alloc)
    } else if is_negative(p) {
        Ok(make_number(0))
    } else if is_turned(p) {
        let n = negated(alloc, p)?;
        let atom = make_atom(alloc, Kind::Positive, n)?;
        add(alloc, p, &atom)
    } else {
        let of = p.copy(alloc)?;
        make_atom(alloc, Kind::Positive, of)
    }
}

/// -1 less a sum.
pub(crate) fn complement(alloc: Global, p: &Sum) -> Result<Sum, Lost>
    ensures { Gives result (complement (polynomial p.now)) }
{
    let n = negated(alloc, p)?;
    add_number(alloc, -1, &n)
}

fn opposite(alloc: Global, p: &Sum) -> Result<Sum, Lost>
    ensures { Gives result (opposite (polynomial p.now)) }
{
    let n = negated(alloc, p)?;
    add_number(alloc, 1, &n)
}

/// 1 where the value is below 0, else 0.
pub(crate) fn negative(alloc: Global, p: &Sum) -> Result<Sum, Lost>
    ensures { Gives result (negative (polynomial p.now)) }
{
    if is_natural(p) {
        Ok(make_number(0))
    } else if is_negative(p) {
        Ok(make_number(1))
    } else if is_turned(p) {
        let n = complement(alloc, p)?;
        let atom = make_atom(alloc, Kind::Negative, n)?;
        opposite(alloc, &atom)
    } else {
        let of = p.copy(alloc)?;
        make_atom(alloc, Kind::Negative, of)
    }
}

/// 1 where the value is 0, else 0.
pub(crate) fn zero(alloc: Global, p: &Sum) -> Result<Sum, Lost>
    ensures { Gives result (zero (polynomial p.now)) }
{
    if is_negative(p) {
        Ok(make_number(0))
    } else if is_natural(p) {
        let less = add_number(alloc, -1, p)?;
        negative(alloc, &less)
    } else if is_turned(p) {
        let n = negated(alloc, p)?;
        make_atom(alloc, Kind::Zero, n)
    } else {
        let of = p.copy(alloc)?;
        make_atom(alloc, Kind::Zero, of)
    }
}

/// One of two sums, by a sum of value 1 or 0.
pub(crate) fn selected(alloc: Global, c: &Sum, p: &Sum, q: &Sum) -> Result<Sum, Lost>
    ensures { Gives result (selected (polynomial c.now) (polynomial p.now) (polynomial q.now)) }
{
    let d = subtract(alloc, p, q)?;
    let e = product(alloc, c, &d)?;
    add(alloc, q, &e)
}
