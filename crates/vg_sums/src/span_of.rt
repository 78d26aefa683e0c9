//! The spans of sums.

ghost use Rattle.std.specs.Prelude.{◌≡◌, ◌≤◌};
ghost use Rattle.vg_sums.specs.Readings.{shown_floor};
ghost use Rattle.vg_sums.specs.Spans.{atom_span, span};
ghost use Rattle.vg_sums.specs.Sums.{polynomial};

use crate::kind::Kind;
use crate::span::{
    Span, between, bits_span, common_floor, floor_span, not_negative, span_product, span_sum,
};
use crate::sum::Sum;

fn atom_span(kind: Kind, of: Option<Span>) -> Option<Span>
    ensures { result ≡ atom_span kind of }
{
    match kind {
        Kind::Leaf { width, .. } => bits_span(width),
        Kind::Floor { places } => {
            let s = of?;
            floor_span(places, s)
        }
        Kind::Positive => {
            let s = of?;
            Some(not_negative(s))
        }
        Kind::Negative => Some(between(0, 1)),
        Kind::Zero => Some(between(0, 1)),
        Kind::Bitwise { width, .. } => bits_span(width),
    }
}

/// The span of a sum, if its ends fit. Takes no memory.
pub(crate) fn span_of(p: &Sum) -> Option<Span>
    ensures { result ≡ span (polynomial p.now) }
{
    match p {
        Sum::Number(z) => Some(between(*z, *z)),
        Sum::Plus {
            kind,
            of,
            factor,
            rest,
        } => {
            let inner = span_of(of);
            let atom = atom_span(*kind, inner)?;
            let factor = span_of(factor)?;
            let product = span_product(atom, factor)?;
            let rest = span_of(rest)?;
            span_sum(product, rest)
        }
    }
}

/// The floor of the value of a sum over a power of two, where its span shows it.
pub(crate) fn shown_floor(places: u32, p: &Sum) -> Option<i128>
    requires { places ≤ 126 }
    ensures { result ≡ shown_floor places (polynomial p.now) }
{
    let span = span_of(p)?;
    common_floor(places, span)
}
