//! What the operators and functions of one operand make of intervals.

ghost use Rattle.std.specs.Prelude.{◌≡◌, pos};
ghost use Rattle.vg_interval.specs.Interval.{absolute_span, fit, fitting, unary_span};
ghost use Rattle.vg_pseudo.specs.Whole.{clamped, complement, greater, negative};

use crate::exact::{complement, greater, lesser, negated};
use crate::span::Span;
use crate::spans::{between, signed_span, unsigned_span};
use vg_pseudo::UnaryOp;

// The greatest absolute value, if it fits.
fn reach(least: i128, greatest: i128) -> Option<i128>
    ensures { result ≡ fit (greater (negative least) greatest) }
{
    match negated(least) {
        Some(least) => Some(greater(least, greatest)),
        None => None,
    }
}

fn negated_span(i: Span) -> Option<Span>
    ensures { result ≡ fitting (negative i.greatest) (negative i.least) }
{
    let least = negated(i.greatest)?;
    let greatest = negated(i.least)?;
    Some(between(least, greatest))
}

fn complemented(least: i128, greatest: i128) -> Option<Span>
    ensures { result ≡ fitting (complement greatest) (complement least) }
{
    Some(between(complement(greatest), complement(least)))
}

// From 0 to the greatest absolute value.
fn reaching(i: Span) -> Option<Span>
    ensures { result ≡ fitting (pos 0) (greater (negative i.least) i.greatest) }
{
    let greatest = reach(i.least, i.greatest)?;
    Some(between(0, greatest))
}

fn absolute_span(i: Span) -> Option<Span>
    ensures { result ≡ absolute_span i }
{
    if 0 <= i.least {
        Some(i)
    } else if i.greatest <= 0 {
        negated_span(i)
    } else {
        reaching(i)
    }
}

/// No less than the first and no more than the second.
pub fn clamped(least: i128, greatest: i128, number: i128) -> i128
    ensures { result ≡ clamped least greatest number }
{
    lesser(greater(number, least), greatest)
}

fn held(i: Span, by: Span) -> Span
    ensures { result ≡ record {
      least = clamped by.least by.greatest i.least;
      greatest = clamped
          by.least by.greatest i.greatest;
    } }
{
    between(
        clamped(by.least, by.greatest, i.least),
        clamped(by.least, by.greatest, i.greatest),
    )
}

/// What an operator or a function makes of the numbers of an interval, if all of it fits.
pub fn unary_span(op: UnaryOp, i: Span) -> Option<Span>
    ensures { result ≡ unary_span op i }
{
    match op {
        UnaryOp::Not => complemented(i.least, i.greatest),
        UnaryOp::Negate => negated_span(i),
        UnaryOp::Absolute => absolute_span(i),
        UnaryOp::Signed => Some(i),
        UnaryOp::SignExtend(width) => Some(signed_span(width.bits())),
        UnaryOp::ZeroExtend(width) => Some(unsigned_span(width.bits())),
        UnaryOp::Saturate(width) => Some(held(i, signed_span(width.bits()))),
        UnaryOp::SaturateUnsigned(width) => Some(held(i, unsigned_span(width.bits()))),
        UnaryOp::Truncate(width) => Some(unsigned_span(width.bits())),
    }
}
