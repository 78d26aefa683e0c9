//! What the operators and functions of two operands make of intervals.

ghost use Rattle.std.specs.Prelude.{◌≡◌, ◌≤◌, ◌^◌, max, pos};
ghost use Rattle.vg_interval.specs.Interval.{between, binary_span, bits_needed, bits_span, floor_by, left_span, products, products_with, right_span, shifted_left_span};
ghost use Rattle.vg_base.specs.Number.{magnitude};
ghost use Rattle.vg_pseudo.specs.Whole.{greater, lesser};
ghost use Rattle.vg_terms.specs.Known.{digits};
ghost use Rattle.vg_pseudo.specs.declared.operators.BinaryOp.TheVariants.{Add, Subtract};

use crate::exact::{
    difference, floor_by, greater, lesser, magnitude, natural, product, scaled, sum,
};
use crate::span::Span;
use crate::spans::{between, hull, signed_span, unsigned_span};
use vg_pseudo::BinaryOp;

// How many bits each number of an interval needs, without the sign.
fn bits_of_span(i: Span) -> u32
    ensures is { result ≡ max (digits (magnitude i.least)) (digits (magnitude i.greatest)) }
    ensures most { result ≤ 127 }
{
    digits(i.least).max(digits(i.greatest))
}

fn digits(number: i128) -> u32
    ensures is { result ≡ digits (magnitude number) }
    ensures most { result ≤ 127 }
{
    let beside_sign = magnitude(number);
    128 - beside_sign.leading_zeros()
}

/// What AND, OR and XOR make of two intervals.
pub fn bits_span(i: Span, j: Span) -> Span
    ensures { result ≡ bits_span i j }
{
    let bits = bits_of_span(i).max(bits_of_span(j));
    if i.least < 0 || j.least < 0 {
        signed_span(1 + bits)
    } else {
        unsigned_span(bits)
    }
}

fn products_with(x: i128, j: Span) -> Option<Span>
    ensures { result ≡ products_with x j }
{
    let a = product(x, j.least)?;
    let b = product(x, j.greatest)?;
    Some(between(lesser(a, b), greater(a, b)))
}

fn products(i: Span, j: Span) -> Option<Span>
    ensures { result ≡ products i j }
{
    let first = products_with(i.least, j)?;
    let second = products_with(i.greatest, j)?;
    Some(hull(first, second))
}

fn scaled_ends(x: i128, least: u32, greatest: u32) -> Option<Span>
    requires least { least ≤ 127 }
    requires greatest { greatest ≤ 127 }
    ensures { result ≡ products_with x (between (pos (2 ^ least)) (pos (2 ^ greatest))) }
{
    let a = scaled(x, least)?;
    let b = scaled(x, greatest)?;
    Some(between(lesser(a, b), greater(a, b)))
}

/// What a shift to the left by as many places makes of an interval, if all of it fits. The places
/// lie between two numbers of at most 127.
pub fn shifted_left_span(i: Span, least: u32, greatest: u32) -> Option<Span>
    requires least { least ≤ 127 }
    requires greatest { greatest ≤ 127 }
    ensures { result ≡ shifted_left_span i (between (pos least) (pos greatest)) }
{
    let first = scaled_ends(i.least, least, greatest)?;
    let second = scaled_ends(i.greatest, least, greatest)?;
    Some(hull(first, second))
}

/// What a shift to the left by the numbers of an interval makes of another, if all of it fits. More
/// than 127 places leave 0.
pub fn left_span(i: Span, j: Span) -> Option<Span>
    ensures { result ≡ left_span i j }
{
    let least = natural(j.least);
    let greatest = natural(j.greatest);
    if 127 < least {
        Some(between(0, 0))
    } else if 127 < greatest {
        let shifted = shifted_left_span(i, least as u32, 127)?;
        Some(hull(shifted, between(0, 0)))
    } else {
        shifted_left_span(i, least as u32, greatest as u32)
    }
}

fn least_shifted(x: i128, j: Span) -> i128
    ensures { result ≡ lesser (floor_by x j.least) (floor_by x j.greatest) }
{
    lesser(floor_by(x, j.least), floor_by(x, j.greatest))
}

fn greatest_shifted(x: i128, j: Span) -> i128
    ensures { result ≡ greater (floor_by x j.least) (floor_by x j.greatest) }
{
    greater(floor_by(x, j.least), floor_by(x, j.greatest))
}

/// What a shift to the right by the numbers of an interval makes of another.
pub fn right_span(i: Span, j: Span) -> Span
    ensures { result ≡ right_span i j }
{
    between(least_shifted(i.least, j), greatest_shifted(i.greatest, j))
}

fn sums(i: Span, j: Span) -> Option<Span>
    ensures { result ≡ binary_span Add i j }
{
    let least = sum(i.least, j.least)?;
    Some(between(least, sum(i.greatest, j.greatest)?))
}

fn differences(i: Span, j: Span) -> Option<Span>
    ensures { result ≡ binary_span Subtract i j }
{
    let least = difference(i.least, j.greatest)?;
    Some(between(least, difference(i.greatest, j.least)?))
}

/// What an operator or a function makes of the numbers of two intervals, if all of it fits. The
/// amount of a shift is not negative.
pub fn binary_span(op: BinaryOp, i: Span, j: Span) -> Option<Span>
    ensures { result ≡ binary_span op i j }
{
    match op {
        BinaryOp::Or | BinaryOp::Xor | BinaryOp::And => Some(bits_span(i, j)),
        BinaryOp::Equal | BinaryOp::NotEqual | BinaryOp::Less | BinaryOp::LessOrEqual => {
            Some(unsigned_span(1))
        }
        BinaryOp::Greater | BinaryOp::GreaterOrEqual => Some(unsigned_span(1)),
        BinaryOp::ShiftLeft => left_span(i, j),
        BinaryOp::ShiftRight => Some(right_span(i, j)),
        BinaryOp::Add => sums(i, j),
        BinaryOp::Subtract => differences(i, j),
        BinaryOp::Multiply => products(i, j),
        BinaryOp::Minimum => Some(between(
            lesser(i.least, j.least),
            lesser(i.greatest, j.greatest),
        )),
        BinaryOp::Maximum => Some(between(
            greater(i.least, j.least),
            greater(i.greatest, j.greatest),
        )),
    }
}
