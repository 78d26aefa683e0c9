//! The spans of operations.

ghost use Rattle.std.specs.Prelude.{◌≡◌, ◌≤◌, ◌<◌, ◌^◌, ◌+ℤ◌, ◌-ℤ◌, ◌*ℤ◌, max, pos};
ghost use Rattle.std.specs.Int.{int_max, int_min, saturate_to_bits};
ghost use Rattle.vg_base.specs.Number.{floor_shift, magnitude};
ghost use Rattle.vg_spans.specs.Span.{between_ends, bits_needed, end_by_end, only, readable, span, with_ends};
ghost use Rattle.vg_spans.specs.Spans.{bits_span, resize_span, shift_span, shifted_down, two_span};
ghost use Rattle.vg_terms.specs.Known.{digits};

use crate::operand_spans::OperandSpans;
use crate::span::Span;
use vg_scalar::{Resize, Shift, TwoOp};

fn lesser(x: i128, y: i128) -> i128
    ensures { result ≡ int_min x y }
{
    x.min(y)
}

fn greater(x: i128, y: i128) -> i128
    ensures { result ≡ int_max x y }
{
    x.max(y)
}

// From the lesser to the greater of two numbers.
fn between(x: i128, y: i128) -> Span
    ensures { result ≡ span (int_min x y) (int_max x y) }
{
    Span::new(lesser(x, y), greater(x, y))
}

// The sum, or the end of 128 signed bits that is nearest to it.
fn sum(x: i128, y: i128) -> i128
    ensures { result ≡ saturate_to_bits 127 (x +ℤ y) }
{
    x.saturating_add(y)
}

// The same of the difference.
fn difference(x: i128, y: i128) -> i128
    ensures { result ≡ saturate_to_bits 127 (x -ℤ y) }
{
    x.saturating_sub(y)
}

// The same of the product.
fn product(x: i128, y: i128) -> i128
    ensures { result ≡ saturate_to_bits 127 (x *ℤ y) }
{
    x.saturating_mul(y)
}

// The sums of a number and the ends of a span.
fn sums_with(x: i128, y: Span) -> Span
    ensures { result ≡ with_ends (λ a b. saturate_to_bits 127 (a +ℤ b)) x y }
{
    between(sum(x, y.low), sum(x, y.high))
}

// The sums of the ends of two spans.
fn sums_of_ends(x: Span, y: Span) -> Span
    ensures { result ≡ between_ends (λ a b. saturate_to_bits 127 (a +ℤ b)) x y }
{
    sums_with(x.low, y).hull(sums_with(x.high, y))
}

// The span of sums. An end past 128 bits stops there, which is past each reading of the width.
fn sums(width: u32, x: Span, y: Span) -> Span
    requires least { 1 ≤ width }
    requires most { width ≤ 64 }
    ensures { result ≡ readable width (between_ends (λ a b. a +ℤ b) x y) }
{
    sums_of_ends(x, y).readable(width)
}

// The differences of a number and the ends of a span.
fn differences_with(x: i128, y: Span) -> Span
    ensures { result ≡ with_ends (λ a b. saturate_to_bits 127 (a -ℤ b)) x y }
{
    between(difference(x, y.low), difference(x, y.high))
}

// The differences of the ends of two spans.
fn differences_of_ends(x: Span, y: Span) -> Span
    ensures { result ≡ between_ends (λ a b. saturate_to_bits 127 (a -ℤ b)) x y }
{
    differences_with(x.low, y).hull(differences_with(x.high, y))
}

// The span of differences. An end past 128 bits stops there, which is past each reading of the
// width.
fn differences(width: u32, x: Span, y: Span) -> Span
    requires least { 1 ≤ width }
    requires most { width ≤ 64 }
    ensures { result ≡ readable width (between_ends (λ a b. a -ℤ b) x y) }
{
    differences_of_ends(x, y).readable(width)
}

// The products of a number and the ends of a span.
fn products_with(x: i128, y: Span) -> Span
    ensures { result ≡ with_ends (λ a b. saturate_to_bits 127 (a *ℤ b)) x y }
{
    between(product(x, y.low), product(x, y.high))
}

// The products of the ends of two spans.
fn products_of_ends(x: Span, y: Span) -> Span
    ensures { result ≡ between_ends (λ a b. saturate_to_bits 127 (a *ℤ b)) x y }
{
    products_with(x.low, y).hull(products_with(x.high, y))
}

// The span of products. An end past 128 bits stops there, which is past each reading of the width.
fn products(width: u32, x: Span, y: Span) -> Span
    requires least { 1 ≤ width }
    requires most { width ≤ 64 }
    ensures { result ≡ readable width (between_ends (λ a b. a *ℤ b) x y) }
{
    products_of_ends(x, y).readable(width)
}

fn magnitude(x: i128) -> u128
    ensures is { result ≡ magnitude x }
    ensures below { result < 2 ^ 127 }
{
    if x < 0 { (-1 - x) as u128 } else { x as u128 }
}

fn digits(x: i128) -> u32
    ensures is { result ≡ digits (magnitude x) }
    ensures most { result ≤ 127 }
{
    let beside_sign = magnitude(x);
    128 - beside_sign.leading_zeros()
}

// How many bits the numbers of a span need beside the sign.
fn bits_of_span(x: Span) -> u32
    ensures is { result ≡ max (digits (magnitude x.low)) (digits (magnitude x.high)) }
    ensures most { result ≤ 127 }
{
    digits(x.low).max(digits(x.high))
}

// What OR and XOR make of the numbers of two spans.
fn bits_span(x: Span, y: Span) -> Span
    ensures { result ≡ bits_span x y }
{
    let bits = bits_of_span(x).max(bits_of_span(y));
    if x.low < 0 || y.low < 0 {
        Span::signed(bits + 1)
    } else {
        Span::unsigned(bits)
    }
}

// What AND makes of unsigned numbers of two spans.
fn parts(width: u32, x: Span, y: Span) -> Span
    requires least { 1 ≤ width }
    requires most { width ≤ 64 }
    ensures { result ≡ readable width (span (pos 0) (int_min x.high y.high)) }
{
    Span::new(0, lesser(x.high, y.high)).readable(width)
}

// The lesser of both low ends and of both high ends.
fn minima(x: Span, y: Span) -> Span
    ensures { result ≡ end_by_end int_min x y }
{
    Span::new(lesser(x.low, y.low), lesser(x.high, y.high))
}

// The greater of both low ends and of both high ends.
fn maxima(x: Span, y: Span) -> Span
    ensures { result ≡ end_by_end int_max x y }
{
    Span::new(greater(x.low, y.low), greater(x.high, y.high))
}

/// The span of an operation of so many bits on two operands of as many, from 1 to 64.
pub fn two_span(op: TwoOp, width: u32, x: OperandSpans, y: OperandSpans) -> Span
    requires least { 1 ≤ width }
    requires most { width ≤ 64 }
    ensures { result ≡ two_span op width x y }
{
    match op {
        TwoOp::Add => sums(width, x.plain, y.plain),
        TwoOp::Sub => differences(width, x.plain, y.plain),
        TwoOp::Mul => products(width, x.plain, y.plain),
        TwoOp::And => parts(width, x.unsigned, y.unsigned),
        TwoOp::Or => bits_span(x.plain, y.plain).readable(width),
        TwoOp::Xor => bits_span(x.plain, y.plain).readable(width),
        TwoOp::Smin => minima(x.signed, y.signed),
        TwoOp::Smax => maxima(x.signed, y.signed),
        TwoOp::Umin => minima(x.unsigned, y.unsigned),
        TwoOp::Umax => maxima(x.unsigned, y.unsigned),
    }
}

// Both ends times a power of two.
fn shifted_up(width: u32, amount: u32, x: Span) -> Span
    requires least { 1 ≤ width }
    requires most { width ≤ 64 }
    requires amount { amount < 64 }
    ensures { result ≡ readable width (between_ends (λ a b. a *ℤ b) x (only (pos (2 ^ amount)))) }
{
    products(width, x, Span::only(power(amount)))
}

fn weight(places: u32) -> u128
    requires { places < 64 }
    ensures is { result ≡ 2 ^ places }
    ensures below { result < 2 ^ 127 }
{
    1 << places
}

fn power(places: u32) -> i128
    requires { places < 64 }
    ensures { result ≡ pos (2 ^ places) }
{
    weight(places) as i128
}

// Both ends over a power of two, rounded down.
fn shifted_down(amount: u32, x: Span) -> Span
    requires { amount < 64 }
    ensures { result ≡ shifted_down x amount }
{
    Span::new(x.low >> amount, x.high >> amount)
}

/// The span of an operand of so many bits, from 1 to 64, shifted by as many places as are below 64.
pub fn shift_span(op: Shift, width: u32, amount: u32, x: OperandSpans) -> Span
    requires least { 1 ≤ width }
    requires most { width ≤ 64 }
    requires amount { amount < 64 }
    ensures { result ≡ shift_span op width amount x }
{
    match op {
        Shift::Shl => shifted_up(width, amount, x.plain),
        Shift::Lshr => shifted_down(amount, x.unsigned),
        Shift::Ashr => shifted_down(amount, x.signed),
    }
}

/// The span of an operand at so many bits, from 1 to 64.
pub fn resize_span(op: Resize, width: u32, x: OperandSpans) -> Span
    requires least { 1 ≤ width }
    requires most { width ≤ 64 }
    ensures { result ≡ resize_span op width x }
{
    match op {
        Resize::Sext => x.signed,
        Resize::Zext => x.unsigned,
        Resize::Trunc => x.plain.readable(width),
    }
}
