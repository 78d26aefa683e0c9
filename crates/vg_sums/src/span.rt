//! Spans of whole numbers, and what sums and products make of them.

ghost use Rattle.std.specs.Prelude.{◌≡◌, ◌≤◌, ◌<◌, ◌-◌, ◌^◌, Option, pos};
ghost use Rattle.vg_base.specs.Number.{floor_shift};
ghost use Rattle.vg_sums.specs.Readings.{common_floor};
ghost use Rattle.vg_sums.specs.Choices.{shows_natural, shows_negative};
ghost use Rattle.vg_sums.specs.Terms.{shows_truth};
ghost use Rattle.vg_sums.specs.Spans.{bits_span, between, floor_span, hull, not_negative, products_with, span_product, span_sum};

use crate::number::{greater, lesser, product, sum};
use vg_base::number::greatest;

/// The whole numbers from the first to the second.
#[derive(Clone, Copy)]
pub struct Span {
    pub least: i128,
    pub greatest: i128,
}

pub(crate) fn between(least: i128, greatest: i128) -> Span
    ensures { result ≡ between least greatest }
{
    Span { least, greatest }
}

pub(crate) fn span_sum(s: Span, t: Span) -> Option<Span>
    ensures { result ≡ span_sum s t }
{
    let a = sum(s.least, t.least)?;
    let b = sum(s.greatest, t.greatest)?;
    Some(between(a, b))
}

fn products_with(z: i128, s: Span) -> Option<Span>
    ensures { result ≡ products_with z s }
{
    let a = product(z, s.least)?;
    let b = product(z, s.greatest)?;
    Some(between(lesser(a, b), greater(a, b)))
}

fn hull(s: Span, t: Span) -> Span
    ensures { result ≡ hull s t }
{
    between(lesser(s.least, t.least), greater(s.greatest, t.greatest))
}

pub(crate) fn span_product(s: Span, t: Span) -> Option<Span>
    ensures { result ≡ span_product s t }
{
    let a = products_with(s.least, t)?;
    let b = products_with(s.greatest, t)?;
    Some(hull(a, b))
}

pub(crate) fn not_negative(s: Span) -> Span
    ensures { result ≡ not_negative s }
{
    between(greater(s.least, 0), greater(s.greatest, 0))
}

fn shifted(z: i128, places: u32) -> i128
    requires { places ≤ 126 }
    ensures { result ≡ floor_shift z places }
{
    z >> places
}

fn greatest_of(width: u32) -> u128
    requires { width ≤ 126 }
    ensures is { result ≡ 2 ^ width - 1 }
    ensures below { result < 2 ^ 127 }
{
    greatest(width)
}

/// The numbers of so many bits.
pub(crate) fn bits_span(width: u32) -> Option<Span>
    ensures { result ≡ bits_span width }
{
    if width <= 126 {
        Some(between(0, greatest_of(width) as i128))
    } else {
        None
    }
}

pub(crate) fn floor_span(places: u32, s: Span) -> Option<Span>
    ensures { result ≡ floor_span places s }
{
    if places <= 126 {
        Some(between(shifted(s.least, places), shifted(s.greatest, places)))
    } else {
        None
    }
}

/// The one multiple of a power of two that the numbers of a span have below them.
pub(crate) fn common_floor(places: u32, s: Span) -> Option<i128>
    requires { places ≤ 126 }
    ensures { result ≡ common_floor places s }
{
    let least = shifted(s.least, places);
    if least == shifted(s.greatest, places) {
        Some(least)
    } else {
        None
    }
}

/// Whether the span shows that a number is not below 0.
pub(crate) fn shows_natural(span: Option<Span>) -> bool
    ensures { result ≡ shows_natural span }
{
    match span {
        Some(s) => 0 <= s.least,
        None => false,
    }
}

/// Whether the span shows that a number is below 0.
pub(crate) fn shows_negative(span: Option<Span>) -> bool
    ensures { result ≡ shows_negative span }
{
    match span {
        Some(s) => s.greatest < 0,
        None => false,
    }
}

/// Whether the span shows that a number is 0 or 1.
pub(crate) fn shows_truth(span: Option<Span>) -> bool
    ensures { result ≡ shows_truth span }
{
    match span {
        Some(s) => 0 <= s.least && s.greatest <= 1,
        None => false,
    }
}
