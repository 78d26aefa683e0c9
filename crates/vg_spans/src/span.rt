//! Spans of whole numbers.

ghost use Rattle.std.specs.Prelude.{◌≡◌, ◌≤◌, ◌<◌, ◌^◌, ◌-◌, pos};
ghost use Rattle.vg_base.specs.Number.{magnitude};
ghost use Rattle.vg_spans.specs.Span.{hull, is_signed, is_unsigned, is_within, only, readable, signed_span, span, unsigned_span};

use vg_base::number::greatest;

/// The whole numbers from one to another.
#[derive(Clone, Copy, Debug, PartialEq, Eq)]
pub struct Span {
    /// The least.
    pub low: i128,
    /// The greatest.
    pub high: i128,
}

impl Span {
    /// The numbers from the first to the second.
    pub fn new(low: i128, high: i128) -> Span
        ensures { result ≡ span low high }
    {
        Span { low, high }
    }

    /// One number alone.
    pub fn only(number: i128) -> Span
        ensures { result ≡ only number }
    {
        Span::new(number, number)
    }

    /// All signed numbers of so many bits, from 1 to 128.
    pub fn signed(width: u32) -> Span
        requires least { 1 ≤ width }
        requires most { width ≤ 128 }
        ensures { result ≡ signed_span width }
    {
        let greatest = greatest_number(width - 1);
        Span::new(-1 - greatest, greatest)
    }

    /// All unsigned numbers of so many bits, up to 127.
    pub fn unsigned(width: u32) -> Span
        requires { width ≤ 127 }
        ensures { result ≡ unsigned_span width }
    {
        Span::new(0, greatest_number(width))
    }

    /// Whether each of its numbers is in the other.
    pub fn is_within(self, other: Span) -> bool
        ensures { result ≡ is_within self other }
    {
        other.low <= self.low && self.high <= other.high
    }

    /// Whether it has signed numbers of so many bits alone.
    pub fn is_signed(self, width: u32) -> bool
        requires least { 1 ≤ width }
        requires most { width ≤ 64 }
        ensures { result ≡ is_signed width self }
    {
        self.is_within(Span::signed(width))
    }

    /// Whether it has unsigned numbers of so many bits alone.
    pub fn is_unsigned(self, width: u32) -> bool
        requires { width ≤ 64 }
        ensures { result ≡ is_unsigned width self }
    {
        self.is_within(Span::unsigned(width))
    }

    /// The span itself where one reading of so many bits has all of it, else all signed numbers.
    pub fn readable(self, width: u32) -> Span
        requires least { 1 ≤ width }
        requires most { width ≤ 64 }
        ensures { result ≡ readable width self }
    {
        if self.is_signed(width) || self.is_unsigned(width) {
            self
        } else {
            Span::signed(width)
        }
    }

    /// The least span with the numbers of both.
    pub fn hull(self, other: Span) -> Span
        ensures { result ≡ hull self other }
    {
        Span::new(self.low.min(other.low), self.high.max(other.high))
    }
}

// The greatest number of so many bits.
fn greatest_number(width: u32) -> i128
    requires { width ≤ 127 }
    ensures { result ≡ pos (2 ^ width - 1) }
{
    greatest_word(width) as i128
}

fn greatest_word(width: u32) -> u128
    requires { width ≤ 127 }
    ensures is { result ≡ 2 ^ width - 1 }
    ensures below { result < 2 ^ 127 }
{
    greatest(width)
}
