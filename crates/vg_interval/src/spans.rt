//! Intervals of given widths, and the interval round two others.

ghost use Rattle.std.specs.Prelude.{◌≡◌, ◌≤◌, ◌<◌, ◌^◌, ◌-◌, IfSome};
ghost use Rattle.vg_interval.specs.Interval.{between, fitting, hull, signed_span, slice_span, unsigned_span};

use crate::exact::{greater, lesser};
use crate::span::Span;
use vg_base::number::greatest;

/// The numbers from the first to the second.
pub fn between(least: i128, greatest: i128) -> Span
    ensures { result ≡ between least greatest }
{
    Span { least, greatest }
}

/// The least interval round both.
pub fn hull(i: Span, j: Span) -> Span
    ensures { result ≡ hull i j }
{
    between(lesser(i.least, j.least), greater(i.greatest, j.greatest))
}

fn greatest_of(width: u32) -> u128
    requires { width ≤ 127 }
    ensures is { result ≡ 2 ^ width - 1 }
    ensures below { result < 2 ^ 127 }
{
    greatest(width)
}

/// All numbers of so many bits in two's complement.
pub fn signed_span(width: u32) -> Span
    requires { width ≤ 128 }
    ensures { result ≡ signed_span width }
{
    let greatest = greatest_of(width.saturating_sub(1)) as i128;
    between(-1 - greatest, greatest)
}

/// All numbers of so many bits.
pub fn unsigned_span(width: u32) -> Span
    requires { width ≤ 127 }
    ensures { result ≡ unsigned_span width }
{
    between(0, greatest_of(width) as i128)
}

/// All numbers of a slice of so many bits, where 128 signed bits hold them.
pub fn slice_span(is_signed: bool, width: u128) -> Option<Span>
    ensures is { result ≡ slice_span is_signed width }
    ensures narrow { IfSome result (λ _. width ≤ 128) }
{
    if is_signed {
        if width <= 128 {
            Some(signed_span(width as u32))
        } else {
            None
        }
    } else if width <= 127 {
        Some(unsigned_span(width as u32))
    } else {
        None
    }
}
