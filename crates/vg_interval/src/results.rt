//! What the operators and functions make of constants, where the result fits.

ghost use Rattle.std.specs.Prelude.{◌≡◌, ◌<◌, ◌^◌, pos};
ghost use Rattle.vg_interval.specs.Interval.{fit};
ghost use Rattle.vg_pseudo.specs.Whole.{shifted_left, truth, unary_result};
ghost use Rattle.vg_base.specs.Number.{residue};
ghost use Rattle.vg_base.specs.Width.{bits_of};
ghost use Rattle.vg_pseudo.specs.declared.operators.UnaryOp.TheVariants.{Absolute};
ghost use Rattle.vg_base.specs.Bits.{signed_at};

use crate::exact::{complement, negated, scaled};
use crate::spans::{signed_span, unsigned_span};
use crate::unary_spans::clamped;
use vg_base::Width;
use vg_base::number::{signed, unsigned};
use vg_pseudo::UnaryOp;

/// A number, which fits.
pub fn fitted(x: i128) -> Option<i128>
    ensures { result ≡ fit x }
{
    Some(x)
}

fn absolute(x: i128) -> Option<i128>
    ensures { result ≡ fit (unary_result Absolute x) }
{
    if x < 0 { negated(x) } else { fitted(x) }
}

fn low_signed(x: i128, width: Width) -> i128
    ensures { result ≡ signed_at (bits_of width) (residue (bits_of width) x) }
{
    signed(unsigned(x, width.bits()), width.bits())
}

fn low_unsigned(x: i128, width: Width) -> i128
    ensures { result ≡ pos (residue (bits_of width) x) }
{
    let low = low_number(x, width);
    low as i128
}

fn low_number(x: i128, width: Width) -> u128
    ensures is { result ≡ residue (bits_of width) x }
    ensures below { result < 2 ^ 64 }
{
    match width {
        Width::W8 => unsigned(x, 8),
        Width::W16 => unsigned(x, 16),
        Width::W32 => unsigned(x, 32),
        Width::W64 => unsigned(x, 64),
    }
}

/// What an operator or a function of one operand makes of a number, if it fits.
pub fn unary_result(op: UnaryOp, x: i128) -> Option<i128>
    ensures { result ≡ fit (unary_result op x) }
{
    match op {
        UnaryOp::Not => fitted(complement(x)),
        UnaryOp::Negate => negated(x),
        UnaryOp::Absolute => absolute(x),
        UnaryOp::Signed => fitted(x),
        UnaryOp::SignExtend(width) => fitted(low_signed(x, width)),
        UnaryOp::ZeroExtend(width) => fitted(low_unsigned(x, width)),
        UnaryOp::Saturate(width) => {
            let span = signed_span(width.bits());
            fitted(clamped(span.least, span.greatest, x))
        }
        UnaryOp::SaturateUnsigned(width) => {
            let span = unsigned_span(width.bits());
            fitted(clamped(span.least, span.greatest, x))
        }
        UnaryOp::Truncate(width) => fitted(low_unsigned(x, width)),
    }
}

/// 1 where it holds, else 0.
pub fn truth(holds: bool) -> i128
    ensures { result ≡ truth holds }
{
    if holds { 1 } else { 0 }
}

/// The product with a power of two, if it fits. More than 127 places leave 0.
pub fn shifted_left(x: i128, places: u128) -> Option<i128>
    ensures { result ≡ fit (shifted_left x places) }
{
    if places <= 127 {
        scaled(x, places as u32)
    } else {
        fitted(0)
    }
}
