//! Whole numbers, and the constants that slices of constants are.

ghost use Rattle.std.specs.Prelude.{◌≡◌, ◌<◌, ◌%◌, ◌^◌};
ghost use Rattle.vg_base.specs.Bits.{signed_at};
ghost use Rattle.vg_base.specs.Number.{residue};
ghost use Rattle.vg_interval.specs.Interval.{fit};
ghost use Rattle.vg_interval.specs.Views.{slice_number};
ghost use Rattle.vg_script.specs.Views.{number_of};

use vg_base::number::{low_bits, signed};
use vg_script::WholeNumber;

/// The number in 128 signed bits, if it fits.
#[tactic(auto, unfolding(crate::specs::Interval::fit))]
pub fn small(number: WholeNumber) -> Option<i128>
    ensures { result ≡ fit (number_of number) }
{
    match number {
        WholeNumber::Natural(n) => {
            if n <= i128::MAX as u128 {
                Some(n as i128)
            } else {
                None
            }
        }
        WholeNumber::Negative(n) => {
            if n <= i128::MAX as u128 {
                Some(-1 - n as i128)
            } else {
                None
            }
        }
    }
}

/// A number of 128 signed bits.
pub fn whole(number: i128) -> WholeNumber
    ensures { number_of result ≡ number }
{
    if number < 0 {
        WholeNumber::Negative((-1 - number) as u128)
    } else {
        WholeNumber::Natural(number as u128)
    }
}

/// The low bits of a number, as many as a width of any size.
pub fn low_part(bits: u128, width: u128) -> u128
    ensures { result ≡ bits % 2 ^ width }
{
    if width < 128 {
        low_bits(bits, width as u32)
    } else {
        bits
    }
}

fn signed_number(width: u128, bits: u128) -> WholeNumber
    ensures { number_of result ≡ signed_at width (bits % 2 ^ width) }
{
    if width == 0 {
        WholeNumber::Natural(0)
    } else if width <= 128 {
        whole(signed(bits, width as u32))
    } else {
        WholeNumber::Natural(bits)
    }
}

/// The number of the low bits of a slice of a constant, by its reading.
pub fn slice_number(is_signed: bool, width: u128, bits: u128) -> WholeNumber
    ensures { number_of result ≡ slice_number is_signed width (bits % 2 ^ width) }
{
    if is_signed {
        signed_number(width, bits)
    } else {
        WholeNumber::Natural(low_part(bits, width))
    }
}

/// The number modulo 2^128.
pub fn low_word(number: WholeNumber) -> u128
    ensures { result ≡ residue 128 (number_of number) }
{
    match number {
        WholeNumber::Natural(n) => n,
        WholeNumber::Negative(n) => u128::MAX - n,
    }
}
