//! The low bits of numbers, read with and without a sign.

ghost use Rattle.std.specs.Prelude.{◌≡◌, ◌≤◌, ◌<◌, ◌^◌, int_lt, nat_lt};
ghost use Rattle.vg_base.specs.Width.{bits_of};
ghost use Rattle.vg_base.specs.Number.{residue};
ghost use Rattle.vg_scalar.specs.Scalar.{low, low_signed};

use vg_base::number::{signed, unsigned};
use vg_base::width::Width;

/// The low bits of a number.
pub(crate) fn low(width: Width, number: u64) -> u64
    ensures is { result ≡ low (bits_of width) number }
    ensures below { result < 2 ^ bits_of width }
{
    match width {
        Width::W8 => number % (1 << 8),
        Width::W16 => number % (1 << 16),
        Width::W32 => number % (1 << 32),
        Width::W64 => number,
    }
}

/// The low bits of a number in two's complement.
pub(crate) fn low_signed(width: Width, number: u64) -> i128
    ensures { result ≡ low_signed (bits_of width) number }
{
    signed(number as u128, width.bits())
}

/// The low bits of a whole number.
pub(crate) fn low_of_whole(width: Width, number: i128) -> u64
    ensures is { result ≡ residue (bits_of width) number }
    ensures below { result < 2 ^ bits_of width }
{
    unsigned(number, width.bits()) as u64
}

/// Whether the first is less, both read in two's complement.
pub(crate) fn is_less_signed(width: Width, left: u64, right: u64) -> bool
    ensures { result ≡ int_lt (low_signed (bits_of width) left) (low_signed (bits_of width) right) }
{
    low_signed(width, left) < low_signed(width, right)
}
