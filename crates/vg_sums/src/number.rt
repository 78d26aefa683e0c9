//! Sums and products of whole numbers, where 128 signed bits hold them.

ghost use Rattle.std.specs.Prelude.{◌≡◌, ◌≤◌, ◌<◌, ◌^◌, ◌+ℤ◌, ◌*ℤ◌, pos};
ghost use Rattle.vg_sums.specs.Arithmetic.{fit};
ghost use Rattle.vg_sums.specs.Spans.{greater, lesser};

use crate::lost::Lost;

/// The sum, if it fits.
pub(crate) fn sum(x: i128, y: i128) -> Option<i128>
    ensures { result ≡ fit (x +ℤ y) }
{
    x.checked_add(y)
}

/// The product, if it fits.
pub(crate) fn product(x: i128, y: i128) -> Option<i128>
    ensures { result ≡ fit (x *ℤ y) }
{
    x.checked_mul(y)
}

fn weight(places: u32) -> u128
    requires { places ≤ 126 }
    ensures is { result ≡ 2 ^ places }
    ensures below { result < 2 ^ 127 }
{
    1 << places
}

/// A power of two.
pub(crate) fn power(places: u32) -> i128
    requires { places ≤ 126 }
    ensures { result ≡ pos (2 ^ places) }
{
    weight(places) as i128
}

/// The lesser of two numbers.
pub(crate) fn lesser(x: i128, y: i128) -> i128
    ensures { result ≡ lesser x y }
{
    if x < y { x } else { y }
}

/// The greater of two numbers.
pub(crate) fn greater(x: i128, y: i128) -> i128
    ensures { result ≡ greater x y }
{
    if x < y { y } else { x }
}
