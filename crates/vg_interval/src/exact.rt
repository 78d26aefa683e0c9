//! Exact sums, products and shifts of whole numbers, where 128 signed bits hold them.

ghost use Rattle.std.specs.Prelude.{◌≡◌, ◌≤◌, ◌<◌, ◌^◌, ◌+ℤ◌, ◌*ℤ◌, pos, min};
ghost use Rattle.vg_base.specs.Number.{floor_shift, magnitude};
ghost use Rattle.vg_interval.specs.Interval.{fit, floor_by};
ghost use Rattle.vg_pseudo.specs.Whole.{complement, greater, lesser, natural, negative};

/// The sum, if it fits.
pub fn sum(x: i128, y: i128) -> Option<i128>
    ensures { result ≡ fit (x +ℤ y) }
{
    x.checked_add(y)
}

/// The first less the second, if it fits.
pub fn difference(x: i128, y: i128) -> Option<i128>
    ensures { result ≡ fit (x +ℤ negative y) }
{
    x.checked_sub(y)
}

/// The product, if it fits.
pub fn product(x: i128, y: i128) -> Option<i128>
    ensures { result ≡ fit (x *ℤ y) }
{
    x.checked_mul(y)
}

/// The negative, if it fits.
pub fn negated(x: i128) -> Option<i128>
    ensures { result ≡ fit (negative x) }
{
    x.checked_neg()
}

/// The product with a power of two, if it fits, for up to 127 places.
pub fn scaled(x: i128, places: u32) -> Option<i128>
    requires { places ≤ 127 }
    ensures { result ≡ fit (x *ℤ pos (2 ^ places)) }
{
    if places < 127 {
        product(x, power(places))
    } else if x == 0 {
        Some(0)
    } else if x == -1 {
        Some(i128::MIN)
    } else {
        None
    }
}

fn weight(places: u32) -> u128
    requires { places ≤ 126 }
    ensures is { result ≡ 2 ^ places }
    ensures below { result < 2 ^ 127 }
{
    1 << places
}

fn power(places: u32) -> i128
    requires { places ≤ 126 }
    ensures { result ≡ pos (2 ^ places) }
{
    weight(places) as i128
}

/// The other bits: -1 less the number.
pub fn complement(x: i128) -> i128
    ensures { result ≡ complement x }
{
    -1 - x
}

/// The lesser of two numbers.
pub fn lesser(x: i128, y: i128) -> i128
    ensures { result ≡ lesser x y }
{
    if x < y { x } else { y }
}

/// The greater of two numbers.
pub fn greater(x: i128, y: i128) -> i128
    ensures { result ≡ greater x y }
{
    if x < y { y } else { x }
}

/// The number as an amount, 0 where it is negative.
pub fn natural(x: i128) -> u128
    ensures is { result ≡ natural x }
    ensures below { result < 2 ^ 127 }
{
    if x < 0 { 0 } else { x as u128 }
}

/// The number of an amount of bits beside the sign bit.
pub fn magnitude(x: i128) -> u128
    ensures is { result ≡ magnitude x }
    ensures below { result < 2 ^ 127 }
{
    if x < 0 { (-1 - x) as u128 } else { x as u128 }
}

/// The number over a power of two, rounded down. More than 127 places are 127.
pub fn floor_by(x: i128, places: i128) -> i128
    ensures { result ≡ floor_by x places }
{
    x >> natural(places).min(127) as u32
}
