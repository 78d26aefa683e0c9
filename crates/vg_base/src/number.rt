//! Numbers of a width: their low bits, and whole numbers in two's complement.

ghost use Rattle.std.specs.Prelude.{◌≡◌, ◌*◌, ◌-◌, ◌%◌, ◌^◌, ◌<◌, ◌≤◌, ◌≤ℤ◌};
ghost use Rattle.vg_base.specs.Bits.{bits, signed as signed_number, signed_at};
ghost use Rattle.vg_base.specs.Number.{greatest_signed, least_signed, residue};

/// The greatest number of as many bits, for a width of up to 128 bits.
pub fn greatest(width: u32) -> u128
    requires { width ≤ 128 }
    ensures { result ≡ 2 ^ width - 1 }
{
    if width == 0 {
        0
    } else {
        u128::MAX >> (128 - width)
    }
}

/// The number of the lowest bits of the value, for a width of up to 128 bits.
pub fn low_bits(value: u128, width: u32) -> u128
    requires { width ≤ 128 }
    ensures is { result ≡ value % 2 ^ width }
    ensures below { result < 2 ^ width }
{
    value & greatest(width)
}

// The weight of the highest of the bits.
fn half(width: u32) -> u128
    requires least { 1 ≤ width }
    requires most { width ≤ 128 }
    ensures value { result ≡ 2 ^ (width - 1) }
    ensures twice { 2 * result ≡ 2 ^ width }
    ensures small { result ≤ 2 ^ 127 }
{
    1 << (width - 1)
}

/// The whole number that the lowest bits of the value are in two's complement, for a width of 1 to 128
/// bits. It is at least -2^(width - 1) and below 2^(width - 1).
pub fn signed(value: u128, width: u32) -> i128
    requires least { 1 ≤ width }
    requires most { width ≤ 128 }
    ensures bits { result ≡ signed_number (bits width value) }
    ensures number { result ≡ signed_at width (value % 2 ^ width) }
    ensures within { value < 2 ^ width → result ≡ signed_at width value }
    ensures at_least { least_signed width ≤ℤ result }
    ensures at_most { result ≤ℤ greatest_signed width }
{
    let low = low_bits(value, width);
    let half = half(width);
    if low < half {
        low as i128
    } else {
        -1 - (half - 1 - (low - half)) as i128
    }
}

/// The number of the lowest bits of a whole number in two's complement, for a width of 1 to 128 bits:
/// the number modulo 2^width.
pub fn unsigned(value: i128, width: u32) -> u128
    requires least { 1 ≤ width }
    requires most { width ≤ 128 }
    ensures is { result ≡ residue width value }
    ensures below { result < 2 ^ width }
{
    if value >= 0 {
        return low_bits(value as u128, width);
    }
    let half = half(width);
    half - 1 + half - low_bits((-1 - value) as u128, width)
}
