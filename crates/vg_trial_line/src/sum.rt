//! Sums of bytes.

ghost use Rattle.std.specs.Prelude.{◌≡◌, ◌%◌, ◌^◌, sum};

/// The sum of the bytes, modulo 2^32.
pub(crate) fn sum_of(bytes: &[u8]) -> u32
    ensures { result ≡ sum bytes.now % 2 ^ 32 }
{
    bytes
        .iter()
        .fold(0_u32, |sum, byte| sum.wrapping_add(u32::from(*byte)))
}
