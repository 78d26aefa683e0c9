//! Bits in a list of bytes.

ghost use Rattle.std.specs.Prelude.{◌≡◌, ℕ, ◌+◌, ◌-◌, ◌*◌, ◌^◌, ◌<◌, ◌≤◌, ◌++◌, length, min, replicate, if◌then◌else◌};
ghost use Rattle.vg_base.specs.Bits.{bits, bits_of_bytes};
ghost use Rattle.vg_base.specs.Number.{residue};
ghost use Rattle.vg_bits.specs.Range.{range, replaced};
ghost use Rattle.vg_script.specs.Views.{number_of};

use vg_bits::BitIndex;
use vg_bits::bit_range::{copy, write};
use vg_script::WholeNumber;

/// 128 bits that are all 0, or all 1.
fn piece_of(is_one: bool) -> u128
    ensures { result ≡ (if is_one then 2 ^ 128 - 1 else 0) }
{
    if is_one { u128::MAX } else { 0 }
}

/// The low 128 bits of a whole number, and whether those above them are all 1, or all 0.
fn low_and_sign(number: WholeNumber) -> (u128, bool)
    ensures { (w : ℕ) → bits w (residue w (number_of number)) ≡
        bits (min w 128) result.0 ++ replicate (w - min w 128) (if result.1 then 1 else 0) }
{
    match number {
        WholeNumber::Natural(n) => (n, false),
        WholeNumber::Negative(n) => (!n, true),
    }
}

/// Makes all bits of a range 0, or all 1.
pub(crate) fn repeat(bytes: &mut [u8], at: usize, width: usize, is_one: bool)
    requires inside { at + width ≤ 8 * length bytes.old }
    requires small { at + width < 2 ^ 64 }
    ensures { bits_of_bytes bytes.new
        ≡ replaced at (replicate width (if is_one then 1 else 0)) (bits_of_bytes bytes.old) }
{
    let piece = piece_of(is_one);
    let mut done: usize = 0;
    'pieces: while done < width {
        let count = (width - done).min(128);
        write(bytes, BitIndex::new(at + done), count, piece);
        done += count;
    }
}

/// Puts so many bits of a whole number in two's complement in the place of those from `at` on.
pub(crate) fn put_number(bytes: &mut [u8], at: usize, width: usize, number: WholeNumber)
    requires inside { at + width ≤ 8 * length bytes.old }
    requires small { at + width < 2 ^ 64 }
    ensures { bits_of_bytes bytes.new
        ≡ replaced at (bits width (residue width (number_of number))) (bits_of_bytes bytes.old) }
{
    let count = width.min(128);
    let (low, is_negative) = low_and_sign(number);
    write(bytes, BitIndex::new(at), count, low);
    repeat(bytes, at + count, width - count, is_negative);
}

/// Puts so many bits from `start` on of another list, and zeros above them, in the place of as many
/// as a width from `at` on.
pub(crate) fn put_padded(
    bytes: &mut [u8],
    at: usize,
    width: usize,
    from: &[u8],
    start: usize,
    count: usize,
)
    requires inside { at + width ≤ 8 * length bytes.old }
    requires from_inside { start + count ≤ 8 * length from.now }
    requires fits { count ≤ width }
    requires small { at + width < 2 ^ 64 }
    ensures { bits_of_bytes bytes.new ≡ replaced at (range start count (bits_of_bytes from.now) ++
        replicate (width - count) 0) (bits_of_bytes bytes.old) }
{
    copy(bytes, BitIndex::new(at), from, BitIndex::new(start), count);
    repeat(bytes, at + count, width - count, false);
}
