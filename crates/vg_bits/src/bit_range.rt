//! Ranges of the bits of a list of bytes, byte by byte.

ghost use Rattle.std.specs.Prelude.{◌≡◌, ◌+◌, ◌*◌, ◌/◌, ◌%◌, ◌^◌, ◌<◌, ◌≤◌, length};
ghost use Rattle.vg_base.specs.Bits.{bits, num, bits_of_bytes};
ghost use Rattle.vg_bits.specs.BitIndex.{place_of};
ghost use Rattle.vg_bits.specs.Range.{range, replaced};

use crate::bit_index::BitIndex;
use vg_base::number::low_bits;

// The bits of a byte from `shift` on, as many as `count`.
fn bits_in(byte: u8, shift: usize, count: usize) -> u128
    requires { shift + count ≤ 8 }
    ensures { result ≡ byte / 2 ^ shift % 2 ^ count }
{
    low_bits(u128::from(byte) >> shift, count as u32)
}

// The byte with the lowest bits of `new`, as many as `count`, from `shift` on.
fn with_bits(byte: u8, shift: usize, count: usize, new: u8) -> u8
    requires { shift + count ≤ 8 }
    ensures { bits 8 result ≡ replaced shift (bits count new) (bits 8 byte) }
{
    if count == 8 {
        return new;
    }
    let byte = u128::from(byte);
    let upper = byte >> (shift + count);
    let middle = (upper << count) | low_bits(u128::from(new), count as u32);
    ((middle << shift) | low_bits(byte, shift as u32)) as u8
}

/// The number of the bits from `start` on, as many as the width.
pub fn read(bytes: &[u8], start: BitIndex, width: usize) -> u128
    requires inside { place_of start + width ≤ 8 * length bytes.now }
    requires narrow { width ≤ 128 }
    ensures { result ≡ num (range (place_of start) width (bits_of_bytes bytes.now)) }
{
    let mut byte = start.byte;
    let mut bit = start.bit;
    let mut done = 0;
    let mut value = 0;
    'pieces: while done < width {
        let count = (8 - bit).min(width - done);
        let piece = bits_in(bytes[byte], bit, count);
        value |= piece << done;
        done += count;
        byte += 1;
        bit = 0;
    }
    value
}

/// Puts the lowest bits of the value, as many as the width, in the place of those from `start` on.
pub fn write(bytes: &mut [u8], start: BitIndex, width: usize, value: u128)
    requires inside { place_of start + width ≤ 8 * length bytes.old }
    requires narrow { width ≤ 128 }
    ensures { bits_of_bytes bytes.new
        ≡ replaced (place_of start) (bits width value) (bits_of_bytes bytes.old) }
{
    let mut byte = start.byte;
    let mut bit = start.bit;
    let mut done = 0;
    'pieces: while done < width {
        let count = (8 - bit).min(width - done);
        let piece = low_bits(value >> done, 8) as u8;
        bytes[byte] = with_bits(bytes[byte], bit, count, piece);
        done += count;
        byte += 1;
        bit = 0;
    }
}

// Copies whole bytes.
fn copy_bytes(to: &mut [u8], at: usize, from: &[u8], from_at: usize, count: usize)
    requires to_inside { at + count ≤ length to.old }
    requires from_inside { from_at + count ≤ length from.now }
    ensures { to.new ≡ replaced at (range from_at count from.now) to.old }
{
    to[at..at + count].copy_from_slice(&from[from_at..from_at + count]);
}

// Copies the first bits of the width by whole bytes, less than 128 of them left. Answers how many
// bytes: all that are whole where both places begin a byte, else a multiple of 16.
fn copy_most(
    to: &mut [u8],
    start: BitIndex,
    from: &[u8],
    from_start: BitIndex,
    width: usize,
) -> usize
    requires to_inside { place_of start + width ≤ 8 * length to.old }
    requires from_inside { place_of from_start + width ≤ 8 * length from.now }
    ensures within { 8 * result ≤ width }
    ensures most { width < 8 * result + 128 }
    ensures moved { bits_of_bytes to.new ≡ replaced (place_of start)
        (range (place_of from_start) (8 * result) (bits_of_bytes from.now)) (bits_of_bytes to.old) }
{
    if start.bit == 0 && from_start.bit == 0 {
        copy_bytes(to, start.byte, from, from_start.byte, width / 8);
        return width / 8;
    }
    'chunks: for chunk in 0..width / 128 {
        let value = read(from, from_start.skip(16 * chunk), 128);
        write(to, start.skip(16 * chunk), 128, value);
    }
    16 * (width / 128)
}

/// Puts the bits of `from` from `from_start` on, as many as the width, in the place of those of `to`
/// from `start` on.
pub fn copy(to: &mut [u8], start: BitIndex, from: &[u8], from_start: BitIndex, width: usize)
    requires to_inside { place_of start + width ≤ 8 * length to.old }
    requires from_inside { place_of from_start + width ≤ 8 * length from.now }
    ensures { bits_of_bytes to.new ≡ replaced (place_of start)
        (range (place_of from_start) width (bits_of_bytes from.now)) (bits_of_bytes to.old) }
{
    let done = copy_most(to, start, from, from_start, width);
    let rest = width - 8 * done;
    let value = read(from, from_start.skip(done), rest);
    write(to, start.skip(done), rest, value);
}
