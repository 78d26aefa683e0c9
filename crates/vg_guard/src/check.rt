//! Checks of two ranges of bytes.

ghost use Rattle.std.specs.Prelude.{◌≡◌, ◌+ℤ◌, pos, int_le, slice_index};
ghost use Rattle.vg_guard.specs.Checks.{begin_of, holds, all_hold};

/// Two ranges of bytes after two pointers that have to be apart.
#[derive(Clone, Copy)]
pub struct Check {
    /// The number of a pointer among the pointers, from 0.
    pub first: u32,
    /// The offset of the first byte of its range, -2^31 to 2^31 - 1.
    pub first_low: i64,
    /// How many bytes its range has, 1 to 4,294,967,303.
    pub first_len: u64,
    /// The number of a pointer after the first.
    pub second: u32,
    /// The offset of the first byte of its range, and how many bytes that has.
    pub second_low: i64,
    pub second_len: u64,
}

/// The place of a pointer; where it is missing it is 0.
fn place_of(places: &[u64], pointer: u32) -> u64
    ensures { result ≡ slice_index places.now pointer }
{
    match places.get(pointer as usize) {
        Some(place) => *place,
        None => 0,
    }
}

/// Where a range begins: at so many bytes after the place of its pointer, exactly.
fn begin_of(places: &[u64], pointer: u32, low: i64) -> i128
    ensures { result ≡ begin_of places.now pointer low }
{
    place_of(places, pointer) as i128 + low as i128
}

/// Where a range ends: at the place after its last byte, exactly.
fn end_of(places: &[u64], pointer: u32, low: i64, len: u64) -> i128
    ensures { result ≡ begin_of places.now pointer low +ℤ pos len }
{
    place_of(places, pointer) as i128 + low as i128 + len as i128
}

/// Whether what ends here ends before what begins there, or where it begins.
fn is_before(end: i128, begin: i128) -> bool
    ensures { result ≡ int_le end begin }
{
    end <= begin
}

/// Whether the two ranges of a check are apart.
fn holds(places: &[u64], check: Check) -> bool
    ensures { result ≡ holds places.now check }
{
    is_before(
        end_of(places, check.first, check.first_low, check.first_len),
        begin_of(places, check.second, check.second_low),
    ) || is_before(
        end_of(places, check.second, check.second_low, check.second_len),
        begin_of(places, check.first, check.first_low),
    )
}

/// Whether all checks hold.
pub(crate) fn all_hold(checks: &[Check], places: &[u64]) -> bool
    ensures { result ≡ all_hold places.now checks.now }
{
    checks.iter().all(|check| holds(places, *check))
}
