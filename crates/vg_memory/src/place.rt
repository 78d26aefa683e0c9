//! Where accesses begin.

ghost use Rattle.std.specs.Prelude.{◌≡◌, slice_index};
ghost use Rattle.vg_base.specs.Address.{place_of};

use vg_base::Address;

/// The number at an index, or 0 where there is none.
pub fn number_at(numbers: &[u64], index: u32) -> u64
    ensures { result ≡ slice_index numbers.now index }
{
    numbers.get(index as usize).copied().unwrap_or(0)
}

/// Where an access begins, exactly, in bytes from the start of the memory: the place of its pointer
/// and its offset.
pub fn place_of(places: &[u64], address: Address) -> i128
    ensures { result ≡ place_of places.now address }
{
    number_at(places, address.pointer) as i128 + address.offset as i128
}
