//! Sets of pack numbers, as rising lists.

ghost use Rattle.std.specs.Prelude.{◌≡◌, IfOk, nat_le, slice_get};
ghost use Rattle.std.specs.List.{position};
ghost use Rattle.vg_beam.specs.Key.{first_place, is_number, with_number};

use std::alloc::{AllocError, Global};

/// The first place at which a list is not below a number, if there is one.
fn find_place(key: &[u32], number: u32) -> Option<usize>
    ensures { result ≡ position (λ x. nat_le number x) key.now }
{
    key.iter().position(|x| number <= *x)
}

/// The first place at which a list is not below a number, or the length of the list.
fn place_of(key: &[u32], number: u32) -> usize
    ensures { result ≡ first_place (λ x. nat_le number x) key.now }
{
    find_place(key, number).unwrap_or(key.len())
}

/// Whether a number stands at a place.
fn is_at(key: &[u32], place: usize, number: u32) -> bool
    ensures { result ≡ is_number number (slice_get key.now place) }
{
    match key.get(place) {
        None => false,
        Some(x) => *x == number,
    }
}

/// The numbers of a rising list and one more, rising. A number that is there stays there once.
pub(crate) fn with_number(alloc: Global, key: &[u32], number: u32) -> Result<Vec<u32>, AllocError>
    ensures { IfOk result (λ longer. longer.items ≡ with_number number key.now) }
{
    let place = place_of(key, number);
    if is_at(key, place, number) {
        let same = key.to_vec(alloc)?;
        return Ok(same);
    }
    let (below, above) = key.split_at(place);
    let mut longer = Vec::with_capacity(alloc, key.len() + 1)?;
    longer.extend_from_slice(below)?;
    longer.push(number)?;
    longer.extend_from_slice(above)?;
    Ok(longer)
}
