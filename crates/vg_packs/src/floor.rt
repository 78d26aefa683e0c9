//! Numbers below which a plan needs no look when a pack is tried after it.

ghost use Rattle.std.specs.Prelude.{◌≡◌, ◌<◌, ◌≤◌, ◌⊎◌, IfOk, false, get_or, length};
ghost use Rattle.std.specs.List.{filter_map};
ghost use Rattle.vg_shapes.specs.Pack.{units_of};
ghost use Rattle.vg_packs.specs.Floor.{IsHighest, IsLowest};

use crate::marks::is_marked;
use std::alloc::{AllocError, Global};
use vg_shapes::Pack;

fn copied(alloc: Global, units: &[u32]) -> Result<Vec<u32>, AllocError>
    ensures { IfOk result (λ all. all.items ≡ units.now) }
{
    let mut all = Vec::new(alloc);
    all.extend_from_slice(units)?;
    Ok(all)
}

fn values_in(alloc: Global, lanes: &[Option<u32>]) -> Result<Vec<u32>, AllocError>
    ensures { IfOk result (λ values. values.items ≡ filter_map (λ v. v) lanes.now) }
{
    lanes.iter().filter_map(|lane| *lane).collect(alloc)
}

/// The numbers of the units of a pack, lane 0 first; lanes of a call that have none are left out.
pub(crate) fn units_in(alloc: Global, pack: &Pack) -> Result<Vec<u32>, AllocError>
    ensures { IfOk result (λ units. units.items ≡ units_of pack.now) }
{
    match pack {
        Pack::Stores(units) => copied(alloc, units.as_slice()),
        Pack::Loads(units) => copied(alloc, units.as_slice()),
        Pack::Call { lanes, .. } => values_in(alloc, lanes.as_slice()),
    }
}

fn lesser(a: u32, b: u32) -> u32
    ensures left { result ≤ a }
    ensures right { result ≤ b }
{
    if a < b { a } else { b }
}

fn greater(a: u32, b: u32) -> u32
    ensures left { a ≤ result }
    ensures right { b ≤ result }
{
    if a < b { b } else { a }
}

/// The least of numbers, or the greatest `u32` where there are none.
pub(crate) fn least_of(numbers: &[u32]) -> u32
    ensures { IsLowest result numbers.now }
{
    let mut least = u32::MAX;
    'numbers: for number in numbers {
        least = lesser(least, *number);
    }
    least
}

/// The greatest of a number and of those in a list.
pub(crate) fn greatest_of(first: u32, numbers: &[u32]) -> u32
    ensures first { first ≤ result }
    ensures all { IsHighest result numbers.now }
{
    let mut greatest = first;
    'numbers: for number in numbers {
        greatest = greater(greatest, *number);
    }
    greatest
}

// A number that has a mark, or 0.
fn inside(from: u32, count: usize) -> u32
    ensures below { result ≤ from }
    ensures inside { (result ≡ 0) ⊎ (result < count) }
{
    if (from as usize) < count {
        from
    } else if count == 0 {
        0
    } else if count <= u32::MAX as usize {
        (count - 1) as u32
    } else {
        0
    }
}

/// The greatest number up to one that is not marked, or 0.
pub(crate) fn floor_under(spanned: &[bool], from: u32) -> u32
    ensures below { result ≤ from }
    ensures there { (result ≡ 0) ⊎ (result < length spanned.now × (get_or spanned.now result false ≡
        false)) }
{
    let mut floor = inside(from, spanned.len());
    'down: while floor > 0 {
        let marked = is_marked(spanned, floor);
        if !marked {
            return floor;
        }
        floor -= 1;
    }
    floor
}

/// The greatest number up to the least unit of a pack that is not marked, or 0.
pub(crate) fn floor_below(alloc: Global, spanned: &[bool], pack: &Pack) -> Result<u32, AllocError>
    ensures lowest { IfOk result (λ floor. IsLowest floor (units_of pack.now)) }
    ensures there { IfOk result (λ floor. (floor ≡ 0) ⊎ (floor < length spanned.now × (get_or
        spanned.now floor false ≡ false))) }
{
    let units = units_in(alloc, pack)?;
    let least = least_of(units.as_slice());
    Ok(floor_under(spanned, least))
}
