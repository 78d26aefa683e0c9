//! Runs of loads that stand beside each other in memory.

ghost use Rattle.std.specs.Prelude.{◌≡◌, IfOk, filter};
ghost use Rattle.vg_base.specs.Width.{bits_of};
ghost use Rattle.vg_plans.specs.Levels.{sort_by};
ghost use Rattle.vg_kernel_plans.specs.LoadGroups.{above_least, begins_run, run_begins, run_of};

use crate::first_loads::{PlacedLoad, find_load, has_load};
use std::alloc::{AllocError, Global};

/// Whether no load stands right ahead of one.
fn begins_run(loads: &[PlacedLoad], load: &PlacedLoad) -> bool
    ensures { result ≡ begins_run loads.now load.now }
{
    let ahead = i64::from(load.address.offset) - i64::from(load.width.size());
    !has_load(loads, load.address.pointer, ahead, load.width)
}

/// The loads that begin runs, as they stand.
fn beginnings(alloc: Global, loads: &[PlacedLoad]) -> Result<Vec<PlacedLoad>, AllocError>
    ensures { IfOk result (λ found. found.items ≡ filter (begins_run loads.now) loads.now) }
{
    loads
        .iter()
        .filter(|l| begins_run(loads, l))
        .copied()
        .collect(alloc)
}

/// How far an offset is from the least one that can be written.
fn above_least(offset: i32) -> u32
    ensures { result ≡ above_least offset }
{
    (i64::from(offset) + 2147483648) as u32
}

fn by_offset(mut loads: Vec<PlacedLoad>) -> Result<Vec<PlacedLoad>, AllocError>
    ensures { IfOk result (λ sorted. sorted.items ≡ sort_by (λ l. above_least l.address.offset)
        loads.items) }
{
    loads.sort_by_key(|l| above_least(l.address.offset))?;
    Ok(loads)
}

fn by_width(mut loads: Vec<PlacedLoad>) -> Result<Vec<PlacedLoad>, AllocError>
    ensures { IfOk result (λ sorted. sorted.items ≡ sort_by (λ l. bits_of l.width) loads.items) }
{
    loads.sort_by_key(|l| l.width.bits())?;
    Ok(loads)
}

fn by_pointer(mut loads: Vec<PlacedLoad>) -> Result<Vec<PlacedLoad>, AllocError>
    ensures { IfOk result (λ sorted. sorted.items ≡ sort_by (λ l. l.address.pointer) loads.items) }
{
    loads.sort_by_key(|l| l.address.pointer)?;
    Ok(loads)
}

/// The loads that begin runs: by pointer, of one pointer by width, and of one width by offset, each
/// rising.
pub(crate) fn run_begins(alloc: Global, loads: &[PlacedLoad]) -> Result<Vec<PlacedLoad>, AllocError>
    ensures { IfOk result (λ begins. begins.items ≡ run_begins loads.now) }
{
    let found = beginnings(alloc, loads)?;
    let rising = by_offset(found)?;
    let parted = by_width(rising)?;
    by_pointer(parted)
}

/// The units of the run that a load begins.
pub(crate) fn run_of(
    alloc: Global,
    loads: &[PlacedLoad],
    first: &PlacedLoad,
) -> Result<Vec<u32>, AllocError>
    ensures { IfOk result (λ units. units.items ≡ run_of loads.now first.now) }
{
    let step = i64::from(first.width.size());
    let mut units = Vec::new(alloc);
    let mut offset = i64::from(first.address.offset);
    let mut left = loads.len();
    'places: while left > 0 {
        match find_load(loads, first.address.pointer, offset, first.width) {
            None => return Ok(units),
            Some(load) => {
                units.push(load.unit)?;
                offset = i64::from(load.address.offset) + step;
                left -= 1;
            }
        }
    }
    Ok(units)
}
