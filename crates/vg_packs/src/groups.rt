//! Store groups.

ghost use Rattle.std.specs.Prelude.{◌≡◌, ◌++◌, ◌/◌, IfOk, OnOk, Some};
ghost use Rattle.vg_base.specs.Width.{size_of};
ghost use Rattle.vg_kernel_plans.specs.Groups.{store_groups};
ghost use Rattle.vg_packs.specs.Placed.{group_from, groups_among, run_from};

use crate::placed::{Link, link_behind, links_of, placed_stores};
use std::alloc::{AllocError, Global};
use vg_base::Width;
use vg_shapes::{Lanes, Pack, Ssa};

/// How many integers of a width stand in so many bytes.
fn places(size: usize, width: Width) -> usize
    ensures { result ≡ size / size_of width }
{
    match width {
        Width::W8 => size,
        Width::W16 => size / 2,
        Width::W32 => size / 4,
        Width::W64 => size / 8,
    }
}

/// The units of the stores from one on, each linked by the one before, at most so many.
pub(crate) fn run_from(
    alloc: Global,
    links: &[Link],
    first: Link,
    count: usize,
) -> Result<Vec<u32>, AllocError>
    ensures { IfOk result (λ units. units.items ≡ run_from links.now count (Some first)) }
{
    let mut units = Vec::new(alloc);
    let mut at = Some(first);
    let mut left = count;
    'places: while left > 0 {
        match at {
            None => return Ok(units),
            Some(link) => {
                units.push(link.unit)?;
                at = link_behind(links, link.next);
                left -= 1;
            }
        }
    }
    Ok(units)
}

/// Appends the group of so many stores that a store begins, if there is one.
fn push_group(
    alloc: Global,
    groups: &mut Vec<Pack>,
    links: &[Link],
    first: Link,
    count: usize,
) -> Result<(), AllocError>
    ensures { OnOk result (groups.new.items ≡ groups.old.items ++ group_from links.now count
        first) }
{
    if count >= 2 {
        let units = run_from(alloc, links, first, count)?;
        if units.len() == count {
            let lanes = Lanes::from_slice(alloc, units.as_slice())?;
            groups.push(Pack::Stores(lanes))?;
        }
    }
    Ok(())
}

/// Appends the groups of so many bytes.
fn push_groups(
    alloc: Global,
    groups: &mut Vec<Pack>,
    links: &[Link],
    size: usize,
) -> Result<(), AllocError>
    ensures { OnOk result (groups.new.items ≡ groups.old.items ++ groups_among links.now size) }
{
    'links: for link in links {
        push_group(alloc, groups, links, *link, places(size, link.width))?;
    }
    Ok(())
}

/// The store groups of a kernel, by falling size in bytes, those of one size by rising first unit: stores
/// that are consecutive in memory, of 4 to 64 bytes, each with as many before it to its own place.
/// Takes time by the square of the number of stores.
pub fn store_groups(alloc: Global, ssa: &Ssa) -> Result<Vec<Pack>, AllocError>
    ensures { IfOk result (λ groups. groups.items ≡ store_groups ssa.now) }
{
    let stores = placed_stores(alloc, ssa)?;
    let links = links_of(alloc, stores.as_slice())?;
    let links = links.as_slice();
    let mut groups = Vec::new(alloc);
    push_groups(alloc, &mut groups, links, 64)?;
    push_groups(alloc, &mut groups, links, 32)?;
    push_groups(alloc, &mut groups, links, 16)?;
    push_groups(alloc, &mut groups, links, 8)?;
    push_groups(alloc, &mut groups, links, 4)?;
    Ok(groups)
}
