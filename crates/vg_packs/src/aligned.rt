//! Aligned store groups.

ghost use Rattle.std.specs.Prelude.{◌≡◌, ◌<◌, ◌*◌, ◌%◌, IfOk, filter, find, length, nat_eq, position};
ghost use Rattle.vg_base.specs.Width.{size_of};
ghost use Rattle.vg_kernel_plans.specs.Fed.{groups_by};
ghost use Rattle.vg_kernel_plans.specs.Groups.{aligned_groups};
ghost use Rattle.vg_packs.specs.Aligned.{ahead_in, aheads_of, are_aligned, count_ahead, is_ahead, is_aligned_by, is_pack_aligned};
ghost use Rattle.vg_packs.specs.Placed.{placed};

use crate::groups::{run_from, store_groups};
use crate::placed::{Link, PlacedStore, link_behind, placed_stores};
use std::alloc::{AllocError, Global};
use vg_base::Width;
use vg_kernel_plans::Choice;
use vg_kernel_plans::units::first_width;
use vg_shapes::{Pack, Ssa};

fn place_ahead(stores: &[PlacedStore], store: &PlacedStore) -> Option<usize>
    ensures { result ≡ position (is_ahead store.now) stores.now }
{
    stores.iter().position(|s| store.is_ahead(s))
}

fn link_ahead(stores: &[PlacedStore], store: &PlacedStore) -> Link
    ensures { result ≡ ahead_in stores.now store.now }
{
    Link {
        unit: store.unit,
        width: store.width,
        next: place_ahead(stores, store),
    }
}

/// Stores with those that stand right ahead of them. Takes one look at two stores each.
fn links_ahead(alloc: Global, stores: &[PlacedStore]) -> Result<Vec<Link>, AllocError>
    ensures { IfOk result (λ links. links.items ≡ aheads_of stores.now) }
{
    stores.iter().map(|s| link_ahead(stores, s)).collect(alloc)
}

/// How many stores stand beside each other right ahead of one, counted to at most so many.
fn count_ahead(alloc: Global, links: &[Link], store: Link, most: usize) -> Result<usize, AllocError>
    ensures { IfOk result (λ count. count ≡ count_ahead links.now most store) }
{
    match link_behind(links, store.next) {
        None => Ok(0),
        Some(first) => {
            let units = run_from(alloc, links, first, most)?;
            Ok(units.len())
        }
    }
}

fn find_link(links: &[Link], unit: u32) -> Option<Link>
    ensures { result ≡ find (λ l. nat_eq l.unit unit) links.now }
{
    links.iter().find(|l| l.unit == unit).copied()
}

/// Whether so many integers of a width are a multiple of so many bytes.
fn is_multiple(count: usize, width: Width, bytes: u128) -> bool
    requires { 0 < bytes }
    ensures { result ≡ nat_eq ((count * size_of width) % bytes) 0 }
{
    count as u128 * u128::from(width.size()) % bytes == 0
}

/// Whether a store stands a multiple of so many bytes after the first of its run.
fn is_aligned_by(
    alloc: Global,
    links: &[Link],
    most: usize,
    bytes: u128,
    unit: u32,
) -> Result<bool, AllocError>
    requires { 0 < bytes }
    ensures { IfOk result (λ b. b ≡ is_aligned_by links.now most bytes unit) }
{
    match find_link(links, unit) {
        None => Ok(false),
        Some(link) => {
            let count = count_ahead(alloc, links, link, most)?;
            Ok(is_multiple(count, link.width, bytes))
        }
    }
}

/// Whether the first of stores stands a multiple of their size after the first of its run.
fn are_aligned(alloc: Global, ssa: &Ssa, links: &[Link], units: &[u32]) -> Result<bool, AllocError>
    requires { links.now ≡ aheads_of (placed ssa.now) }
    ensures { IfOk result (λ b. b ≡ are_aligned ssa.now links.now units.now) }
{
    let most = ssa.units.as_slice().len();
    let bytes = units.len() as u128 * u128::from(first_width(ssa, units)) / 8;
    if bytes == 0 {
        return Ok(false);
    }
    match units.first() {
        None => Ok(false),
        Some(first) => is_aligned_by(alloc, links, most, bytes, *first),
    }
}

fn is_aligned(alloc: Global, ssa: &Ssa, links: &[Link], pack: &Pack) -> Result<bool, AllocError>
    requires { links.now ≡ aheads_of (placed ssa.now) }
    ensures { IfOk result (λ b. b ≡ is_pack_aligned ssa.now links.now pack.now) }
{
    match pack {
        Pack::Stores(units) => are_aligned(alloc, ssa, links, units.as_slice()),
        Pack::Loads(_) => Ok(false),
        Pack::Call { .. } => Ok(false),
    }
}

/// Those of groups that are aligned.
fn aligned_among(
    alloc: Global,
    ssa: &Ssa,
    links: &[Link],
    groups: Vec<Pack>,
) -> Result<Vec<Pack>, AllocError>
    requires { links.now ≡ aheads_of (placed ssa.now) }
    ensures { IfOk result (λ aligned. aligned.items ≡ filter (is_pack_aligned ssa.now links.now)
        groups.items) }
{
    let mut aligned = Vec::new(alloc);
    'groups: for group in groups {
        let stands = is_aligned(alloc, ssa, links, &group)?;
        if stands {
            aligned.push(group)?;
        }
    }
    Ok(aligned)
}

/// The store groups of a kernel that stand a multiple of their size after the first of their run: of the
/// stores of one pointer, width and rank beside each other. They are by falling size in bytes, those of one
/// size by rising first unit. Takes time by the square of the number of stores.
pub fn aligned_groups(alloc: Global, ssa: &Ssa) -> Result<Vec<Pack>, AllocError>
    ensures { IfOk result (λ groups. groups.items ≡ aligned_groups ssa.now) }
{
    let stores = placed_stores(alloc, ssa)?;
    let links = links_ahead(alloc, stores.as_slice())?;
    let groups = store_groups(alloc, ssa)?;
    let aligned = aligned_among(alloc, ssa, links.as_slice(), groups)?;
    Ok(aligned)
}

/// The store groups that are tried.
pub fn groups_by(alloc: Global, choice: Choice, ssa: &Ssa) -> Result<Vec<Pack>, AllocError>
    ensures { IfOk result (λ groups. groups.items ≡ groups_by choice ssa.now) }
{
    if choice.aligned {
        aligned_groups(alloc, ssa)
    } else {
        store_groups(alloc, ssa)
    }
}
