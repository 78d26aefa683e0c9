//! The stores of a kernel by their places in memory.

ghost use Rattle.std.specs.Prelude.{◌≡◌, ◌++◌, ◌/◌, IfOk, OnOk, filter, length, map, position, Option};
ghost use Rattle.vg_kernel_plans.specs.LoadTable.{place};
ghost use Rattle.vg_shapes.specs.Units.{arguments, unit_at};
ghost use Rattle.vg_packs.specs.Aligned.{is_ahead};
ghost use Rattle.vg_packs.specs.Placed.{is_next, is_ranked, link_behind, link_in, links_of, placed, placed_here, stands_at};

use std::alloc::{AllocError, Global};
use vg_base::{Address, Width};
use vg_kernel_plans::units::unit_at;
use vg_shapes::{Ssa, SsaUnit};

/// The greatest number of integer parameters, and of units, of a kernel whose stores are placed.
const MOST: usize = 1 << 24;

/// A store, where it stores, and how many stores of its width to its place stand before it.
#[derive(Clone, Copy)]
pub(crate) struct PlacedStore {
    /// The number of its unit.
    pub unit: u32,
    pub address: Address,
    pub width: Width,
    pub rank: usize,
}

/// A store, and the one of the same width and rank at the place after it, by its index among stores.
#[derive(Clone, Copy)]
pub(crate) struct Link {
    /// The number of its unit.
    pub unit: u32,
    pub width: Width,
    pub next: Option<usize>,
}

impl PlacedStore {
    /// Whether it is a store of this width to this place.
    fn stands_at(&self, address: Address, width: Width) -> bool
        ensures { result ≡ stands_at address width self.now }
    {
        self.address.pointer == address.pointer
            && (self.address.offset == address.offset && self.width.bits() == width.bits())
    }

    /// Whether it is a store of this width and rank to this place of a pointer.
    fn is_ranked(&self, pointer: u32, offset: i64, width: Width, rank: usize) -> bool
        ensures { result ≡ is_ranked (place pointer offset) width rank self.now }
    {
        self.rank == rank
            && (self.address.pointer == pointer
                && (i64::from(self.address.offset) == offset && self.width.bits() == width.bits()))
    }

    /// Whether another store has its width and rank and stands right after it in memory.
    fn is_next(&self, other: &PlacedStore) -> bool
        ensures { result ≡ is_next self.now other.now }
    {
        let behind = i64::from(self.address.offset) + i64::from(self.width.size());
        other.is_ranked(self.address.pointer, behind, self.width, self.rank)
    }

    /// Whether another store has its width and rank and stands right ahead of it in memory.
    pub(crate) fn is_ahead(&self, other: &PlacedStore) -> bool
        ensures { result ≡ is_ahead self.now other.now }
    {
        let ahead = i64::from(self.address.offset) - i64::from(self.width.size());
        other.is_ranked(self.address.pointer, ahead, self.width, self.rank)
    }
}

fn count_at(stores: &[PlacedStore], address: Address, width: Width) -> usize
    ensures { result ≡ length (filter (stands_at address width) stores.now) }
{
    stores
        .iter()
        .filter(|s| s.stands_at(address, width))
        .count()
}

/// Appends a unit that is a store, with the number of those that stand before it at its place.
fn push_store(
    stores: &mut Vec<PlacedStore>,
    number: u32,
    unit: Option<SsaUnit>,
) -> Result<(), AllocError>
    ensures { OnOk result (stores.new.items ≡ stores.old.items ++ placed_here stores.old.items
        number unit) }
{
    match unit {
        None => Ok(()),
        Some(SsaUnit::Load { .. }) => Ok(()),
        Some(SsaUnit::Operation { .. }) => Ok(()),
        Some(SsaUnit::Store { address, width, .. }) => {
            let rank = count_at(stores.as_slice(), address, width);
            stores.push(PlacedStore {
                unit: number,
                address,
                width,
                rank,
            })?;
            Ok(())
        }
    }
}

/// The stores of a kernel, in order. Takes one look at two stores each.
pub(crate) fn placed_stores(alloc: Global, ssa: &Ssa) -> Result<Vec<PlacedStore>, AllocError>
    ensures { IfOk result (λ stores. stores.items ≡ placed ssa.now) }
{
    let first = ssa.arguments();
    let count = ssa.units.as_slice().len();
    if first > MOST || count > MOST {
        return Err(AllocError);
    }
    let mut stores = Vec::new(alloc);
    'units: for index in 0..count {
        let number = (first + index) as u32;
        push_store(&mut stores, number, unit_at(ssa, number))?;
    }
    Ok(stores)
}

fn next_of(stores: &[PlacedStore], store: &PlacedStore) -> Option<usize>
    ensures { result ≡ position (is_next store.now) stores.now }
{
    stores.iter().position(|s| store.is_next(s))
}

fn link_in(stores: &[PlacedStore], store: &PlacedStore) -> Link
    ensures { result ≡ link_in stores.now store.now }
{
    Link {
        unit: store.unit,
        width: store.width,
        next: next_of(stores, store),
    }
}

/// Stores with those that stand right after them. Takes one look at two stores each.
pub(crate) fn links_of(alloc: Global, stores: &[PlacedStore]) -> Result<Vec<Link>, AllocError>
    ensures { IfOk result (λ links. links.items ≡ links_of stores.now) }
{
    stores.iter().map(|s| link_in(stores, s)).collect(alloc)
}

/// The store after one, if there is one.
pub(crate) fn link_behind(links: &[Link], next: Option<usize>) -> Option<Link>
    ensures { result ≡ link_behind links.now next }
{
    match next {
        None => None,
        Some(index) => links.get(index).copied(),
    }
}
