//! The loads of a kernel by their places in memory.

ghost use Rattle.std.specs.Prelude.{◌≡◌, ◌∷◌, [], IfOk, OnOk, find};
ghost use Rattle.std.specs.List.{list_any};
ghost use Rattle.vg_plans.specs.Levels.{distinct_onto};
ghost use Rattle.vg_kernel_plans.specs.LoadGroups.{first_loads, loads_at, placed_load, same_place};
ghost use Rattle.vg_kernel_plans.specs.LoadTable.{place};

use crate::units::unit_at;
use std::alloc::{AllocError, Global};
use vg_base::{Address, Width};
use vg_shapes::{Ssa, SsaUnit};

/// The greatest number of integer parameters, and of units, of a kernel whose loads are placed.
const MOST: usize = 1 << 24;

/// A load, and where it loads.
#[derive(Clone, Copy)]
pub(crate) struct PlacedLoad {
    /// The number of its unit.
    pub unit: u32,
    pub address: Address,
    pub width: Width,
}

impl PlacedLoad {
    /// Whether it loads this width from this place of a pointer.
    fn loads_at(&self, pointer: u32, offset: i64, width: Width) -> bool
        ensures { result ≡ loads_at (place pointer offset) width self.now }
    {
        self.address.pointer == pointer
            && (i64::from(self.address.offset) == offset && self.width.bits() == width.bits())
    }

    /// Whether another load loads the same width from the same place.
    fn is_at(&self, other: &PlacedLoad) -> bool
        ensures { result ≡ same_place self.now other.now }
    {
        let offset = i64::from(other.address.offset);
        self.loads_at(other.address.pointer, offset, other.width)
    }
}

/// Whether some load loads this width from this place.
pub(crate) fn has_load(loads: &[PlacedLoad], pointer: u32, offset: i64, width: Width) -> bool
    ensures { result ≡ list_any (loads_at (place pointer offset) width) loads.now }
{
    loads.iter().any(|l| l.loads_at(pointer, offset, width))
}

/// The load of this width from this place, if there is one.
pub(crate) fn find_load(
    loads: &[PlacedLoad],
    pointer: u32,
    offset: i64,
    width: Width,
) -> Option<PlacedLoad>
    ensures { result ≡ find (loads_at (place pointer offset) width) loads.now }
{
    loads
        .iter()
        .find(|l| l.loads_at(pointer, offset, width))
        .copied()
}

fn has_place(loads: &[PlacedLoad], load: &PlacedLoad) -> bool
    ensures { result ≡ list_any (same_place load.now) loads.now }
{
    loads.iter().any(|l| load.is_at(l))
}

/// Appends a load, if none is there from its place.
fn push_new(loads: &mut Vec<PlacedLoad>, load: PlacedLoad) -> Result<(), AllocError>
    ensures { OnOk result (loads.new.items ≡ distinct_onto same_place loads.old.items (load ∷ [])) }
{
    if !has_place(loads.as_slice(), &load) {
        loads.push(load)?;
    }
    Ok(())
}

/// Appends a unit that is a load, if none is there from its place.
fn push_load(
    loads: &mut Vec<PlacedLoad>,
    number: u32,
    unit: Option<SsaUnit>,
) -> Result<(), AllocError>
    ensures { OnOk result (loads.new.items ≡ distinct_onto same_place loads.old.items (placed_load
        number unit)) }
{
    match unit {
        None => Ok(()),
        Some(SsaUnit::Store { .. }) => Ok(()),
        Some(SsaUnit::Operation { .. }) => Ok(()),
        Some(SsaUnit::Load { address, width }) => push_new(
            loads,
            PlacedLoad {
                unit: number,
                address,
                width,
            },
        ),
    }
}

/// The loads of a kernel, of several at one place the first, in order. Takes one look at two loads each.
pub(crate) fn first_loads(alloc: Global, ssa: &Ssa) -> Result<Vec<PlacedLoad>, AllocError>
    ensures { IfOk result (λ loads. loads.items ≡ first_loads ssa.now) }
{
    let first = ssa.arguments();
    let count = ssa.units.as_slice().len();
    if first > MOST || count > MOST {
        return Err(AllocError);
    }
    let mut loads = Vec::new(alloc);
    'units: for index in 0..count {
        let number = (first + index) as u32;
        push_load(&mut loads, number, unit_at(ssa, number))?;
    }
    Ok(loads)
}
