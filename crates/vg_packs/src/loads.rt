//! Loads that are consecutive in memory.

ghost use Rattle.std.specs.Prelude.{◌≡◌, ◌<◌, ◌^◌, IfOk, length};
ghost use Rattle.vg_kernel_plans.specs.Producers.{are_beside, are_loads, begin_loads, loads_from};
ghost use Rattle.vg_shapes.specs.Pack.{behind, is_pack_size};
ghost use Rattle.vg_packs.specs.Making.{are_wanted_loads};

use crate::lanes::are_lanes;
use std::alloc::{AllocError, Global};
use vg_base::{Address, Width};
use vg_kernel_plans::lane::some_lanes;
use vg_kernel_plans::units::{first_width, register_for, unit_at};
use vg_shapes::{Slot, Ssa, SsaUnit};

/// The greatest number of values that an operand may want.
const MOST: usize = 1 << 24;

/// Whether a unit is the load of a width from so many bytes after an address.
fn loads_from(unit: Option<SsaUnit>, first: Address, bytes: u64, width: Width) -> bool
    ensures { result ≡ loads_from (behind first bytes) width unit }
{
    match unit {
        None => false,
        Some(SsaUnit::Store { .. }) => false,
        Some(SsaUnit::Operation { .. }) => false,
        Some(
            SsaUnit::Load {
                address,
                width: loaded,
            },
        ) => {
            address.pointer == first.pointer
                && (i128::from(address.offset) == i128::from(first.offset) + i128::from(bytes)
                    && loaded.bits() == width.bits())
        }
    }
}

/// Whether units are loads of a width that are consecutive in memory, the first from this address.
fn are_loads(ssa: &Ssa, first: Address, width: Width, units: &[u32]) -> bool
    requires { length units.now < 2 ^ 32 }
    ensures { result ≡ are_loads ssa.now first width units.now }
{
    let mut bytes: u64 = 0;
    'units: for unit in units {
        let found = unit_at(ssa, *unit);
        if !loads_from(found, first, bytes, width) {
            return false;
        }
        bytes += u64::from(width.size());
    }
    true
}

/// The same, from where the first of them loads.
fn begin_loads(ssa: &Ssa, first: Option<SsaUnit>, units: &[u32]) -> bool
    requires { length units.now < 2 ^ 32 }
    ensures { result ≡ begin_loads ssa.now first units.now }
{
    match first {
        None => false,
        Some(SsaUnit::Store { .. }) => false,
        Some(SsaUnit::Operation { .. }) => false,
        Some(SsaUnit::Load { address, width }) => are_loads(ssa, address, width, units),
    }
}

/// Whether there are units, and they are loads of one width that are consecutive in memory.
fn are_beside(ssa: &Ssa, units: &[u32]) -> bool
    requires { length units.now < 2 ^ 32 }
    ensures { result ≡ are_beside ssa.now units.now }
{
    match units {
        [] => false,
        [first, ..] => begin_loads(ssa, unit_at(ssa, *first), units),
    }
}

/// Whether a vector line can load or store so many bytes at once.
fn is_pack_size(bytes: u128) -> bool
    ensures { result ≡ is_pack_size bytes }
{
    bytes == 4 || (bytes == 8 || (bytes == 16 || (bytes == 32 || bytes == 64)))
}

/// Whether loads of these units are exactly these slots of a register of this width.
pub(crate) fn are_wanted_loads(
    alloc: Global,
    ssa: &Ssa,
    register: u32,
    slots: &[Slot],
    units: &[u32],
) -> Result<bool, AllocError>
    ensures { IfOk result (λ b. b ≡ are_wanted_loads ssa.now register slots.now units.now) }
{
    if units.len() > MOST {
        return Err(AllocError);
    }
    let width = first_width(ssa, units);
    let lanes = some_lanes(alloc, units)?;
    let lanes = lanes.as_slice();
    let bytes = units.len() as u128 * u128::from(width) / 8;
    Ok(
        is_pack_size(bytes)
            && (register_for(units, width) == register
                && (are_lanes(slots, lanes, width) && are_beside(ssa, units))),
    )
}
