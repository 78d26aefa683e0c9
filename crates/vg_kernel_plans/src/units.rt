//! Units by their numbers.

ghost use Rattle.std.specs.Prelude.{◌≡◌, length};
ghost use Rattle.vg_shapes.specs.Units.{arguments, unit_at};
ghost use Rattle.vg_kernel_plans.specs.Taken.{first_width, register_for, register_of_bytes, stored, unit_width};

use vg_shapes::{Ssa, SsaUnit, Wanted};

/// The unit of a number, if it is that of one: the integer parameters stand before the units.
pub fn unit_at(ssa: &Ssa, number: u32) -> Option<SsaUnit>
    ensures { result ≡ unit_at ssa.now number }
{
    let first = ssa.arguments();
    let number = number as usize;
    if number < first {
        None
    } else {
        ssa.units.as_slice().get(number - first).copied()
    }
}

/// The width in bits of what a unit loads, stores or makes, or 0 where there is none.
pub fn unit_width(unit: Option<SsaUnit>) -> u32
    ensures { result ≡ unit_width unit }
{
    match unit {
        None => 0,
        Some(SsaUnit::Load { width, .. }) => width.bits(),
        Some(SsaUnit::Store { width, .. }) => width.bits(),
        Some(SsaUnit::Operation { width, .. }) => width.bits(),
    }
}

/// What a store stores; nothing where the unit is no store.
pub fn stored(unit: Option<SsaUnit>) -> Wanted
    ensures { result ≡ stored unit }
{
    match unit {
        None => Wanted::Nothing,
        Some(SsaUnit::Load { .. }) => Wanted::Nothing,
        Some(SsaUnit::Store { value, .. }) => value,
        Some(SsaUnit::Operation { .. }) => Wanted::Nothing,
    }
}

/// The width in bits of the first of units, or 0 where there are none.
pub fn first_width(ssa: &Ssa, units: &[u32]) -> u32
    ensures { result ≡ first_width ssa.now units.now }
{
    match units.first() {
        Some(first) => unit_width(unit_at(ssa, *first)),
        None => 0,
    }
}

/// The width in bits of the register into which so many bytes are loaded.
pub fn register_of_bytes(bytes: u128) -> u32
    ensures { result ≡ register_of_bytes bytes }
{
    if bytes == 64 {
        512
    } else if bytes == 32 {
        256
    } else {
        128
    }
}

/// The width in bits of the register that holds units of this width in bits.
pub fn register_for(units: &[u32], width: u32) -> u32
    ensures { result ≡ register_for units.now width }
{
    register_of_bytes(units.len() as u128 * u128::from(width) / 8)
}
