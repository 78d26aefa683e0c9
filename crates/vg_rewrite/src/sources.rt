//! Loads, and extensions of loads.

ghost use Rattle.std.specs.Prelude.{◌≡◌};
ghost use Rattle.vg_rewrite.specs.Repeated.{extended_by, load_of, loaded_at, loaded_by, source_by, source_of};
ghost use Rattle.vg_shapes.specs.Units.{unit_at};

use vg_scalar::Resize;
use vg_shapes::{Operator, Ssa, SsaUnit, Wanted};

/// The unit of a number, if it is that of one: the integer parameters stand before the units.
pub(crate) fn unit_at(ssa: &Ssa, value: u32) -> Option<SsaUnit>
    ensures { result ≡ unit_at ssa.now value }
{
    let first = ssa.arguments();
    let value = value as usize;
    if value < first {
        None
    } else {
        ssa.units.as_slice().get(value - first).copied()
    }
}

fn load_of(unit: Option<SsaUnit>, value: u32) -> Option<u32>
    ensures { result ≡ load_of unit value }
{
    match unit {
        None => None,
        Some(SsaUnit::Load { .. }) => Some(value),
        Some(SsaUnit::Store { .. }) => None,
        Some(SsaUnit::Operation { .. }) => None,
    }
}

fn loaded_by(ssa: &Ssa, x: Wanted) -> Option<u32>
    ensures { result ≡ loaded_by ssa.now x }
{
    match x {
        Wanted::Value(value) => load_of(unit_at(ssa, value), value),
        Wanted::Constant { .. } => None,
        Wanted::Nothing => None,
    }
}

fn extended_by(ssa: &Ssa, op: Resize, x: Wanted) -> Option<u32>
    ensures { result ≡ extended_by ssa.now op x }
{
    match op {
        Resize::Sext => loaded_by(ssa, x),
        Resize::Zext => loaded_by(ssa, x),
        Resize::Trunc => None,
    }
}

// The load that a unit of this number is, or extends.
fn source_by(ssa: &Ssa, value: u32, unit: SsaUnit) -> Option<u32>
    ensures { result ≡ source_by ssa.now value unit }
{
    match unit {
        SsaUnit::Load { .. } => Some(value),
        SsaUnit::Store { .. } => None,
        SsaUnit::Operation { op, operands, .. } => match op {
            Operator::Two(_) => None,
            Operator::Shift(_) => None,
            Operator::Resize { op, .. } => extended_by(ssa, op, operands.first),
            Operator::Compare(_) => None,
            Operator::Select => None,
        },
    }
}

/// The load that the unit of a number is, or extends.
pub(crate) fn source_of(ssa: &Ssa, value: u32) -> Option<u32>
    ensures { result ≡ source_of ssa.now value }
{
    match unit_at(ssa, value) {
        None => None,
        Some(unit) => source_by(ssa, value, unit),
    }
}
