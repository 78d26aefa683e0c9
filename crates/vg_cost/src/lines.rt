//! The units and extracts that are written as scalars.

ghost use Rattle.std.specs.Prelude.{◌≡◌, ◌+◌, ◌<◌, ℕ, [], ◌∷◌, IfOk, filter, filter_map, flat_map, get_or, false, is_some, length};
ghost use Rattle.vg_cost.specs.Lines.{Lines, is_written, line_of, values_of};
ghost use Rattle.vg_cost.specs.Marks.{Has, Marked};
ghost use Rattle.vg_kernel_plans.specs.Packing.{falling_units, packing, used_by};
ghost use Rattle.vg_kernel_plans.specs.Wants.{value_of};
ghost use Rattle.vg_plans.specs.World.{scalar_lines};
ghost use Rattle.vg_shapes.specs.Pack.{units_of};
ghost use Rattle.vg_shapes.specs.Units.{arguments, unit_at};

use crate::marks::{mark, packed_marks, value_marks};
use crate::price::plus;
use std::alloc::{AllocError, Global};
use vg_kernel_plans::wants::value_of;
use vg_shapes::{Operands, Pack, Ssa, SsaUnit, Wanted};

/// Marks a value, if one is wanted.
pub(crate) fn mark_wanted(needed: &mut [bool], wanted: Wanted)
    ensures { Marked (filter_map value_of (wanted ∷ [])) needed.old needed.new }
{
    match value_of(wanted) {
        None => {}
        Some(value) => mark(needed, value),
    }
}

/// Marks the values among operands.
fn mark_operands(needed: &mut [bool], operands: &Operands)
    ensures { Marked (filter_map value_of (operands.now.first ∷ operands.now.second
        ∷ operands.now.third ∷ [])) needed.old needed.new }
{
    mark_wanted(needed, operands.first);
    mark_wanted(needed, operands.second);
    mark_wanted(needed, operands.third);
}

/// Marks the values that a unit uses.
fn mark_used(needed: &mut [bool], unit: &SsaUnit)
    ensures { Marked (used_by (Some unit.now)) needed.old needed.new }
{
    match unit {
        SsaUnit::Load { .. } => {}
        SsaUnit::Store { value, .. } => mark_wanted(needed, *value),
        SsaUnit::Operation { operands, .. } => mark_operands(needed, operands),
    }
}

/// Whether a unit that is in no pack is emitted: it is an access, or its value is needed.
pub(crate) fn is_written(unit: &SsaUnit, packed: bool, needed: bool) -> bool
    ensures { result ≡ is_written unit.now packed needed }
{
    !packed && (unit.access().is_some() || needed)
}

/// The lines of a unit: 1 where it is emitted or its value is extracted, else 0. Marks what it uses
/// where it is emitted.
fn visit(marks: &mut [bool], unit: &SsaUnit, packed: bool, needed: bool) -> u64
    ensures lines { result ≡ line_of (Some unit.now) packed needed }
    ensures marks { Marked (values_of (Some unit.now) packed needed) marks.old marks.new }
{
    if is_written(unit, packed, needed) {
        mark_used(marks, unit);
        1
    } else if packed && needed {
        1
    } else {
        0
    }
}

/// The lines of the unit of a number, if it is that of one: the units are numbered from `first` on.
fn visit_number(
    marks: &mut [bool],
    ssa: &Ssa,
    first: usize,
    number: u32,
    packed: bool,
    needed: bool,
) -> u64
    requires { first ≡ arguments ssa.now }
    ensures lines { result ≡ line_of (unit_at ssa.now number) packed needed }
    ensures marks { Marked (values_of (unit_at ssa.now number) packed needed) marks.old marks.new }
{
    let number = number as usize;
    if number < first {
        return 0;
    }
    match ssa.units.as_slice().get(number - first) {
        None => 0,
        Some(unit) => visit(marks, unit, packed, needed),
    }
}

/// The lines of the units below a number, from the last down. Marks the values that are needed.
pub(crate) fn lines_below(
    ssa: &Ssa,
    packed: &[bool],
    marks: &mut [bool],
    end: u32,
) -> Result<u64, AllocError>
    requires packed_long { length packed.now ≡ end }
    requires marks_long { length marks.old ≡ end }
    ensures { IfOk result (λ c. Lines ssa.now packed.now marks.old end c) }
{
    let first = ssa.arguments();
    let mut lines = 0u64;
    let mut left = end;
    'units: while left > 0 {
        left -= 1;
        let is_packed = packed[left as usize];
        let is_needed = marks[left as usize];
        let line = visit_number(marks, ssa, first, left, is_packed, is_needed);
        lines = plus(lines, line)?;
    }
    Ok(lines)
}

/// The first number after those of all units, or want of memory where it has more than 32 bits.
pub(crate) fn end_of_units(ssa: &Ssa) -> Result<u32, AllocError>
    ensures { IfOk result (λ end. end ≡ arguments ssa.now + length ssa.now.units) }
{
    let count = ssa.units.as_slice().len();
    match u32::try_from(ssa.arguments().saturating_add(count)) {
        Ok(end) => Ok(end),
        Err(_) => Err(AllocError),
    }
}

/// The units of a kernel that are emitted, and the values of packs that are extracted, where
/// inserts take these values.
pub(crate) fn scalar_lines(
    alloc: Global,
    ssa: &Ssa,
    packs: &[Pack],
    inserted: &[u32],
) -> Result<u64, AllocError>
    ensures { IfOk result (λ c. c ≡ scalar_lines (packing [] [] ssa.now []) packs.now inserted.now
        (falling_units ssa.now)) }
{
    let end = end_of_units(ssa)?;
    let packed = packed_marks(alloc, end as usize, packs)?;
    let mut needed = value_marks(alloc, end as usize, inserted)?;
    lines_below(ssa, packed.as_slice(), needed.as_mut_slice(), end)
}
