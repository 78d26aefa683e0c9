//! Which values are needed as scalars.

ghost use Rattle.std.specs.Prelude.{◌≡◌, ◌+◌, length, is_some, IfOk, OnOk};
ghost use Rattle.vg_shapes.specs.Layout.{access_at};
ghost use Rattle.vg_shapes.specs.Sound.{IsSound};
ghost use Rattle.vg_shapes.specs.Units.{arguments};
ghost use Rattle.vg_kernel_plans.specs.Packing.{falling_units, used_by};
ghost use Rattle.vg_emission.specs.Program.{all_inserted, inserted_by, needed_behind};
ghost use Rattle.vg_emit.specs.Marks.{is_marked_scalar, Mark, marked, with_uses, with_uses_below};

use crate::marks::Marks;
use std::alloc::{AllocError, Global};
use vg_kernel_plans::Recipe;
use vg_kernel_plans::units::unit_at;
use vg_kernel_plans::wants::wanted_values;
use vg_shapes::{Operand, Pack, Ssa, SsaUnit};

/// How many numbers values have: one for each integer parameter and each unit.
pub(crate) fn count_values(ssa: &Ssa) -> u32
    requires { IsSound ssa.now }
    ensures { result ≡ arguments ssa.now + length ssa.now.units }
{
    (ssa.arguments() + ssa.units.as_slice().len()) as u32
}

/// Marks the values that a recipe puts into a register.
fn mark_inserted(
    alloc: Global,
    marks: &mut Marks,
    recipe: &Recipe,
    operand: &Operand,
) -> Result<(), AllocError>
    ensures { OnOk result (marks.new ≡ marked marks.old (inserted_by recipe.now operand.now)) }
{
    match recipe {
        Recipe::Reuse(_) => Ok(()),
        Recipe::Constant(_) => Ok(()),
        Recipe::Shuffle { .. } => Ok(()),
        Recipe::Inserts => {
            let values = wanted_values(alloc, operand)?;
            marks.mark_all(values.as_slice());
            Ok(())
        }
    }
}

/// The same of recipes, each of which is that of one of the operands.
fn mark_all_inserted(
    alloc: Global,
    marks: &mut Marks,
    recipes: &[Recipe],
    operands: &[Operand],
) -> Result<(), AllocError>
    ensures { OnOk result (marks.new ≡ marked marks.old (all_inserted recipes.now operands.now)) }
{
    let count = recipes.len().min(operands.len());
    'recipes: for place in 0..count {
        mark_inserted(alloc, marks, &recipes[place], &operands[place])?;
    }
    Ok(())
}

/// Whether a unit loads or stores.
fn is_access(ssa: &Ssa, number: u32) -> bool
    ensures { result ≡ is_some (access_at ssa.now number) }
{
    match unit_at(ssa, number) {
        None => false,
        Some(SsaUnit::Load { .. }) => true,
        Some(SsaUnit::Store { .. }) => true,
        Some(SsaUnit::Operation { .. }) => false,
    }
}

/// Whether a unit is emitted as a scalar: outside all packs, an access or a value that is needed.
fn is_scalar(ssa: &Ssa, packed: &Marks, marks: &Marks, number: u32) -> bool
    ensures { result ≡ is_marked_scalar ssa.now packed.now marks.now number }
{
    !packed.has(number) && (is_access(ssa, number) || marks.has(number))
}

/// Marks the values that a unit uses.
fn mark_used(marks: &mut Marks, unit: Option<SsaUnit>)
    ensures { marks.new ≡ marked marks.old (used_by unit) }
{
    match unit {
        None => {}
        Some(SsaUnit::Load { .. }) => {}
        Some(SsaUnit::Store { value, .. }) => marks.mark_wanted(value),
        Some(SsaUnit::Operation { operands, .. }) => {
            marks.mark_wanted(operands.first);
            marks.mark_wanted(operands.second);
            marks.mark_wanted(operands.third);
        }
    }
}

/// Marks what a unit uses, if it is emitted as a scalar.
fn mark_uses(ssa: &Ssa, packed: &Marks, marks: &mut Marks, number: u32)
    ensures { marks.new ≡ with_uses ssa.now packed.now marks.old number }
{
    let scalar = is_scalar(ssa, packed, marks, number);
    if scalar {
        mark_used(marks, unit_at(ssa, number));
    }
}

/// Marks what units use that are emitted as scalars, of those below a number, the last one first.
fn mark_all_uses(ssa: &Ssa, packed: &Marks, marks: &mut Marks, count: u32)
    ensures { marks.new ≡ with_uses_below ssa.now packed.now marks.old count }
{
    let mut left = count;
    'units: while left > 0 {
        left -= 1;
        mark_uses(ssa, packed, marks, left);
    }
}

/// Marks on the values that are needed as scalars: what recipes put into registers, and what units
/// use that are emitted as scalars.
pub(crate) fn needed_values(
    alloc: Global,
    ssa: &Ssa,
    packs: &[Pack],
    recipes: &[Recipe],
    operands: &[Operand],
) -> Result<Marks, AllocError>
    requires { IsSound ssa.now }
    ensures { IfOk result (λ marks. Mark (arguments ssa.now + length ssa.now.units) marks
        (needed_behind ssa.now packs.now (all_inserted recipes.now operands.now)
        (falling_units ssa.now))) }
{
    let count = count_values(ssa);
    let mut packed = Marks::new(alloc, count as usize)?;
    packed.mark_packs(packs);
    let mut needed = Marks::new(alloc, count as usize)?;
    mark_all_inserted(alloc, &mut needed, recipes, operands)?;
    mark_all_uses(ssa, &packed, &mut needed, count);
    Ok(needed)
}
