//! How often numbers are counted.

ghost use Rattle.std.specs.Prelude.{◌≡◌, ◌+◌, ◌-◌, ◌<◌, ◌∷◌, [], IfOk, OnOk, filter_map, if◌then◌else◌, length};
ghost use Rattle.vg_cost.specs.Moves.{Counted, Moves};
ghost use Rattle.vg_cost.specs.Needs.{under};
ghost use Rattle.vg_cost.specs.Taken.{inserted_for, taken_of};
ghost use Rattle.vg_kernel_plans.specs.Packing.{used_by};
ghost use Rattle.vg_kernel_plans.specs.Wants.{value_of, wanted_values};

use crate::recipe_cost::RecipeCost;
use std::alloc::AllocError;
use vg_kernel_plans::wants::value_of;
use vg_shapes::{Operand, Operands, Slot, SsaUnit, Wanted};

/// A count with one more or one less, or want of memory where it has more than 32 bits.
fn counted(count: u32, more: bool) -> Result<u32, AllocError>
    ensures { IfOk result (λ n. n ≡ if more then count + 1 else count - 1) }
{
    if !more {
        return Ok(count.saturating_sub(1));
    }
    match count.checked_add(1) {
        Some(sum) => Ok(sum),
        None => Err(AllocError),
    }
}

/// Counts a number once more or once less, unless it is past all counts.
fn count_number(
    counts: &mut [u32],
    changed: &mut [bool],
    number: u32,
    more: bool,
) -> Result<(), AllocError>
    requires { length changed.old ≡ length counts.old }
    ensures { OnOk result (Counted more (number ∷ []) counts.old counts.new changed.old
        changed.new) }
{
    let place = number as usize;
    if place >= counts.len() {
        return Ok(());
    }
    counts[place] = counted(counts[place], more)?;
    changed[place] = true;
    Ok(())
}

/// Counts a value, if one is wanted.
fn count_wanted(
    counts: &mut [u32],
    changed: &mut [bool],
    wanted: Wanted,
    more: bool,
) -> Result<(), AllocError>
    requires { length changed.old ≡ length counts.old }
    ensures { OnOk result (Counted more (filter_map value_of (wanted ∷ [])) counts.old counts.new
        changed.old changed.new) }
{
    match value_of(wanted) {
        None => Ok(()),
        Some(value) => count_number(counts, changed, value, more),
    }
}

/// Counts the values that slots want.
fn count_slots(
    counts: &mut [u32],
    changed: &mut [bool],
    slots: &[Slot],
    more: bool,
) -> Result<(), AllocError>
    requires { length changed.old ≡ length counts.old }
    ensures { OnOk result (Counted more (filter_map (λ s. value_of s.wanted) slots.now) counts.old
        counts.new changed.old changed.new) }
{
    'slots: for slot in slots {
        count_wanted(counts, changed, slot.wanted, more)?;
    }
    Ok(())
}

/// Counts the values that the inserts of an operand take, by what its recipe was and what it is.
pub(crate) fn count_inserted(
    counts: &mut [u32],
    changed: &mut [bool],
    operand: &Operand,
    before: bool,
    recipe: RecipeCost,
) -> Result<(), AllocError>
    requires { length changed.old ≡ length counts.old }
    ensures { OnOk result (Moves (if before then wanted_values operand.now else [])
        (inserted_for (taken_of operand.now recipe)) counts.old counts.new changed.old changed.new) }
{
    if before == recipe.is_inserted {
        return Ok(());
    }
    count_slots(
        counts,
        changed,
        operand.slots.as_slice(),
        recipe.is_inserted,
    )?;
    Ok(())
}

/// Counts a value below a number, if one is wanted.
fn count_under(
    counts: &mut [u32],
    changed: &mut [bool],
    wanted: Wanted,
    number: usize,
    more: bool,
) -> Result<(), AllocError>
    requires { length changed.old ≡ length counts.old }
    ensures { OnOk result (Counted more (under number (filter_map value_of (wanted ∷ [])))
        counts.old counts.new changed.old changed.new) }
{
    match value_of(wanted) {
        None => Ok(()),
        Some(value) => {
            if value as usize >= number {
                return Ok(());
            }
            count_number(counts, changed, value, more)
        }
    }
}

/// Counts the values below a number among operands.
fn count_operands(
    counts: &mut [u32],
    changed: &mut [bool],
    operands: &Operands,
    number: usize,
    more: bool,
) -> Result<(), AllocError>
    requires { length changed.old ≡ length counts.old }
    ensures { OnOk result (Counted more (under number (filter_map value_of (operands.now.first
        ∷ operands.now.second ∷ operands.now.third ∷ []))) counts.old counts.new changed.old
        changed.new) }
{
    count_under(counts, changed, operands.first, number, more)?;
    count_under(counts, changed, operands.second, number, more)?;
    count_under(counts, changed, operands.third, number, more)?;
    Ok(())
}

/// Counts the values below a number that its unit uses.
pub(crate) fn count_used(
    counts: &mut [u32],
    changed: &mut [bool],
    unit: &SsaUnit,
    number: usize,
    more: bool,
) -> Result<(), AllocError>
    requires { length changed.old ≡ length counts.old }
    ensures { OnOk result (Counted more (under number (used_by (Some unit.now))) counts.old
        counts.new changed.old changed.new) }
{
    match unit {
        SsaUnit::Load { .. } => Ok(()),
        SsaUnit::Store { value, .. } => count_under(counts, changed, *value, number, more),
        SsaUnit::Operation { operands, .. } => {
            count_operands(counts, changed, operands, number, more)
        }
    }
}
