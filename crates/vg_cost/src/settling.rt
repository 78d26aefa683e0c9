//! What follows from a change of a plan, from the highest number down.

ghost use Rattle.std.specs.Prelude.{◌≡◌, ◌+◌, ◌<◌, ◌≤◌, ◌&&◌, ℕ, [], IfOk, OnOk, Some, false, get_or, if◌then◌else◌, length, true};
ghost use Rattle.vg_cost.specs.Lines.{is_written, line_of, values_of};
ghost use Rattle.vg_cost.specs.Moves.{FitsIn, Moves, Settles, StandsAt};
ghost use Rattle.vg_cost.specs.Needs.{is_needed, line_at, under, used_at};
ghost use Rattle.vg_kernel_plans.specs.Packing.{used_by};
ghost use Rattle.vg_shapes.specs.Units.{arguments, unit_at};

use crate::change::Change;
use crate::counts::count_used;
use crate::lines::is_written;
use crate::price::plus;
use std::alloc::AllocError;
use vg_shapes::SsaUnit;

/// 1 where a unit is written or its value is extracted, else 0.
fn line_where(written: bool, packed: bool, needed: bool) -> u64
    ensures { result ≡ if written then 1 else if packed && needed then 1 else 0 }
{
    u64::from(written || (packed && needed))
}

/// Counts what the unit of a number uses, where it is written now and was not, or the other way round.
fn count_change(
    counts: &mut [u32],
    changed: &mut [bool],
    unit: &SsaUnit,
    number: usize,
    was: bool,
    is: bool,
) -> Result<(), AllocError>
    requires { length changed.old ≡ length counts.old }
    ensures { OnOk result (Moves (under number (if was then used_by (Some unit.now) else []))
        (under number (if is then used_by (Some unit.now) else [])) counts.old counts.new
        changed.old changed.new) }
{
    if was == is {
        return Ok(());
    }
    count_used(counts, changed, unit, number, is)?;
    Ok(())
}

/// The lines so far with those of the unit of a number as after the change in place of those before
/// it. Counts what it uses.
fn judge_unit(
    change: &Change,
    counts: &mut [u32],
    changed: &mut [bool],
    number: usize,
    unit: &SsaUnit,
    lines: u64,
) -> Result<u64, AllocError>
    requires fits { FitsIn change.now counts.old changed.old }
    requires number { number < length change.now.longer.now }
    ensures counts { OnOk result (Moves
        (under number (values_of (Some unit.now) (get_or change.now.packed.now number false)
        (is_needed change.now.counts.now number)))
        (under number (values_of (Some unit.now) (get_or change.now.longer.now number false)
        (is_needed counts.old number)))
        counts.old counts.new changed.old changed.new) }
    ensures lines { IfOk result (λ next.
        line_of (Some unit.now) (get_or change.now.packed.now number false)
        (is_needed change.now.counts.now number) ≤ lines
        → next + line_of (Some unit.now) (get_or change.now.packed.now number false)
        (is_needed change.now.counts.now number)
        ≡ lines + line_of (Some unit.now) (get_or change.now.longer.now number false)
        (is_needed counts.old number)) }
{
    let was_packed = change.packed[number];
    let was_needed = change.counts[number] > 0;
    let is_packed = change.longer[number];
    let is_needed = counts[number] > 0;
    let was_written = is_written(unit, was_packed, was_needed);
    let is_written = is_written(unit, is_packed, is_needed);
    let before = line_where(was_written, was_packed, was_needed);
    let after = line_where(is_written, is_packed, is_needed);
    count_change(counts, changed, unit, number, was_written, is_written)?;
    let others = lines.saturating_sub(before);
    plus(others, after)
}

/// The unit of a number, if it is that of one.
fn unit_of(change: &Change, number: usize) -> Option<SsaUnit>
    requires { change.now.first ≡ arguments change.now.ssa.now }
    ensures { result ≡ unit_at change.now.ssa.now number }
{
    if number < change.first {
        None
    } else {
        change
            .ssa
            .units
            .as_slice()
            .get(number - change.first)
            .copied()
    }
}

/// The same of any number.
fn judge(
    change: &Change,
    counts: &mut [u32],
    changed: &mut [bool],
    number: usize,
    lines: u64,
) -> Result<u64, AllocError>
    requires first { change.now.first ≡ arguments change.now.ssa.now }
    requires fits { FitsIn change.now counts.old changed.old }
    requires number { number < length change.now.longer.now }
    ensures counts { OnOk result (Moves
        (used_at change.now.ssa.now change.now.packed.now change.now.counts.now number)
        (used_at change.now.ssa.now change.now.longer.now counts.old number)
        counts.old counts.new changed.old changed.new) }
    ensures lines { IfOk result (λ next.
        line_at change.now.ssa.now change.now.packed.now change.now.counts.now number ≤ lines
        → next + line_at change.now.ssa.now change.now.packed.now change.now.counts.now number
        ≡ lines + line_at change.now.ssa.now change.now.longer.now counts.old number) }
{
    match unit_of(change, number) {
        None => Ok(lines),
        Some(unit) => {
            let next = judge_unit(change, counts, changed, number, &unit, lines)?;
            Ok(next)
        }
    }
}

/// Whether none of the eight numbers below an end is marked.
fn are_still(changed: &[bool], end: usize) -> bool
    requires eight { 8 ≤ end }
    requires long { end ≤ length changed.now }
    ensures { result ≡ true → (v : ℕ) → end ≤ v + 8 → v < end → get_or changed.now v false ≡ false }
{
    let high = changed[end - 1] | changed[end - 2] | changed[end - 3] | changed[end - 4];
    let low = changed[end - 5] | changed[end - 6] | changed[end - 7] | changed[end - 8];
    !(high | low)
}

/// The numbers below an end without the last of them, eight at a time, that are not marked: how many
/// they are.
fn still_end(changed: &[bool], end: usize) -> usize
    requires { end ≤ length changed.now }
    ensures bound { result ≤ end }
    ensures still { (v : ℕ) → result ≤ v → v < end → get_or changed.now v false ≡ false }
{
    let mut left = end;
    'eights: while left >= 8 && are_still(changed, left) {
        left -= 8;
    }
    left
}

/// The numbers below an end without those that are the last and not marked: how many they are.
fn changed_end(changed: &[bool], end: usize) -> usize
    requires { end ≤ length changed.now }
    ensures bound { result ≤ end }
    ensures still { (v : ℕ) → result ≤ v → v < end → get_or changed.now v false ≡ false }
{
    let mut left = still_end(changed, end);
    'marks: while left > 0 && !changed[left - 1] {
        left -= 1;
    }
    left
}

/// The lines after a change, by those before it. Of the values only those are looked at whose count
/// or whose unit is marked as changed, and those for which that follows.
pub(crate) fn settle(
    change: &Change,
    counts: &mut [u32],
    changed: &mut [bool],
    lines: u64,
) -> Result<u64, AllocError>
    requires first { change.now.first ≡ arguments change.now.ssa.now }
    requires fits { FitsIn change.now counts.old changed.old }
    requires stands { (v : ℕ) → v < length change.now.longer.now → StandsAt change.now counts.old
        changed.old v }
    ensures { IfOk result (Settles change.now counts.old lines counts.new) }
{
    let mut lines = lines;
    let mut left = changed_end(changed, changed.len());
    'units: while left > 0 {
        let number = left - 1;
        lines = judge(change, counts, changed, number, lines)?;
        left = changed_end(changed, number);
    }
    Ok(lines)
}
