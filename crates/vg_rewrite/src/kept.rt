//! Which loads and extensions of loads stay where they stood.

ghost use Rattle.std.specs.Prelude.{◌≡◌, ◌&&◌, ◌<◌, ◌≤◌, ◌^◌, IfOk, false, get_or, nat_eq, not};
ghost use Rattle.vg_rewrite.specs.Marks.{AddsMarks, IsKept, Marked, is_kept, is_used, keeps, needs, needs_operand, numbers, reads};
ghost use Rattle.vg_rewrite.specs.Meetings.{reaches_of};
ghost use Rattle.vg_rewrite.specs.Repeated.{is_free, is_needed, is_number, is_read, load_stays, source_of, takes};
ghost use Rattle.vg_shapes.specs.Units.{is_value, uses_value};

use crate::meetings::{meets_between, reaches};
use crate::sources::{source_of, unit_at};
use std::alloc::{AllocError, Global};
use vg_shapes::{Ssa, SsaUnit, Wanted};

/// What is known of the uses of values.
#[derive(Drop)]
pub(crate) struct Kept {
    /// How many units behind a unit there are before one that may meet its access.
    pub(crate) reaches: Vec<usize>,
    /// Of each value whether a use needs it where it stood.
    pub(crate) needed: Vec<bool>,
    /// Of each load whether it or an extension of it is used.
    pub(crate) read: Vec<bool>,
    /// Of each load whether it or an extension of it is needed where it stood.
    pub(crate) loads: Vec<bool>,
}

/// Whether the use of a value by the unit of a number may have a load of its own. These are the
/// reaches of all units.
pub(crate) fn is_free(ssa: &Ssa, reaches: &[usize], user: u32, value: u32) -> bool
    requires reaches { reaches.now ≡ reaches_of ssa.now }
    requires user { user ≤ numbers ssa.now }
    ensures { result ≡ is_free ssa.now user value }
{
    if source_of(ssa, user).is_some() {
        return false;
    }
    match source_of(ssa, value) {
        None => false,
        Some(load) => !meets_between(ssa, reaches, load, user),
    }
}

fn is_marked(marks: &[bool], number: u32) -> bool
    ensures { result ≡ get_or marks.now number false }
{
    marks.get(number as usize).copied().unwrap_or(false)
}

// Marks a number, if it has a mark.
fn mark(marks: &mut [bool], number: u32)
    ensures { AddsMarks (λ v. nat_eq number v) marks.old marks.new }
{
    let index = number as usize;
    if index < marks.len() {
        marks[index] = true;
    }
}

// Marks the value that an operand is.
fn mark_operand(marks: &mut [bool], x: Wanted)
    ensures { AddsMarks (λ v. is_value v x) marks.old marks.new }
{
    match x {
        Wanted::Value(value) => mark(marks, value),
        Wanted::Constant { .. } => {}
        Wanted::Nothing => {}
    }
}

// Marks the values that a unit uses.
fn mark_used(marks: &mut [bool], unit: SsaUnit)
    ensures { AddsMarks (λ v. uses_value v unit) marks.old marks.new }
{
    match unit {
        SsaUnit::Load { .. } => {}
        SsaUnit::Store { value, .. } => mark_operand(marks, value),
        SsaUnit::Operation { operands, .. } => {
            mark_operand(marks, operands.first);
            mark_operand(marks, operands.second);
            mark_operand(marks, operands.third);
        }
    }
}

// Marks the value that an operand of the unit of a number is, where its use is not free.
fn mark_needed_operand(ssa: &Ssa, reaches: &[usize], marks: &mut [bool], user: u32, x: Wanted)
    requires reaches { reaches.now ≡ reaches_of ssa.now }
    requires user { user ≤ numbers ssa.now }
    ensures { AddsMarks (needs_operand ssa.now user x) marks.old marks.new }
{
    match x {
        Wanted::Value(value) => {
            if !is_free(ssa, reaches, user, value) {
                mark(marks, value);
            }
        }
        Wanted::Constant { .. } => {}
        Wanted::Nothing => {}
    }
}

// Marks the values of which a use by the unit of a number is not free.
fn mark_needed(ssa: &Ssa, reaches: &[usize], marks: &mut [bool], user: u32, unit: SsaUnit)
    requires reaches { reaches.now ≡ reaches_of ssa.now }
    requires user { user ≤ numbers ssa.now }
    ensures { AddsMarks (λ v. uses_value v unit && not (is_free ssa.now user v)) marks.old
        marks.new }
{
    match unit {
        SsaUnit::Load { .. } => {}
        SsaUnit::Store { value, .. } => mark_needed_operand(ssa, reaches, marks, user, value),
        SsaUnit::Operation { operands, .. } => {
            mark_needed_operand(ssa, reaches, marks, user, operands.first);
            mark_needed_operand(ssa, reaches, marks, user, operands.second);
            mark_needed_operand(ssa, reaches, marks, user, operands.third);
        }
    }
}

// Marks the values that the unit of a number takes: one that is neither a load nor an extension of
// one.
fn mark_taken(ssa: &Ssa, marks: &mut [bool], user: u32)
    ensures { AddsMarks (takes ssa.now user) marks.old marks.new }
{
    if source_of(ssa, user).is_some() {
        return;
    }
    match unit_at(ssa, user) {
        None => {}
        Some(unit) => mark_used(marks, unit),
    }
}

// Marks those of them of which the use is not free.
fn mark_needs(ssa: &Ssa, reaches: &[usize], marks: &mut [bool], user: u32)
    requires reaches { reaches.now ≡ reaches_of ssa.now }
    requires user { user ≤ numbers ssa.now }
    ensures { AddsMarks (needs ssa.now user) marks.old marks.new }
{
    if source_of(ssa, user).is_some() {
        return;
    }
    match unit_at(ssa, user) {
        None => {}
        Some(unit) => mark_needed(ssa, reaches, marks, user, unit),
    }
}

// Marks the load that a value is, or extends.
fn mark_source(ssa: &Ssa, marks: &mut [bool], value: u32)
    ensures { AddsMarks (λ v. is_number v (source_of ssa.now value)) marks.old marks.new }
{
    match source_of(ssa, value) {
        None => {}
        Some(load) => mark(marks, load),
    }
}

// The same where the value is used.
fn mark_read(ssa: &Ssa, used: &[bool], marks: &mut [bool], value: u32)
    requires used { Marked (numbers ssa.now) (is_used ssa.now) used.now }
    requires value { value < numbers ssa.now }
    ensures { AddsMarks (reads ssa.now value) marks.old marks.new }
{
    if is_marked(used, value) {
        mark_source(ssa, marks, value);
    }
}

// The same where the value is needed.
fn mark_kept(ssa: &Ssa, needed: &[bool], marks: &mut [bool], value: u32)
    requires needed { Marked (numbers ssa.now) (is_needed ssa.now) needed.now }
    requires value { value < numbers ssa.now }
    ensures { AddsMarks (keeps ssa.now value) marks.old marks.new }
{
    if is_marked(needed, value) {
        mark_source(ssa, marks, value);
    }
}

// How many numbers the values have.
fn count_values(ssa: &Ssa) -> usize
    requires { numbers ssa.now < 2 ^ 20 }
    ensures is { result ≡ numbers ssa.now }
    ensures few { result < 2 ^ 32 }
{
    ssa.arguments() + ssa.units.as_slice().len()
}

// Of each value whether it is used.
fn used_values(alloc: Global, ssa: &Ssa) -> Result<Vec<bool>, AllocError>
    requires few { numbers ssa.now < 2 ^ 20 }
    ensures { IfOk result (λ marks. Marked (numbers ssa.now) (is_used ssa.now) marks.items) }
{
    let count = count_values(ssa);
    let mut marks = vec![in alloc; false; count]?;
    let mut user = ssa.arguments();
    'users: while user < count {
        mark_taken(ssa, marks.as_mut_slice(), user as u32);
        user += 1;
    }
    Ok(marks)
}

// Of each value whether a use needs it where it stood.
fn needed_values(alloc: Global, ssa: &Ssa, reaches: &[usize]) -> Result<Vec<bool>, AllocError>
    requires few { numbers ssa.now < 2 ^ 20 }
    requires reaches { reaches.now ≡ reaches_of ssa.now }
    ensures { IfOk result (λ marks. Marked (numbers ssa.now) (is_needed ssa.now) marks.items) }
{
    let count = count_values(ssa);
    let mut marks = vec![in alloc; false; count]?;
    let mut user = ssa.arguments();
    'users: while user < count {
        mark_needs(ssa, reaches, marks.as_mut_slice(), user as u32);
        user += 1;
    }
    Ok(marks)
}

// Of each load whether it or an extension of it is used, where these are the used values.
fn read_loads(alloc: Global, ssa: &Ssa, used: &[bool]) -> Result<Vec<bool>, AllocError>
    requires few { numbers ssa.now < 2 ^ 20 }
    requires used { Marked (numbers ssa.now) (is_used ssa.now) used.now }
    ensures { IfOk result (λ marks. Marked (numbers ssa.now) (is_read ssa.now) marks.items) }
{
    let count = count_values(ssa);
    let mut marks = vec![in alloc; false; count]?;
    let mut value = ssa.arguments();
    'values: while value < count {
        mark_read(ssa, used, marks.as_mut_slice(), value as u32);
        value += 1;
    }
    Ok(marks)
}

// Of each load whether it or an extension of it is needed, where these are the needed values.
fn kept_loads(alloc: Global, ssa: &Ssa, needed: &[bool]) -> Result<Vec<bool>, AllocError>
    requires few { numbers ssa.now < 2 ^ 20 }
    requires needed { Marked (numbers ssa.now) (is_needed ssa.now) needed.now }
    ensures { IfOk result (λ marks. Marked (numbers ssa.now) (is_kept ssa.now) marks.items) }
{
    let count = count_values(ssa);
    let mut marks = vec![in alloc; false; count]?;
    let mut value = ssa.arguments();
    'values: while value < count {
        mark_kept(ssa, needed, marks.as_mut_slice(), value as u32);
        value += 1;
    }
    Ok(marks)
}

impl Kept {
    /// What is known of the uses of the values of units.
    pub(crate) fn new(alloc: Global, ssa: &Ssa) -> Result<Kept, AllocError>
        requires { numbers ssa.now < 2 ^ 20 }
        ensures { IfOk result (IsKept ssa.now) }
    {
        let reaches = reaches(alloc, ssa)?;
        let needed = needed_values(alloc, ssa, &reaches)?;
        let used = used_values(alloc, ssa)?;
        let read = read_loads(alloc, ssa, &used)?;
        let loads = kept_loads(alloc, ssa, &needed)?;
        Ok(Kept {
            reaches,
            needed,
            read,
            loads,
        })
    }

    /// Whether a use needs a value where it stood.
    pub(crate) fn is_needed(&self, ssa: &Ssa, value: u32) -> bool
        requires kept { IsKept ssa.now self.now }
        requires value { value < numbers ssa.now }
        ensures { result ≡ is_needed ssa.now value }
    {
        is_marked(&self.needed, value)
    }

    /// Whether a load stays where it stood.
    pub(crate) fn load_stays(&self, ssa: &Ssa, load: u32) -> bool
        requires kept { IsKept ssa.now self.now }
        requires load { load < numbers ssa.now }
        ensures { result ≡ load_stays ssa.now load }
    {
        is_marked(&self.loads, load) || !is_marked(&self.read, load)
    }

    /// Whether the use of a value by the unit of a number may have a load of its own.
    pub(crate) fn is_free(&self, ssa: &Ssa, user: u32, value: u32) -> bool
        requires kept { IsKept ssa.now self.now }
        requires user { user < numbers ssa.now }
        ensures { result ≡ is_free ssa.now user value }
    {
        is_free(ssa, &self.reaches, user, value)
    }
}
