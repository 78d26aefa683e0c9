//! The lanes of packs that are to produce operands.

ghost use Rattle.std.specs.Prelude.{◌≡◌, ◌<◌, ◌&&◌, ◌^◌, [], IfOk, find, is_some, length, nat_eq, Option, Some};
ghost use Rattle.std.specs.Cmp.Lexicographic.{pointwise};
ghost use Rattle.std.specs.List.{list_any, list_all};
ghost use Rattle.std.specs.Option.{option_copied};
ghost use Rattle.vg_kernel_plans.specs.Held.{lanes_from};
ghost use Rattle.vg_kernel_plans.specs.Producers.{agree, all_differ, are_matched, lanes_for, value_at};
ghost use Rattle.vg_kernel_plans.specs.SameAs.{same_slot};
ghost use Rattle.vg_kernel_plans.specs.Wants.{slot};
ghost use Rattle.vg_shapes.specs.declared.wanted.Wanted.TheVariants.{Value};
ghost use Rattle.vg_packs.specs.Lanes.{beginnings, begins_with, can_begin, fits_lane, is_matched, matches_of, rest_behind};

use std::alloc::{AllocError, Global};
use vg_kernel_plans::lane::lane_of;
use vg_kernel_plans::wants::value_of;
use vg_shapes::wanted::is_same_wanted;
use vg_shapes::{Match, MatchTable, Operand, Slot, Wanted};

fn has_number(numbers: &[u32], number: u32) -> bool
    ensures { result ≡ list_any (nat_eq number) numbers.now }
{
    numbers.iter().any(|x| number == *x)
}

/// Whether no number stands twice.
pub(crate) fn all_differ(numbers: &[u32]) -> bool
    ensures { result ≡ all_differ numbers.now }
{
    let mut left = numbers;
    'numbers: while let [first, rest @ ..] = left {
        if has_number(rest, *first) {
            return false;
        }
        left = rest;
    }
    true
}

fn has_low(slots: &[Slot], low: u32) -> bool
    ensures { result ≡ list_any (λ t. nat_eq low t.low) slots.now }
{
    slots.iter().any(|t| low == t.low)
}

/// Whether no two slots stand at one bit.
pub(crate) fn agree(slots: &[Slot]) -> bool
    ensures { result ≡ agree slots.now }
{
    let mut left = slots;
    'slots: while let [first, rest @ ..] = left {
        if has_low(rest, first.low) {
            return false;
        }
        left = rest;
    }
    true
}

/// Whether all operands have slots that agree.
pub(crate) fn all_agree(operands: &[Operand]) -> bool
    ensures { result ≡ list_all (λ q. agree q.slots) operands.now }
{
    operands.iter().all(|q| agree(q.slots.as_slice()))
}

/// The slot of this width at this bit, if there is one.
fn slot_at(slots: &[Slot], low: u64, width: u32) -> Option<&Slot>
    ensures { option_copied result ≡ find (λ s. nat_eq s.low low && nat_eq s.width width)
        slots.now }
{
    slots
        .iter()
        .find(|s| u64::from(s.low) == low && s.width == width)
}

/// The value that is wanted in the slot of this width at this bit, if any.
fn lane_value(slots: &[Slot], low: u64, width: u32) -> Option<u32>
    ensures { result ≡ value_at (find (λ s. nat_eq s.low low && nat_eq s.width width) slots.now) }
{
    match slot_at(slots, low, width) {
        Some(found) => value_of(found.wanted),
        None => None,
    }
}

/// So many lanes of a width from bit 0 on, each with what the slot of its place wants.
pub(crate) fn lanes_for(
    alloc: Global,
    slots: &[Slot],
    count: u32,
    width: u32,
) -> Result<Vec<Option<u32>>, AllocError>
    ensures { IfOk result (λ lanes. lanes.items ≡ lanes_for count 0 width slots.now) }
{
    let mut lanes = Vec::new(alloc);
    let mut low: u64 = 0;
    let mut left = count;
    'lanes: while left > 0 {
        lanes.push(lane_value(slots, low, width))?;
        low += u64::from(width);
        left -= 1;
    }
    Ok(lanes)
}

/// Whether a slot of this width at this bit wants this value.
fn wants_here(found: &Slot, low: u64, width: u32, value: u32) -> bool
    ensures { result ≡ same_slot found.now (slot low width (Value value)) }
{
    u64::from(found.low) == low
        && (found.width == width && is_same_wanted(found.wanted, Wanted::Value(value)))
}

/// Whether a lane has no value, or is the first of these slots.
fn begins_with(wanted: &[Slot], low: u64, width: u32, lane: Option<u32>) -> bool
    ensures { result ≡ begins_with wanted.now low width lane }
{
    match lane {
        None => true,
        Some(value) => match wanted.first() {
            None => false,
            Some(found) => wants_here(found, low, width, value),
        },
    }
}

/// The slots after a lane.
fn rest_behind(wanted: &[Slot], lane: Option<u32>) -> &[Slot]
    ensures { result.now ≡ rest_behind wanted.now lane }
{
    match lane {
        None => wanted,
        Some(_) => match wanted {
            [] => &[],
            [_, rest @ ..] => rest,
        },
    }
}

/// Whether these slots are exactly the lanes of this width that have a value, from bit 0 on.
pub(crate) fn are_lanes(wanted: &[Slot], lanes: &[Option<u32>], width: u32) -> bool
    requires { length lanes.now < 2 ^ 32 }
    ensures { result ≡ pointwise same_slot wanted.now (lanes_from 0 width lanes.now) }
{
    let mut left = wanted;
    let mut low: u64 = 0;
    'lanes: for lane in lanes {
        if !begins_with(left, low, width, *lane) {
            return false;
        }
        left = rest_behind(left, *lane);
        low += u64::from(width);
    }
    left.is_empty()
}

/// Whether a lane of a description matches the value that it has, if any.
fn is_matched(table: &MatchTable, description: u32, lane: u32, value: Option<u32>) -> bool
    ensures { result ≡ is_matched table.now description lane value }
{
    match value {
        None => true,
        Some(value) => table.get(description, lane, value).is_some(),
    }
}

/// Whether each lane that has a value matches it.
pub(crate) fn are_matched(table: &MatchTable, description: u32, lanes: &[Option<u32>]) -> bool
    requires { length lanes.now < 2 ^ 32 }
    ensures { result ≡ are_matched table.now description 0 lanes.now }
{
    let mut lane = 0;
    'lanes: for value in lanes {
        if !is_matched(table, description, lane, *value) {
            return false;
        }
        lane += 1;
    }
    true
}

/// Whether a slot is a lane of this width of a description, and matches what it wants.
fn fits_lane(table: &MatchTable, slot: &Slot, description: u32, width: u32) -> bool
    ensures { result ≡ fits_lane table.now slot.now description width }
{
    slot.width == width
        && is_matched(
            table,
            description,
            lane_of(slot.low, width),
            value_of(slot.wanted),
        )
}

/// Whether the first of these slots, if any, fits a lane of a description.
pub(crate) fn can_begin(table: &MatchTable, slots: &[Slot], description: u32, width: u32) -> bool
    ensures { result ≡ can_begin table.now slots.now description width }
{
    match slots.first() {
        None => true,
        Some(slot) => fits_lane(table, slot, description, width),
    }
}

/// The matches of a value, if there is one.
fn matches_of(table: &MatchTable, value: Option<u32>) -> &[Match]
    ensures { result.now ≡ matches_of table.now value }
{
    match value {
        None => &[],
        Some(value) => table.at(value),
    }
}

/// The matches of what the first of these slots wants.
pub(crate) fn beginnings<'a>(table: &'a MatchTable, slots: &[Slot]) -> &'a [Match]
    ensures { result.now ≡ beginnings table.now slots.now }
{
    match slots.first() {
        None => &[],
        Some(slot) => matches_of(table, value_of(slot.wanted)),
    }
}
