//! Marks of the units of packs.

ghost use Rattle.std.specs.Prelude.{◌≡◌, IfOk, false, get_or, nat_eq, nat_lt, replicate};
ghost use Rattle.std.specs.List.{filter_map, list_any};
ghost use Rattle.vg_plans.specs.World.{is_in};
ghost use Rattle.vg_shapes.specs.Pack.{units_of};
ghost use Rattle.vg_packs.specs.Marks.{AddsMarks, is_within};
ghost use Rattle.vg_packs.specs.Walk.{is_in_plan, is_lane_of};

use std::alloc::{AllocError, Global};
use vg_kernel_plans::marks::clear_marks;
use vg_shapes::Pack;

/// Whether a number is marked.
pub(crate) fn is_marked(marks: &[bool], number: u32) -> bool
    ensures { result ≡ get_or marks.now number false }
{
    marks.get(number as usize).copied().unwrap_or(false)
}

/// Whether some number of a list is marked.
pub(crate) fn some_marked(marks: &[bool], numbers: &[u32]) -> bool
    ensures { result ≡ list_any (λ v. get_or marks.now v false) numbers.now }
{
    numbers.iter().any(|number| is_marked(marks, *number))
}

/// Marks a number, if it has a mark.
fn mark(marks: &mut [bool], number: u32)
    ensures { AddsMarks (λ v. nat_eq v number) marks.old marks.new }
{
    let index = number as usize;
    if index < marks.len() {
        marks[index] = true;
    }
}

/// Marks the numbers below one, as far as there are marks.
fn mark_below(marks: &mut [bool], end: u32)
    ensures { AddsMarks (λ v. nat_lt v end) marks.old marks.new }
{
    let mut number = 0;
    'numbers: while number < end {
        mark(marks, number);
        number += 1;
    }
}

/// So many marks, of which those below a number are set.
pub(crate) fn marks_below(alloc: Global, count: usize, end: u32) -> Result<Vec<bool>, AllocError>
    ensures { IfOk result (λ marks. AddsMarks (λ v. nat_lt v end) (replicate count false)
        marks.items) }
{
    let mut marks = clear_marks(alloc, count)?;
    mark_below(marks.as_mut_slice(), end);
    Ok(marks)
}

/// Marks the numbers above one, up to another, as far as there are marks.
pub(crate) fn mark_within(marks: &mut [bool], least: u32, greatest: u32)
    ensures { AddsMarks (is_within least greatest) marks.old marks.new }
{
    let mut number = least;
    'numbers: while number < greatest {
        number += 1;
        mark(marks, number);
    }
}

/// Marks the number of a lane, if it has one.
fn mark_lane(marks: &mut [bool], lane: Option<u32>)
    ensures { AddsMarks (λ v. is_lane_of v lane) marks.old marks.new }
{
    match lane {
        None => {}
        Some(number) => mark(marks, number),
    }
}

fn mark_units(marks: &mut [bool], units: &[u32])
    ensures { AddsMarks (λ v. is_in v units.now) marks.old marks.new }
{
    'units: for unit in units {
        mark(marks, *unit);
    }
}

fn mark_lanes(marks: &mut [bool], lanes: &[Option<u32>])
    ensures { AddsMarks (λ v. list_any (is_lane_of v) lanes.now) marks.old marks.new }
{
    'lanes: for lane in lanes {
        mark_lane(marks, *lane);
    }
}

fn mark_values(marks: &mut [bool], lanes: &[Option<u32>])
    ensures { AddsMarks (λ v. is_in v (filter_map (λ u. u) lanes.now)) marks.old marks.new }
{
    mark_lanes(marks, lanes);
}

/// Marks the units of a pack.
pub(crate) fn mark_pack(marks: &mut [bool], pack: &Pack)
    ensures { AddsMarks (λ v. is_in v (units_of pack.now)) marks.old marks.new }
{
    match pack {
        Pack::Stores(units) => mark_units(marks, units.as_slice()),
        Pack::Loads(units) => mark_units(marks, units.as_slice()),
        Pack::Call { lanes, .. } => mark_values(marks, lanes.as_slice()),
    }
}

/// Marks the units of a plan.
pub(crate) fn mark_plan(marks: &mut [bool], plan: &[Pack])
    ensures { AddsMarks (is_in_plan plan.now) marks.old marks.new }
{
    'packs: for pack in plan {
        mark_pack(marks, pack);
    }
}
