//! Which numbers are marked.

ghost use Rattle.std.specs.Prelude.{◌≡◌, ◌∷◌, [], IfOk, false, filter_map, flat_map, get_or, length, replicate, true};
ghost use Rattle.vg_cost.specs.Marks.{Has, Marked};
ghost use Rattle.vg_shapes.specs.Pack.{units_of};

use std::alloc::{AllocError, Global};
use vg_kernel_plans::marks::clear_marks;
use vg_shapes::Pack;

/// Clears all marks.
pub(crate) fn clear(marks: &mut [bool])
    ensures { marks.new ≡ replicate (length marks.old) false }
{
    marks.fill(false);
}

/// Whether a number is marked, or past all marks.
pub(crate) fn is_marked(marks: &[bool], number: u32) -> bool
    ensures { result ≡ get_or marks.now number true }
{
    marks.get(number as usize).copied().unwrap_or(true)
}

/// Marks a number, unless it is past all marks.
pub(crate) fn mark(marks: &mut [bool], number: u32)
    ensures { Marked (number ∷ []) marks.old marks.new }
{
    if number as usize >= marks.len() {
        return;
    }
    marks[number as usize] = true;
}

/// Marks numbers, but for those past all marks.
pub(crate) fn mark_all(marks: &mut [bool], numbers: &[u32])
    ensures { Marked numbers.now marks.old marks.new }
{
    'numbers: for number in numbers {
        mark(marks, *number);
    }
}

/// Marks the numbers of lanes that have one.
fn mark_lanes(marks: &mut [bool], lanes: &[Option<u32>])
    ensures { Marked (filter_map (λ v. v) lanes.now) marks.old marks.new }
{
    'lanes: for lane in lanes {
        mark_lane(marks, *lane);
    }
}

fn mark_lane(marks: &mut [bool], lane: Option<u32>)
    ensures { Marked (filter_map (λ v. v) (lane ∷ [])) marks.old marks.new }
{
    match lane {
        None => {}
        Some(number) => mark(marks, number),
    }
}

/// Marks the units of a pack.
pub(crate) fn mark_pack(marks: &mut [bool], pack: &Pack)
    ensures { Marked (units_of pack.now) marks.old marks.new }
{
    match pack {
        Pack::Stores(units) => mark_all(marks, units.as_slice()),
        Pack::Loads(units) => mark_all(marks, units.as_slice()),
        Pack::Call { lanes, .. } => mark_lanes(marks, lanes.as_slice()),
    }
}

/// Marks the units of packs.
pub(crate) fn mark_packs(marks: &mut [bool], packs: &[Pack])
    ensures { Marked (flat_map units_of packs.now) marks.old marks.new }
{
    'packs: for pack in packs {
        mark_pack(marks, pack);
    }
}

#[tactic(auto, using(crate::proofs::Marking::has_marked))]
/// So many marks, with those of the units of packs.
pub(crate) fn packed_marks(
    alloc: Global,
    count: usize,
    packs: &[Pack],
) -> Result<Vec<bool>, AllocError>
    ensures { IfOk result (λ marks. Has count (flat_map units_of packs.now) marks.items) }
{
    let mut marks = clear_marks(alloc, count)?;
    mark_packs(marks.as_mut_slice(), packs);
    Ok(marks)
}

#[tactic(auto, using(crate::proofs::Marking::has_marked))]
/// So many marks, with those of numbers.
pub(crate) fn value_marks(
    alloc: Global,
    count: usize,
    numbers: &[u32],
) -> Result<Vec<bool>, AllocError>
    ensures { IfOk result (λ marks. Has count numbers.now marks.items) }
{
    let mut marks = clear_marks(alloc, count)?;
    mark_all(marks.as_mut_slice(), numbers);
    Ok(marks)
}
