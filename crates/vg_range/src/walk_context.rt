//! What a body sees while it is walked.

ghost use Rattle.std.specs.Prelude.{◌≡◌, get_or, map, None, pos};
ghost use Rattle.vg_interval.specs.Found.{known};
ghost use Rattle.vg_interval.specs.Judge.{constant, element_at, slice_at, variable_found};
ghost use Rattle.vg_interval.specs.Views.{Gives, count_view, found_view, index_view, kept_view};
ghost use Rattle.vg_script.specs.Views.{number_of};
ghost use Rattle.vg_range.specs.Seen.{context_view, leaf, sight_view};
ghost use Rattle.vg_range.specs.Walk.{width_in};

use std::alloc::{AllocError, Global};
use std::cell::Cell;
use vg_interval::calls::variable_found;
use vg_interval::moving::{element_at, slice_at, width_at};
use vg_interval::{Count, Found, Index, KnownNumber, RangeFault};
use vg_names::Function;
use vg_pseudo::Spot;
use vg_script::WholeNumber;
use vg_text::Place;

/// The most slices, operators, functions and choices of a script that is written out.
const MOST_WRITTEN: u32 = 1 << 24;

/// The most bits that are kept of a register.
pub const MOST_KEPT: u128 = 512;

/// What a body sees: the widths of its registers, the numbers of those that are constant, the turns
/// of the FORs around a place, innermost first, the DEFINEs before it, whether scripts are kept, and
/// how many expressions of them are kept so far.
#[derive(Clone, Copy)]
pub struct WalkContext<'a> {
    pub widths: &'a [u128],
    pub constants: &'a [Option<u128>],
    pub turns: &'a [WholeNumber],
    pub functions: &'a [Function],
    pub is_kept: bool,
    pub written: &'a Cell<u32>,
}

/// How many bits of a register an assignment can write: those that are kept.
pub fn width_in(context: &WalkContext, register: usize) -> u128
    ensures { result ≡ width_in (context_view context.now) register }
{
    width_at(context.widths, register).min(MOST_KEPT)
}

/// What is known of the variable of a FOR.
#[tactic(auto, using(crate::proofs::Lists::get_or_map))]
pub fn counter(turns: &[WholeNumber], turn: usize) -> Found
    ensures { found_view result ≡ known (get_or (map number_of turns.now) turn (pos 0)) None }
{
    match turns.get(turn) {
        Some(number) => Found::Known { number: *number },
        None => Found::Known {
            number: WholeNumber::Natural(0),
        },
    }
}

/// What is known of a number variable, 0 where there is none.
#[tactic(auto, using(crate::proofs::Lists::get_or_map))]
pub fn variable(numbers: &[KnownNumber], variable: usize) -> Found
    ensures { found_view result ≡ variable_found variable (get_or (map kept_view numbers.now)
        variable (constant (pos 0))) }
{
    match numbers.get(variable) {
        Some(kept) => variable_found(variable, *kept),
        None => variable_found(variable, KnownNumber::Constant(0)),
    }
}

/// What is known of an expression, on the heap.
#[inline(never)]
pub fn boxed(alloc: Global, found: Found, count: Count) -> Result<(Box<Found>, Count), RangeFault>
    ensures { Gives (λ f. (found_view f.0.value, count_view f.1)) result (leaf (found_view found)
        (count_view count)) }
{
    let found = Box::new(alloc, found)?;
    Ok((found, count))
}

/// Whether an expression is a constant, of which no word is kept.
pub fn is_constant(found: &Found) -> bool {
    matches!(found, Found::Known { .. } | Found::KnownSlice { .. })
}

/// One expression more is kept, where a script is and the expression is no constant. Past 2^24 of
/// them in an instance there is no memory.
fn write(context: &WalkContext, found: &Found) -> Result<(), AllocError> {
    if context.is_kept && !is_constant(found) {
        let before = context.written.get();
        if before >= MOST_WRITTEN {
            return Err(AllocError);
        }
        context.written.set(before + 1);
    }
    Ok(())
}

/// What is known of an expression that is written out, on the heap.
#[inline(never)]
pub fn written(
    alloc: Global,
    context: &WalkContext,
    found: Found,
    count: Count,
) -> Result<(Box<Found>, Count), RangeFault>
    ensures { Gives (λ f. (found_view f.0.value, count_view f.1)) result (leaf (found_view found)
        (count_view count)) }
{
    write(context, &found)?;
    boxed(alloc, found, count)
}

/// A slice by its two indices.
#[inline(never)]
#[tactic(auto, using(crate::proofs::Lists::seen_slice))]
pub fn slice(
    alloc: Global,
    context: &WalkContext,
    place: Place,
    is_signed: bool,
    register: usize,
    spread: Option<u128>,
    high: Index,
    low: Index,
    count: Count,
) -> Result<(Box<Found>, Count), RangeFault>
    ensures { Gives (λ f. (found_view f.0.value, count_view f.1)) result (slice_at (sight_view
        context.now) place is_signed register spread (index_view high) (index_view low) (count_view
        count)) }
{
    let (found, count) = slice_at(
        alloc,
        context.widths,
        context.constants,
        place,
        is_signed,
        register,
        spread,
        high,
        low,
        count,
    )?;
    written(alloc, context, found, count)
}

/// An element by its size and its index.
#[inline(never)]
#[tactic(auto, using(crate::proofs::Lists::seen_element))]
pub fn element(
    alloc: Global,
    context: &WalkContext,
    place: Place,
    is_signed: bool,
    register: usize,
    size: u32,
    index: Index,
    count: Count,
) -> Result<(Box<Found>, Count), RangeFault>
    ensures { Gives (λ f. (found_view f.0.value, count_view f.1)) result (element_at (sight_view
        context.now) place is_signed register size (index_view index) (count_view count)) }
{
    let (found, count) = element_at(
        alloc,
        context.widths,
        context.constants,
        place,
        is_signed,
        register,
        size as u128,
        index,
        count,
    )?;
    written(alloc, context, found, count)
}
