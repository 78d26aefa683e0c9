//! What assignments write, and what they store there.

ghost use Rattle.std.specs.Prelude.{◌≡◌, ◌<◌, false};
ghost use Rattle.vg_interval.specs.Found.{slice_word, handed_word};
ghost use Rattle.vg_interval.specs.Words.{extended};
ghost use Rattle.vg_script.specs.Script.{fill};
ghost use Rattle.vg_interval.specs.Views.{Gives, found_view, index_view, kept_view, operand_view};
ghost use Rattle.vg_script.specs.Views.{frame_of, low_of, number_of, script_of, word_of};
ghost use Rattle.vg_range.specs.Seen.{goal_view};
ghost use Rattle.vg_range.specs.Walk.{constant_index, kept_of, put_word, stored};

use std::alloc::Global;
use vg_interval::operands::{handed_word, slice_word};
use vg_interval::whole_numbers::slice_number;
use vg_interval::word_builders::extended;
use vg_interval::{Bits, Found, Index, KnownNumber, Operand, RangeFault};
use vg_pseudo::Spot;
use vg_script::{Frame, Low, Script, WholeNumber, Word, make_copy_from, make_put};
use vg_text::Place;

/// The bits of a register that an assignment writes.
#[derive(Clone, Copy, Drop)]
pub struct Goal {
    pub register: usize,
    pub bits: Bits,
}

/// An index that has to be constant. DynamicIndex where it is not.
pub fn constant_index(place: Place, index: Index) -> Result<WholeNumber, RangeFault>
    ensures { Gives number_of result (constant_index place (index_view index)) }
{
    match index {
        Index::Settled(number) => Ok(number),
        Index::Unsettled(_) => Err(RangeFault::DynamicIndex { place }),
    }
}

/// A number that is no move. TooWide where more than 128 bits are written.
#[inline(never)]
pub fn put_word(alloc: Global, place: Place, goal: Goal, word: Word) -> Result<Script, RangeFault>
    ensures { Gives script_of result (put_word place (goal_view goal) (word_of word)) }
{
    if goal.bits.width <= 128 {
        Ok(make_put(
            alloc,
            goal.register,
            goal.bits.low,
            goal.bits.width as u32,
            word,
        )?)
    } else {
        Err(RangeFault::TooWide { place })
    }
}

fn put_slice(
    alloc: Global,
    place: Place,
    goal: Goal,
    is_signed: bool,
    register: usize,
    low: Low,
    width: u128,
) -> Result<Script, RangeFault>
    requires { width < goal.bits.width }
    ensures { Gives script_of result (put_word place (goal_view goal) (slice_word is_signed register
        (low_of low) width)) }
{
    if 128 < goal.bits.width {
        return Err(RangeFault::TooWide { place });
    }
    let word = slice_word(alloc, is_signed, register, low, width)?;
    put_word(alloc, place, goal, word)
}

fn put_handed(
    alloc: Global,
    place: Place,
    goal: Goal,
    frame: Frame,
    register: usize,
    low: Low,
    width: u128,
) -> Result<Script, RangeFault>
    ensures { Gives script_of result (put_word place (goal_view goal) (handed_word (frame_of frame)
        register (low_of low) width)) }
{
    let word = handed_word(alloc, frame, register, low, width)?;
    put_word(alloc, place, goal, word)
}

fn put_bit(alloc: Global, place: Place, goal: Goal, word: Word) -> Result<Script, RangeFault>
    ensures { Gives script_of result (put_word place (goal_view goal) (extended false 1 (word_of
        word))) }
{
    let word = extended(alloc, false, 1, word)?;
    put_word(alloc, place, goal, word)
}

fn fill(goal: Goal, number: WholeNumber) -> Script
    ensures { script_of result ≡ fill goal.register goal.bits.low goal.bits.width (number_of
        number) }
{
    Script::Fill {
        register: goal.register,
        low: goal.bits.low,
        width: goal.bits.width,
        number,
    }
}

/// What is stored in bits: a constant, a move of a slice at least as wide, or the low bits of a
/// number. TooWide where there are more than 128, or where it is a left shift that does not fit.
#[inline(never)]
pub fn stored(alloc: Global, spot: Spot, goal: Goal, found: Found) -> Result<Script, RangeFault>
    ensures { Gives script_of result (stored spot (goal_view goal) (found_view found)) }
{
    match found {
        Found::Known { number } => Ok(fill(goal, number)),
        Found::KnownSlice {
            is_signed,
            bits,
            width,
        } => Ok(fill(goal, slice_number(is_signed, width, bits))),
        Found::Read {
            is_signed,
            register,
            low,
            width,
        } => {
            if goal.bits.width <= width {
                Ok(Script::Copy {
                    register: goal.register,
                    low: goal.bits.low,
                    width: goal.bits.width,
                    from: register,
                    from_low: low,
                })
            } else {
                put_slice(alloc, spot.outer, goal, is_signed, register, low, width)
            }
        }
        Found::Handed {
            frame,
            register,
            low,
            width,
        } => {
            let frame = Box::into_inner(frame);
            if goal.bits.width <= width {
                Ok(make_copy_from(
                    alloc,
                    goal.register,
                    goal.bits.low,
                    goal.bits.width,
                    frame,
                    register,
                    low,
                )?)
            } else {
                put_handed(alloc, spot.outer, goal, frame, register, low, width)
            }
        }
        Found::Bit { word } => put_bit(alloc, spot.outer, goal, word),
        Found::Within { span: _, word } => put_word(alloc, spot.outer, goal, word),
        Found::Wide { word } => put_word(alloc, spot.outer, goal, word),
        Found::Loose { word: _ } => Err(RangeFault::TooWide { place: spot.inner }),
    }
}

/// What a number variable keeps of an operand.
pub fn kept_of(operand: &Operand) -> KnownNumber
    ensures { kept_view result ≡ kept_of (operand_view operand.now) }
{
    match operand {
        Operand::Fixed(number) => KnownNumber::Constant(*number),
        Operand::Moving { span, .. } => KnownNumber::Varying(*span),
    }
}
