//! Shifts.

ghost use Rattle.std.specs.Prelude.{◌≡◌, ◌≤ℤ◌, IfOk, pos};
ghost use Rattle.vg_interval.specs.Judge.{shift_at, shifted_along, shifted_by};
ghost use Rattle.vg_interval.specs.Views.{Gives, count_view, found_view, operand_view};
ghost use Rattle.vg_pseudo.specs.Whole.{natural};
ghost use Rattle.vg_pseudo.specs.declared.operators.BinaryOp.TheVariants.{ShiftLeft};

use crate::binary_results::{binary_result, known};
use crate::binary_spans::{left_span, right_span, shifted_left_span};
use crate::exact::natural;
use crate::fault::RangeFault;
use crate::found::{Found, Operand};
use crate::judged::Count;
use crate::results::shifted_left;
use crate::spans::between;
use crate::whole_numbers::whole;
use crate::word_builders::{binary_word, left_by, right_by};
use std::alloc::{AllocError, Global};
use vg_pseudo::{BinaryOp, Spot};

/// A shift by a number of places that is not constant, and not negative.
pub fn shifted_along(
    alloc: Global,
    op: BinaryOp,
    first: Operand,
    second: Operand,
) -> Result<Found, AllocError>
    ensures { IfOk result (λ f. found_view f ≡ shifted_along op (operand_view first) (operand_view
        second)) }
{
    let i = first.span();
    let j = second.span();
    let word = binary_word(alloc, op, first.into_word(), second.into_word())?;
    match op {
        BinaryOp::ShiftLeft => match left_span(i, j) {
            Some(span) => Ok(Found::Within { span, word }),
            None => Ok(Found::Loose { word }),
        },
        _ => Ok(Found::Within {
            span: right_span(i, j),
            word,
        }),
    }
}

/// A shift to the left by a constant number of places. TooWide where that is above 126, or where the
/// result does not fit.
pub fn shifted_left_by(
    alloc: Global,
    spot: Spot,
    places: u128,
    first: Operand,
) -> Result<Found, RangeFault>
    ensures { Gives found_view result (shifted_by spot ShiftLeft places (operand_view first)) }
{
    if 126 < places {
        return Err(RangeFault::TooWide { place: spot.inner });
    }
    match first {
        Operand::Fixed(z) => match shifted_left(z, places) {
            Some(y) => Ok(Found::Known { number: whole(y) }),
            None => Err(RangeFault::TooWide { place: spot.inner }),
        },
        Operand::Moving { span, word } => {
            match shifted_left_span(span, places as u32, places as u32) {
                Some(span) => Ok(Found::Within {
                    span,
                    word: left_by(alloc, places as u32, word)?,
                }),
                None => Err(RangeFault::TooWide { place: spot.inner }),
            }
        }
    }
}

/// A shift by a constant number of places. TooWide where a shift to the left is by more than 126, or
/// where its result does not fit.
pub fn shifted_by(
    alloc: Global,
    spot: Spot,
    op: BinaryOp,
    places: i128,
    first: Operand,
) -> Result<Found, RangeFault>
    requires { pos 0 ≤ℤ places }
    ensures { Gives found_view result (shifted_by spot op (natural places) (operand_view first)) }
{
    match (op, first) {
        (BinaryOp::ShiftLeft, first) => shifted_left_by(alloc, spot, natural(places), first),
        (op, Operand::Fixed(z)) => known(spot, binary_result(op, z, places)),
        (_, Operand::Moving { span, word }) => Ok(Found::Within {
            span: right_span(span, between(places, places)),
            word: right_by(alloc, natural(places), word)?,
        }),
    }
}

/// A shift, by its spot and that of the number of its places. TooWide where the result does not fit,
/// or where that number may be negative.
pub fn shift_at(
    alloc: Global,
    spot: Spot,
    op: BinaryOp,
    inner: Spot,
    first: Operand,
    second: Operand,
    count: Count,
) -> Result<(Found, Count), RangeFault>
    ensures { Gives (λ f. (found_view f.0, count_view f.1)) result
        (shift_at spot op inner (operand_view first) (operand_view second) (count_view count)) }
{
    match second {
        Operand::Fixed(places) => {
            if places < 0 {
                return Err(RangeFault::TooWide { place: inner.outer });
            }
            Ok((shifted_by(alloc, spot, op, places, first)?, count))
        }
        Operand::Moving { span, word } => {
            if span.least < 0 {
                return Err(RangeFault::TooWide { place: inner.outer });
            }
            let found = shifted_along(alloc, op, first, Operand::Moving { span, word })?;
            Ok((found, count.dynamic()))
        }
    }
}
