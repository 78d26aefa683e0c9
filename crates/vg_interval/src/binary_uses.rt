//! An operator or a function of two operands.

ghost use Rattle.std.specs.Prelude.{◌≡◌, IfOk};
ghost use Rattle.vg_interval.specs.Judge.{binary_at, is_comparison, is_shift, joined, result_within};
ghost use Rattle.vg_interval.specs.Found.{bit, span_of, word_of};
ghost use Rattle.vg_interval.specs.Interval.{binary_span};
ghost use Rattle.vg_interval.specs.Views.{Gives, count_view, found_view, mixed, operand_view};
ghost use Rattle.vg_interval.specs.Words.{binary_word, comparison};

use crate::binary_results::{binary_result, known};
use crate::binary_spans::binary_span;
use crate::fault::RangeFault;
use crate::found::{Found, Operand};
use crate::judged::Count;
use crate::shifts::shift_at;
use crate::word_builders::{binary_word, comparison};
use std::alloc::{AllocError, Global};
use vg_pseudo::{BinaryOp, Spot};

/// Whether an operator is a shift.
pub fn is_shift(op: BinaryOp) -> bool
    ensures { result ≡ is_shift op }
{
    match op {
        BinaryOp::ShiftLeft | BinaryOp::ShiftRight => true,
        _ => false,
    }
}

/// Whether an operator is a comparison.
pub fn is_comparison(op: BinaryOp) -> bool
    ensures { result ≡ is_comparison op }
{
    match op {
        BinaryOp::Equal | BinaryOp::NotEqual | BinaryOp::Less | BinaryOp::LessOrEqual => true,
        BinaryOp::Greater | BinaryOp::GreaterOrEqual => true,
        _ => false,
    }
}

/// A comparison of two operands, by its bit.
pub fn compared(
    alloc: Global,
    op: BinaryOp,
    first: Operand,
    second: Operand,
) -> Result<Found, AllocError>
    ensures { IfOk result (λ f. found_view f ≡ bit (comparison op (word_of (operand_view first))
        (word_of (operand_view second)))) }
{
    let word = comparison(alloc, op, first.into_word(), second.into_word())?;
    Ok(Found::Bit { word })
}

/// An operator that is neither a shift nor a comparison, of operands that are not both constant.
/// TooWide where the result does not fit.
pub fn combined(
    alloc: Global,
    spot: Spot,
    op: BinaryOp,
    first: Operand,
    second: Operand,
) -> Result<Found, RangeFault>
    ensures { Gives found_view result (result_within spot
        (binary_span op (span_of (operand_view first)) (span_of (operand_view second)))
        (binary_word op (word_of (operand_view first)) (word_of (operand_view second)))) }
{
    match binary_span(op, first.span(), second.span()) {
        Some(span) => Ok(Found::Within {
            span,
            word: binary_word(alloc, op, first.into_word(), second.into_word())?,
        }),
        None => Err(RangeFault::TooWide { place: spot.inner }),
    }
}

// An operator that is no shift, of operands that are not both constant.
fn mixed(
    alloc: Global,
    spot: Spot,
    op: BinaryOp,
    first: Operand,
    second: Operand,
) -> Result<Found, RangeFault>
    ensures { Gives found_view result (mixed spot op (operand_view first) (operand_view second)) }
{
    if is_comparison(op) {
        Ok(compared(alloc, op, first, second)?)
    } else {
        combined(alloc, spot, op, first, second)
    }
}

/// An operator that is no shift. TooWide where the result does not fit.
pub fn joined(
    alloc: Global,
    spot: Spot,
    op: BinaryOp,
    first: Operand,
    second: Operand,
) -> Result<Found, RangeFault>
    ensures { Gives found_view result (joined spot op (operand_view first) (operand_view second)) }
{
    match (&first, &second) {
        (Operand::Fixed(y), Operand::Fixed(z)) => known(spot, binary_result(op, *y, *z)),
        _ => mixed(alloc, spot, op, first, second),
    }
}

/// An operator or a function of two operands, by its spot and that of its second operand. TooWide
/// where the result does not fit or an amount of places may be negative.
pub fn binary_at(
    alloc: Global,
    spot: Spot,
    op: BinaryOp,
    inner: Spot,
    first: Operand,
    second: Operand,
    count: Count,
) -> Result<(Found, Count), RangeFault>
    ensures { Gives (λ f. (found_view f.0, count_view f.1)) result
        (binary_at spot op inner (operand_view first) (operand_view second) (count_view count)) }
{
    if is_shift(op) {
        shift_at(alloc, spot, op, inner, first, second, count)
    } else {
        Ok((joined(alloc, spot, op, first, second)?, count))
    }
}
