//! An operator or a function of one operand.

ghost use Rattle.std.specs.Prelude.{◌≡◌, ◌%◌, ◌^◌, ◌≤◌, Ok, Err, Some, None, false, nat_le, if◌then◌else◌};
ghost use Rattle.vg_interval.specs.Found.{known, loose, moving, read, slice_word, within};
ghost use Rattle.vg_interval.specs.Words.{low_extended};
ghost use Rattle.vg_interval.specs.declared.fault.RangeFault.TheVariants.{BadExtend};
ghost use Rattle.vg_interval.specs.Interval.{signed_span, unsigned_span};
ghost use Rattle.vg_interval.specs.Judge.{loose_word, unary_at, unary_found, unary_of, width_found};
ghost use Rattle.vg_interval.specs.Views.{Gives, found_view, operand_view, slice_number, unary_of_number};
ghost use Rattle.vg_script.specs.Views.{low_of, word_of};

use crate::fault::RangeFault;
use crate::found::{Found, Operand};
use crate::operands::{operand, slice_word};
use crate::results::unary_result;
use crate::span::Span;
use crate::spans::{signed_span, slice_span, unsigned_span};
use crate::unary_spans::unary_span;
use crate::whole_numbers::{slice_number, small, whole};
use crate::word_builders::{low_extended, unary_word};
use std::alloc::Global;
use vg_pseudo::{Spot, UnaryOp};
use vg_script::{Low, Word};

/// Of what is no slice. TooWide where the result does not fit.
pub fn unary_of(
    alloc: Global,
    spot: Spot,
    op: UnaryOp,
    operand: Operand,
) -> Result<Found, RangeFault>
    ensures { Gives found_view result (unary_of spot op (operand_view operand)) }
{
    match operand {
        Operand::Fixed(z) => match unary_result(op, z) {
            Some(y) => Ok(Found::Known { number: whole(y) }),
            None => Err(RangeFault::TooWide { place: spot.inner }),
        },
        Operand::Moving { span, word } => match unary_span(op, span) {
            Some(span) => Ok(Found::Within {
                span,
                word: unary_word(alloc, op, word)?,
            }),
            None => Err(RangeFault::TooWide { place: spot.inner }),
        },
    }
}

fn cut(alloc: Global, is_signed: bool, width: u32, word: Word) -> Result<Found, RangeFault>
    requires { width ≤ 64 }
    ensures { Gives found_view result (Ok (within (if is_signed then signed_span width else
        unsigned_span width) (low_extended is_signed width (word_of word)))) }
{
    let span = if is_signed {
        signed_span(width)
    } else {
        unsigned_span(width)
    };
    Ok(Found::Within {
        span,
        word: low_extended(alloc, is_signed, width, word)?,
    })
}

// A left shift that need not fit is cut at once, or refused.
fn of_loose(
    alloc: Global,
    spot: Spot,
    op: UnaryOp,
    inner: Spot,
    word: Word,
) -> Result<Found, RangeFault>
    ensures { Gives found_view result (unary_at spot op inner (loose (word_of word))) }
{
    match op {
        UnaryOp::SignExtend(width) => cut(alloc, true, width.bits(), word),
        UnaryOp::ZeroExtend(width) => cut(alloc, false, width.bits(), word),
        UnaryOp::Truncate(width) => cut(alloc, false, width.bits(), word),
        _ => Err(RangeFault::TooWide { place: inner.inner }),
    }
}

// A slice of a constant that is extended to so many bits.
fn extended_constant(
    spot: Spot,
    is_signed: bool,
    to: u32,
    width: u128,
    bits: u128,
) -> Result<Found, RangeFault>
    ensures { Gives found_view result (if nat_le width to then Ok (known (slice_number is_signed
        width (bits % 2 ^ width)) None) else Err (BadExtend spot.inner)) }
{
    if width <= to as u128 {
        Ok(Found::Known {
            number: slice_number(is_signed, width, bits),
        })
    } else {
        Err(RangeFault::BadExtend { place: spot.inner })
    }
}

#[tactic(auto, unfolding(crate::specs::Interval::fit), using(crate::proofs::Fitting::slice_passed))]
fn of_constant(
    alloc: Global,
    spot: Spot,
    op: UnaryOp,
    inner: Spot,
    is_signed: bool,
    bits: u128,
    width: u128,
) -> Result<Found, RangeFault>
    ensures { Gives found_view result (unary_at spot op inner (known (slice_number is_signed width
        (bits % 2 ^ width)) (Some width))) }
{
    let number = match small(slice_number(is_signed, width, bits)) {
        Some(number) => number,
        None => return Err(RangeFault::TooWide { place: inner.outer }),
    };
    match op {
        UnaryOp::Signed => Ok(Found::Known {
            number: slice_number(true, width, bits),
        }),
        UnaryOp::SignExtend(to) => extended_constant(spot, true, to.bits(), width, bits),
        UnaryOp::ZeroExtend(to) => extended_constant(spot, false, to.bits(), width, bits),
        _ => unary_of(alloc, spot, op, Operand::Fixed(number)),
    }
}

// The bits of a slice, read as signed or not.
fn read_again(
    alloc: Global,
    is_signed: bool,
    register: usize,
    low: Low,
    width: u128,
) -> Result<Found, RangeFault>
    requires signed { width ≤ 128 }
    requires unsigned { is_signed ≡ false → width ≤ 127 }
    ensures { Gives found_view result (Ok (within (if is_signed then signed_span width else
        unsigned_span width) (slice_word is_signed register (low_of low) width))) }
{
    let span = if is_signed {
        signed_span(width as u32)
    } else {
        unsigned_span(width as u32)
    };
    Ok(Found::Within {
        span,
        word: slice_word(alloc, is_signed, register, low, width)?,
    })
}

fn extended_slice(
    alloc: Global,
    spot: Spot,
    is_signed: bool,
    to: u32,
    register: usize,
    low: Low,
    width: u128,
) -> Result<Found, RangeFault>
    requires { to ≤ 64 }
    ensures { Gives found_view result (if nat_le width to then Ok (within (if is_signed then
        signed_span width else unsigned_span width) (slice_word is_signed register (low_of low)
        width)) else Err (BadExtend spot.inner)) }
{
    if width <= to as u128 {
        read_again(alloc, is_signed, register, low, width)
    } else {
        Err(RangeFault::BadExtend { place: spot.inner })
    }
}

fn of_moving_slice(
    alloc: Global,
    spot: Spot,
    op: UnaryOp,
    span: Span,
    is_signed: bool,
    register: usize,
    low: Low,
    width: u128,
) -> Result<Found, RangeFault>
    requires { width ≤ 128 }
    ensures { Gives found_view result (unary_of spot op (moving span (slice_word is_signed register
        (low_of low) width))) }
{
    let word = slice_word(alloc, is_signed, register, low, width)?;
    unary_of(alloc, spot, op, Operand::Moving { span, word })
}

// A slice of up to 128 bits, with its interval.
fn of_small_slice(
    alloc: Global,
    spot: Spot,
    op: UnaryOp,
    span: Span,
    is_signed: bool,
    register: usize,
    low: Low,
    width: u128,
) -> Result<Found, RangeFault>
    requires { width ≤ 128 }
    ensures { Gives found_view result (unary_found spot op (read is_signed register (low_of low)
        width) (Some width) (moving span (slice_word is_signed register (low_of low) width))) }
{
    match op {
        UnaryOp::Signed => read_again(alloc, true, register, low, width),
        UnaryOp::SignExtend(to) => {
            extended_slice(alloc, spot, true, to.bits(), register, low, width)
        }
        UnaryOp::ZeroExtend(to) => {
            extended_slice(alloc, spot, false, to.bits(), register, low, width)
        }
        _ => of_moving_slice(alloc, spot, op, span, is_signed, register, low, width),
    }
}

fn of_slice(
    alloc: Global,
    spot: Spot,
    op: UnaryOp,
    inner: Spot,
    is_signed: bool,
    register: usize,
    low: Low,
    width: u128,
) -> Result<Found, RangeFault>
    ensures { Gives found_view result (unary_at spot op inner (read is_signed register (low_of low)
        width)) }
{
    match slice_span(is_signed, width) {
        Some(span) => of_small_slice(alloc, spot, op, span, is_signed, register, low, width),
        None => Err(RangeFault::TooWide { place: inner.outer }),
    }
}

fn of_operand(
    alloc: Global,
    spot: Spot,
    op: UnaryOp,
    inner: Spot,
    found: Found,
) -> Result<Found, RangeFault>
    ensures { Gives found_view result (unary_of_number spot op inner (found_view found)) }
{
    let operand = operand(alloc, inner, found)?;
    unary_of(alloc, spot, op, operand)
}

// Of what is neither a slice form nor a left shift that need not fit.
fn of_number(
    alloc: Global,
    spot: Spot,
    op: UnaryOp,
    inner: Spot,
    found: Found,
) -> Result<Found, RangeFault>
    requires width { width_found (found_view found) ≡ None }
    requires loose { loose_word (found_view found) ≡ None }
    ensures { Gives found_view result (unary_at spot op inner (found_view found)) }
{
    of_operand(alloc, spot, op, inner, found)
}

/// An operator or a function of one operand, by the spots of the whole and of the operand. TooWide
/// where the operand or the result does not fit, BadExtend where a slice is wider than its
/// extension.
pub fn unary_at(
    alloc: Global,
    spot: Spot,
    op: UnaryOp,
    inner: Spot,
    found: Found,
) -> Result<Found, RangeFault>
    ensures { Gives found_view result (unary_at spot op inner (found_view found)) }
{
    match found {
        Found::Loose { word } => of_loose(alloc, spot, op, inner, word),
        Found::KnownSlice {
            is_signed,
            bits,
            width,
        } => of_constant(alloc, spot, op, inner, is_signed, bits, width),
        Found::Read {
            is_signed,
            register,
            low,
            width,
        } => of_slice(alloc, spot, op, inner, is_signed, register, low, width),
        Found::Known { number } => of_number(alloc, spot, op, inner, Found::Known { number }),
        Found::Bit { word } => of_number(alloc, spot, op, inner, Found::Bit { word }),
        Found::Within { span, word } => {
            of_number(alloc, spot, op, inner, Found::Within { span, word })
        }
        Found::Wide { word } => of_number(alloc, spot, op, inner, Found::Wide { word }),
        Found::Handed {
            frame,
            register,
            low,
            width,
        } => of_number(
            alloc,
            spot,
            op,
            inner,
            Found::Handed {
                frame,
                register,
                low,
                width,
            },
        ),
    }
}
