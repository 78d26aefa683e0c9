//! Slices and elements of registers, by indices that may not be constant.

ghost use Rattle.std.specs.Prelude.{◌≡◌, ◌*◌, ◌+◌, ◌*ℤ◌, ◌+ℤ◌, ◌<◌, ◌&&◌, pos, int_le, nat_le, nat_lt, get_or, None, IfOk};
ghost use Rattle.std.specs.Option.{option_map};
ghost use Rattle.vg_interval.specs.Judge.{bits_between, element_at, lies_inside, moving_slice, slice_at, times};
ghost use Rattle.vg_interval.specs.Views.{Gives, bits_view, count_view, found_view, index_view, operand_view, seen};
ghost use Rattle.vg_script.specs.Views.{number_of};

use crate::fault::RangeFault;
use crate::found::{Found, Operand};
use crate::judged::{Bits, Count, Index};
use crate::slices::{bits_between, bits_of_element, slice_found};
use crate::span::Span;
use std::alloc::{AllocError, Global};
use vg_script::{Low, WholeNumber, Word, make_held, make_two};
use vg_terms::TwoOp;
use vg_text::Place;

// Whether so many times a size, and a width after it, are at most all.
fn ends_inside(all: u128, width: u128, size: u128, number: u128) -> bool
    ensures { result ≡ nat_le (number * size + width) all }
{
    match number.checked_mul(size) {
        Some(low) => match low.checked_add(width) {
            Some(end) => end <= all,
            None => false,
        },
        None => false,
    }
}

// Whether a width is at most all and so many times a size after it.
fn starts_inside(all: u128, width: u128, size: u128, times: u128) -> bool
    ensures { result ≡ nat_le width (all + times * size) }
{
    match times.checked_mul(size) {
        Some(low) => match low.checked_add(all) {
            Some(end) => width <= end,
            None => true,
        },
        None => true,
    }
}

fn reaches(all: u128, width: u128, size: u128, number: i128) -> bool
    requires { 0 < size }
    ensures { result ≡ int_le ((number *ℤ pos size) +ℤ pos width) (pos all) }
{
    if number < 0 {
        starts_inside(all, width, size, (-1 - number) as u128 + 1)
    } else {
        ends_inside(all, width, size, number as u128)
    }
}

fn begins(size: u128, number: i128) -> bool
    requires { 0 < size }
    ensures { result ≡ int_le (pos 0) (number *ℤ pos size) }
{
    0 <= number
}

fn lies_inside(all: u128, width: u128, size: u128, span: Span) -> bool
    ensures { result ≡ nat_lt 0 size && lies_inside all width (times size span) }
{
    if size == 0 {
        return false;
    }
    begins(size, span.least) && reaches(all, width, size, span.greatest)
}

/// A slice of a width from a number on, this many times a size, in a register of `all` bits.
/// IndexOutside where it may not lie inside.
pub fn moving_slice(
    alloc: Global,
    place: Place,
    all: u128,
    is_signed: bool,
    register: usize,
    size: u128,
    width: u128,
    operand: Option<Operand>,
) -> Result<Found, RangeFault>
    ensures { Gives found_view result (moving_slice place all is_signed register size width
        (option_map operand_view operand)) }
{
    let Some(operand) = operand else {
        return Err(RangeFault::IndexOutside { place });
    };
    if !lies_inside(all, width, size, operand.span()) {
        return Err(RangeFault::IndexOutside { place });
    }
    let size = Word::Constant {
        width: 128,
        value: size,
    };
    let low = make_two(alloc, TwoOp::Mul, 128, operand.into_word(), size)?;
    Ok(Found::Read {
        is_signed,
        register,
        low: make_held(alloc, low)?,
        width,
    })
}

fn bits_from(place: Place, all: u128, low: WholeNumber, more: u128) -> Result<Bits, RangeFault>
    ensures { Gives bits_view result (bits_between place all (number_of low +ℤ pos more) (number_of
        low)) }
{
    match low {
        WholeNumber::Natural(first) => match first.checked_add(more) {
            Some(last) => bits_between(place, all, WholeNumber::Natural(last), low),
            None => Err(RangeFault::IndexOutside { place }),
        },
        WholeNumber::Negative(_) => Err(RangeFault::IndexOutside { place }),
    }
}

// One bit more than a number. Where that is 2^128, no memory holds so many bits.
fn width_from(more: u128) -> Result<u128, AllocError>
    ensures { IfOk result (λ n. n ≡ more + 1) }
{
    more.checked_add(1).ok_or(AllocError)
}

/// The width of a register, 0 where there is none.
pub fn width_at(widths: &[u128], register: usize) -> u128
    ensures { result ≡ get_or widths.now register 0 }
{
    match widths.get(register) {
        Some(width) => *width,
        None => 0,
    }
}

/// The number of a register that is constant.
pub fn constant_at(constants: &[Option<u128>], register: usize) -> Option<u128>
    ensures { result ≡ get_or constants.now register None }
{
    match constants.get(register) {
        Some(constant) => *constant,
        None => None,
    }
}

/// A slice by its two indices, in registers of these widths, of which some are constant: where the
/// high one is the low one with `+ n` after it, n being `spread`, the low one alone says where it
/// is. IndexOutside where it may not lie inside, DynamicIndex where an index is not constant
/// otherwise.
pub fn slice_at(
    alloc: Global,
    widths: &[u128],
    constants: &[Option<u128>],
    place: Place,
    is_signed: bool,
    register: usize,
    spread: Option<u128>,
    high: Index,
    low: Index,
    count: Count,
) -> Result<(Found, Count), RangeFault>
    ensures { Gives (λ f. (found_view f.0, count_view f.1)) result (slice_at (seen widths.now
        constants.now) place is_signed register spread (index_view high) (index_view low)
        (count_view count)) }
{
    let all = width_at(widths, register);
    let bits = match (spread, high, low) {
        (Some(n), _, Index::Settled(low)) => bits_from(place, all, low, n)?,
        (Some(n), _, Index::Unsettled(low)) => {
            let width = width_from(n)?;
            let found = moving_slice(alloc, place, all, is_signed, register, 1, width, low)?;
            return Ok((found, count.dynamic()));
        }
        (None, Index::Settled(high), Index::Settled(low)) => bits_between(place, all, high, low)?,
        (None, Index::Settled(_), Index::Unsettled(_)) => {
            return Err(RangeFault::DynamicIndex { place });
        }
        (None, Index::Unsettled(_), _) => return Err(RangeFault::DynamicIndex { place }),
    };
    let found = slice_found(is_signed, constant_at(constants, register), register, bits);
    Ok((found, count))
}

/// An element by its size and its index, in registers of these widths, of which some are constant.
/// IndexOutside where it may not lie inside.
pub fn element_at(
    alloc: Global,
    widths: &[u128],
    constants: &[Option<u128>],
    place: Place,
    is_signed: bool,
    register: usize,
    size: u128,
    index: Index,
    count: Count,
) -> Result<(Found, Count), RangeFault>
    ensures { Gives (λ f. (found_view f.0, count_view f.1)) result (element_at (seen widths.now
        constants.now) place is_signed register size (index_view index) (count_view count)) }
{
    let all = width_at(widths, register);
    match index {
        Index::Settled(index) => {
            let bits = bits_of_element(place, all, size, index)?;
            let found = slice_found(is_signed, constant_at(constants, register), register, bits);
            Ok((found, count))
        }
        Index::Unsettled(index) => {
            let found = moving_slice(alloc, place, all, is_signed, register, size, size, index)?;
            Ok((found, count.dynamic()))
        }
    }
}
