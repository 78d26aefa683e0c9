//! Slices of registers, by their indices.

ghost use Rattle.std.specs.Prelude.{◌≡◌, ◌+◌, ◌*◌, ◌/◌, ◌^◌, ◌&&◌, nat_lt, nat_le, if◌then◌else◌, Ok, Some, None, false, IfOk};
ghost use Rattle.std.specs.Option.{option_map};
ghost use Rattle.vg_interval.specs.Judge.{bits_between, bits_of_element, dynamic, index_of, lies_inside, moving_slice, ok_of, slice_found, step, times, unsettled};
ghost use Rattle.vg_interval.specs.Found.{operand, read};
ghost use Rattle.vg_interval.specs.Views.{Gives, bits_view, count_view, found_view, index_view, operand_view};
ghost use Rattle.vg_script.specs.Views.{number_of};

use crate::fault::RangeFault;
use crate::found::Found;
use crate::judged::{Bits, Count, Index};
use crate::operands::operand;
use crate::whole_numbers::slice_number;
use std::alloc::{AllocError, Global};
use vg_pseudo::Spot;
use vg_script::{Low, WholeNumber};
use vg_text::Place;

impl Count {
    /// One step more. TooLong where there were 4,096.
    pub fn step(self, place: Place) -> Result<Count, RangeFault>
        ensures { Gives count_view result (step place (count_view self)) }
    {
        if self.steps < 4096 {
            Ok(Count {
                steps: self.steps + 1,
                is_dynamic: self.is_dynamic,
            })
        } else {
            Err(RangeFault::TooLong { place })
        }
    }

    /// The same, with a slice or a shift that depends on data.
    pub fn dynamic(self) -> Count
        ensures { count_view result ≡ dynamic (count_view self) }
    {
        Count {
            steps: self.steps,
            is_dynamic: true,
        }
    }
}

/// The bits from the low to the high index. IndexOutside where they do not all lie inside a register
/// of this width.
pub fn bits_between(
    place: Place,
    all: u128,
    high: WholeNumber,
    low: WholeNumber,
) -> Result<Bits, RangeFault>
    ensures { Gives bits_view result (bits_between place all (number_of high) (number_of low)) }
{
    match (high, low) {
        (WholeNumber::Natural(high), WholeNumber::Natural(low)) => {
            if low <= high && high < all {
                Ok(Bits {
                    low,
                    width: high - low + 1,
                })
            } else {
                Err(RangeFault::IndexOutside { place })
            }
        }
        _ => Err(RangeFault::IndexOutside { place }),
    }
}

fn lane(all: u128, size: u128, index: u128) -> Option<Bits>
    ensures { option_map bits_view result ≡ (if nat_lt 0 size && nat_le (index * size + size) all
        then Some (record { low = index * size; width = size }) else None) }
{
    if size == 0 {
        return None;
    }
    let low = index.checked_mul(size)?;
    let end = low.checked_add(size)?;
    if end <= all {
        Some(Bits { low, width: size })
    } else {
        None
    }
}

/// An element of a register of this width by its size and its index. IndexOutside where it does not
/// lie inside.
pub fn bits_of_element(
    place: Place,
    all: u128,
    size: u128,
    index: WholeNumber,
) -> Result<Bits, RangeFault>
    ensures { Gives bits_view result (bits_of_element place all size (number_of index)) }
{
    match index {
        WholeNumber::Natural(index) => match lane(all, size, index) {
            Some(bits) => Ok(bits),
            None => Err(RangeFault::IndexOutside { place }),
        },
        WholeNumber::Negative(_) => Err(RangeFault::IndexOutside { place }),
    }
}

/// What is known of a slice of a register, which may be a constant, by its reading.
pub fn slice_found(is_signed: bool, constant: Option<u128>, register: usize, bits: Bits) -> Found
    ensures { found_view result ≡ slice_found is_signed constant register (bits_view bits) }
{
    match constant {
        None => Found::Read {
            is_signed,
            register,
            low: Low::At { bit: bits.low },
            width: bits.width,
        },
        Some(n) => Found::KnownSlice {
            is_signed,
            bits: behind(n, bits.low),
            width: bits.width,
        },
    }
}

fn behind(n: u128, low: u128) -> u128
    ensures { result ≡ n / 2 ^ low }
{
    if low < 128 { n >> low as u32 } else { 0 }
}

fn unsettled(alloc: Global, spot: Spot, found: Found) -> Result<Index, AllocError>
    ensures { IfOk result (λ i. index_view i ≡ unsettled (ok_of (operand spot (found_view
        found)))) }
{
    match operand(alloc, spot, found) {
        Ok(operand) => Ok(Index::Unsettled(Some(operand))),
        Err(RangeFault::Memory(error)) => Err(error),
        Err(_) => Ok(Index::Unsettled(None)),
    }
}

/// What an expression says as an index. TooWide where it is a left shift that does not fit.
pub fn index_of(alloc: Global, spot: Spot, found: Found) -> Result<Index, RangeFault>
    ensures { Gives index_view result (index_of spot (found_view found)) }
{
    match found {
        Found::Known { number } => Ok(Index::Settled(number)),
        Found::KnownSlice {
            is_signed,
            bits,
            width,
        } => Ok(Index::Settled(slice_number(is_signed, width, bits))),
        Found::Loose { word: _ } => Err(RangeFault::TooWide { place: spot.inner }),
        found => Ok(unsettled(alloc, spot, found)?),
    }
}
