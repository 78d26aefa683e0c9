//! What the operators and functions of two operands make of constants, where the result fits.

ghost use Rattle.std.specs.Prelude.{◌≡◌};
ghost use Rattle.std.specs.Option.{option_map};
ghost use Rattle.vg_interval.specs.Found.{known, or_too_wide};
ghost use Rattle.vg_interval.specs.Interval.{fit};
ghost use Rattle.vg_interval.specs.Views.{Gives, found_view};
ghost use Rattle.vg_pseudo.specs.Whole.{binary_result, both_bits, either_bits, unequal_bits};
ghost use Rattle.vg_base.specs.Number.{floor_shift};
ghost use Rattle.vg_pseudo.specs.Whole.{natural};

use crate::exact::{difference, floor_by, greater, lesser, natural, product, sum};
use crate::fault::RangeFault;
use crate::found::Found;
use crate::results::{fitted, shifted_left, truth};
use crate::whole_numbers::whole;
use vg_pseudo::{BinaryOp, Spot};

fn either_bits(x: i128, y: i128) -> i128
    ensures { result ≡ either_bits x y }
{
    x | y
}

fn unequal_bits(x: i128, y: i128) -> i128
    ensures { result ≡ unequal_bits x y }
{
    x ^ y
}

fn both_bits(x: i128, y: i128) -> i128
    ensures { result ≡ both_bits x y }
{
    x & y
}

// The number over a power of two, rounded down.
fn shifted_right(x: i128, places: i128) -> i128
    ensures { result ≡ floor_shift x (natural places) }
{
    floor_by(x, places)
}

/// What an operator or a function of two operands makes of two numbers, if it fits.
pub fn binary_result(op: BinaryOp, x: i128, y: i128) -> Option<i128>
    ensures { result ≡ fit (binary_result op x y) }
{
    match op {
        BinaryOp::Or => fitted(either_bits(x, y)),
        BinaryOp::Xor => fitted(unequal_bits(x, y)),
        BinaryOp::And => fitted(both_bits(x, y)),
        BinaryOp::Equal => fitted(truth(x == y)),
        BinaryOp::NotEqual => fitted(truth(x != y)),
        BinaryOp::Less => fitted(truth(x < y)),
        BinaryOp::LessOrEqual => fitted(truth(x <= y)),
        BinaryOp::Greater => fitted(truth(x > y)),
        BinaryOp::GreaterOrEqual => fitted(truth(x >= y)),
        BinaryOp::ShiftLeft => shifted_left(x, natural(y)),
        BinaryOp::ShiftRight => fitted(shifted_right(x, y)),
        BinaryOp::Add => sum(x, y),
        BinaryOp::Subtract => difference(x, y),
        BinaryOp::Multiply => product(x, y),
        BinaryOp::Minimum => fitted(lesser(x, y)),
        BinaryOp::Maximum => fitted(greater(x, y)),
    }
}

/// What is known of a constant result. TooWide where it does not fit.
pub fn known(spot: Spot, number: Option<i128>) -> Result<Found, RangeFault>
    ensures { Gives found_view result (or_too_wide spot.inner (option_map (λ y. known y None)
        number)) }
{
    match number {
        Some(number) => Ok(Found::Known {
            number: whole(number),
        }),
        None => Err(RangeFault::TooWide { place: spot.inner }),
    }
}
