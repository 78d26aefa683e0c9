//! Sums with the value of a term read unsigned or signed, and shifts to the right.

ghost use Rattle.std.specs.Prelude.{◌≡◌, ◌≤◌, ◌<◌, ◌-◌, ◌^◌, Some, negsuc, pos};
ghost use Rattle.vg_sums.specs.Gives.{Gives};
ghost use Rattle.vg_sums.specs.Readings.{floor_atom, floor_by, floored, less_multiple, reading_balanced, reading_by, reading_of, signed, unsigned};
ghost use Rattle.vg_sums.specs.Sums.{polynomial};

use crate::arithmetic::{add, add_number, scale};
use crate::change::{Change, changed};
use crate::kind::Kind;
use crate::lost::Lost;
use crate::number::power;
use crate::span_of::shown_floor;
use crate::sum::{Sum, make_atom, make_number};
use std::alloc::Global;

fn floor_by(alloc: Global, shown: Option<i128>, places: u32, p: Sum) -> Result<Sum, Lost>
    ensures { Gives result (Some (floor_by shown places (polynomial p))) }
{
    match shown {
        Some(z) => Ok(make_number(z)),
        None => make_atom(alloc, Kind::Floor { places }, p),
    }
}

/// The sum over a power of two, rounded down.
pub(crate) fn floored(alloc: Global, places: u32, p: &Sum) -> Result<Sum, Lost>
    ensures { Gives result (floored places (polynomial p.now)) }
{
    if places > 126 {
        return Err(Lost::Past);
    }
    if places == 0 {
        return p.copy(alloc);
    }
    let whole = changed(alloc, Change::Quotient { places }, p)?;
    let rest = changed(alloc, Change::Remainder { places }, p)?;
    let shown = shown_floor(places, &rest);
    let floor = floor_by(alloc, shown, places, rest)?;
    add(alloc, &whole, &floor)
}

fn negative_power(places: u32) -> i128
    requires { places ≤ 126 }
    ensures { result ≡ negsuc (2 ^ places - 1) }
{
    -power(places)
}

fn less_multiple(alloc: Global, width: u32, multiple: &Sum, p: &Sum) -> Result<Sum, Lost>
    requires { width ≤ 126 }
    ensures { Gives result (less_multiple width (polynomial multiple.now) (polynomial p.now)) }
{
    let m = scale(alloc, negative_power(width), multiple)?;
    add(alloc, p, &m)
}

fn reading_balanced(alloc: Global, width: u32, p: &Sum) -> Result<Sum, Lost>
    requires { width ≤ 126 }
    ensures { Gives result (reading_balanced width (polynomial p.now)) }
{
    match shown_floor(width, p) {
        Some(z) => less_multiple(alloc, width, &make_number(z), p),
        None => {
            let multiple = floored(alloc, width, p)?;
            less_multiple(alloc, width, &multiple, p)
        }
    }
}

/// The value of a sum modulo a power of two.
pub(crate) fn unsigned(alloc: Global, width: u32, p: &Sum) -> Result<Sum, Lost>
    requires { 1 ≤ width }
    ensures { Gives result (unsigned width (polynomial p.now)) }
{
    if width > 126 {
        return Err(Lost::Past);
    }
    match shown_floor(width, p) {
        Some(z) => less_multiple(alloc, width, &make_number(z), p),
        None => {
            let p = changed(alloc, Change::Balanced { width }, p)?;
            reading_balanced(alloc, width, &p)
        }
    }
}

/// The same in two's complement.
pub(crate) fn signed(alloc: Global, width: u32, p: &Sum) -> Result<Sum, Lost>
    requires { 1 ≤ width }
    ensures { Gives result (signed width (polynomial p.now)) }
{
    if width > 126 {
        return Err(Lost::Past);
    }
    let a = add_number(alloc, power(width - 1), p)?;
    let b = unsigned(alloc, width, &a)?;
    add_number(alloc, negative_power(width - 1), &b)
}
