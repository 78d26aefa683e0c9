//! The numbers of constant expressions, found without the heap. What is not told here is judged.

ghost use Rattle.std.specs.Prelude.{◌≡◌, IfSome, map};
ghost use Rattle.vg_interval.specs.Views.{found_view, kept_view};
ghost use Rattle.vg_names.specs.Views.{expr_of};
ghost use Rattle.vg_range.specs.Folding.{IsElement, IsKnown, IsNumber, Makes, number_in};
ghost use Rattle.vg_range.specs.Seen.{sight_view};

use crate::walk_context::{WalkContext, counter, variable};
use vg_interval::binary_results::binary_result;
use vg_interval::moving::{constant_at, width_at};
use vg_interval::slices::{bits_of_element, slice_found};
use vg_interval::whole_numbers::{slice_number, small, whole};
use vg_interval::{Found, KnownNumber};
use vg_names::ResolvedExpr;
use vg_pseudo::{BinaryOp, Spot};
use vg_script::WholeNumber;

/// How deep expressions are looked into.
const DEPTH: u32 = 6;

/// The small number of what is known, if it is a constant.
fn number_in(found: Found) -> Option<i128>
    ensures { result ≡ number_in (found_view found) }
{
    match found {
        Found::Known { number } => small(number),
        Found::KnownSlice {
            is_signed,
            bits,
            width,
        } => small(slice_number(is_signed, width, bits)),
        _ => None,
    }
}

/// The small number that is known of an expression, if it is a constant.
#[tactic(auto, using(crate::proofs::Folded::number_in_is))]
fn known_number(found: Found) -> Option<i128>
    ensures { IfSome result (λ z. IsKnown z (found_view found)) }
{
    number_in(found)
}

/// What an operator makes of two numbers, where it fits; left shifts are left out.
#[tactic(auto, using(crate::proofs::Folded::right_made, crate::proofs::Folded::joined_made))]
fn made(op: BinaryOp, first: i128, second: i128) -> Option<i128>
    ensures { IfSome result (λ z. Makes op first second z) }
{
    match op {
        BinaryOp::ShiftLeft => None,
        BinaryOp::ShiftRight => {
            if second < 0 {
                None
            } else {
                binary_result(op, first, second)
            }
        }
        _ => binary_result(op, first, second),
    }
}

/// An element of a constant register, by the number of its index.
#[tactic(auto, using(crate::proofs::Folded::bits_are))]
fn element_number(
    context: &WalkContext,
    spot: &Spot,
    is_signed: bool,
    register: usize,
    size: u128,
    index: i128,
) -> Option<i128>
    ensures { IfSome result (λ z. IsElement (sight_view context.now) spot.now is_signed register
        size index z) }
{
    let constant = constant_at(context.constants, register);
    let all = width_at(context.widths, register);
    match bits_of_element(spot.inner, all, size, whole(index)) {
        Ok(bits) => known_number(slice_found(is_signed, constant, register, bits)),
        Err(_) => None,
    }
}

/// The number of an expression that is constant and looked into so deep.
#[tactic(auto, using(crate::proofs::Folded::literal_is, crate::proofs::Folded::variable_is, crate::proofs::Folded::front_is, crate::proofs::Folded::part_is))]
fn number_within(
    context: &WalkContext,
    numbers: &[KnownNumber],
    expr: &ResolvedExpr,
    depth: u32,
) -> Option<i128>
    ensures { IfSome result (λ z. IsNumber (sight_view context.now) (map kept_view numbers.now)
        (expr_of expr.now) z) }
{
    if depth == 0 {
        return None;
    }
    match expr {
        ResolvedExpr::Literal { spot: _, value } => small(WholeNumber::Natural(*value)),
        ResolvedExpr::Counter { spot: _, turn } => known_number(counter(context.turns, *turn)),
        ResolvedExpr::Variable {
            spot: _,
            variable: number,
        } => known_number(variable(numbers, *number)),
        ResolvedExpr::Element {
            spot,
            is_signed,
            register,
            size,
            index,
        } => {
            if constant_at(context.constants, *register).is_none() {
                return None;
            }
            let index = number_within(context, numbers, index, depth - 1)?;
            element_number(context, spot, *is_signed, *register, *size as u128, index)
        }
        ResolvedExpr::Front {
            spot,
            is_signed,
            register,
            size,
        } => element_number(context, spot, *is_signed, *register, *size, 0),
        ResolvedExpr::Binary {
            spot: _,
            op,
            left,
            right,
        } => {
            let first = number_within(context, numbers, left, depth - 1)?;
            let second = number_within(context, numbers, right, depth - 1)?;
            made(*op, first, second)
        }
        _ => None,
    }
}

/// The number of an expression that is constant, where it is made of few numbers, turns, bits of
/// constant registers and operators. None says nothing.
pub fn constant_number(
    context: &WalkContext,
    numbers: &[KnownNumber],
    expr: &ResolvedExpr,
) -> Option<i128>
    ensures { IfSome result (λ z. IsNumber (sight_view context.now) (map kept_view numbers.now)
        (expr_of expr.now) z) }
{
    number_within(context, numbers, expr, DEPTH)
}
