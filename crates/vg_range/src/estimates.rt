//! What is known of operands but for their words. Where no script is kept no word is needed.

ghost use Rattle.std.specs.Prelude.{◌≡◌, IfOk, Ok, Err, if◌then◌else◌};
ghost use Rattle.std.specs.Option.{option_map};
ghost use Rattle.vg_interval.specs.declared.fault.RangeFault.TheVariants.{TooWide};
ghost use Rattle.vg_interval.specs.Found.{or_too_wide};
ghost use Rattle.vg_interval.specs.Interval.{binary_span, is_small};
ghost use Rattle.vg_interval.specs.Judge as known;
ghost use Rattle.vg_interval.specs.Views.{Gives, found_view, kept_view};
ghost use Rattle.vg_names.specs.Views.{expr_of};
ghost use Rattle.vg_script.specs.Views.{number_of};
ghost use Rattle.vg_range.specs.Estimates.{condition_by, filled, is_joined, kept_found, kept_joined};
ghost use Rattle.vg_range.specs.Seen.{decision_view, goal_view, state_view};
ghost use Rattle.vg_range.specs.Walk.{kept_span};

use crate::decision::Decision;
use crate::goal::Goal;
use crate::walk_state::WalkState;
use std::alloc::{AllocError, Global};
use vg_interval::binary_results::binary_result;
use vg_interval::binary_spans::binary_span;
use vg_interval::binary_uses::is_shift;
use vg_interval::spans::{between, slice_span, unsigned_span};
use vg_interval::whole_numbers::{slice_number, small};
use vg_interval::{Found, KnownNumber, RangeFault, Span};
use vg_names::ResolvedExpr;
use vg_pseudo::{BinaryOp, Spot};
use vg_script::{WholeNumber, Word};
use vg_text::Place;

#[tactic(auto, unfolding(vg_interval::specs::Interval::fit))]
fn constant(place: Place, number: WholeNumber) -> Result<KnownNumber, RangeFault>
    ensures { Gives kept_view result (if is_small (number_of number) then Ok (known.constant
        (number_of number)) else Err (TooWide place)) }
{
    match small(number) {
        Some(number) => Ok(KnownNumber::Constant(number)),
        None => Err(RangeFault::TooWide { place }),
    }
}

fn varying(place: Place, span: Option<Span>) -> Result<KnownNumber, RangeFault>
    ensures { Gives kept_view result (or_too_wide place (option_map (λ i. known.varying i) span)) }
{
    match span {
        Some(span) => Ok(KnownNumber::Varying(span)),
        None => Err(RangeFault::TooWide { place }),
    }
}

/// What is known of an expression as an operand, but for its word. TooWide as for the operand.
pub fn kept_found(spot: Spot, found: &Found) -> Result<KnownNumber, RangeFault>
    ensures { Gives kept_view result (kept_found spot (found_view found.now)) }
{
    match found {
        Found::Known { number } => constant(spot.outer, *number),
        Found::KnownSlice {
            is_signed,
            bits,
            width,
        } => constant(spot.outer, slice_number(*is_signed, *width, *bits)),
        Found::Read {
            is_signed,
            width,
            ..
        } => varying(spot.outer, slice_span(*is_signed, *width)),
        Found::Handed { width, .. } => varying(spot.outer, slice_span(false, *width)),
        Found::Bit { .. } => Ok(KnownNumber::Varying(unsigned_span(1))),
        Found::Within { span, .. } => Ok(KnownNumber::Varying(*span)),
        Found::Wide { .. } => Err(RangeFault::TooWide { place: spot.outer }),
        Found::Loose { .. } => Err(RangeFault::TooWide { place: spot.inner }),
    }
}

/// The interval of what is kept.
pub fn kept_span(kept: KnownNumber) -> Span
    ensures { result ≡ kept_span (kept_view kept) }
{
    match kept {
        KnownNumber::Constant(number) => between(number, number),
        KnownNumber::Varying(span) => span,
    }
}

fn constant_joined(place: Place, number: Option<i128>) -> Result<KnownNumber, RangeFault>
    ensures { Gives kept_view result (or_too_wide place (option_map (λ z. known.constant z)
        number)) }
{
    match number {
        Some(number) => Ok(KnownNumber::Constant(number)),
        None => Err(RangeFault::TooWide { place }),
    }
}

fn mixed(
    place: Place,
    op: BinaryOp,
    first: KnownNumber,
    second: KnownNumber,
) -> Result<KnownNumber, RangeFault>
    ensures { Gives kept_view result (or_too_wide place (option_map (λ i. known.varying i)
        (binary_span op (kept_span (kept_view first)) (kept_span (kept_view second))))) }
{
    varying(place, binary_span(op, kept_span(first), kept_span(second)))
}

/// What an operator that is no shift makes of two operands. TooWide where the result does not fit.
pub fn kept_joined(
    spot: Spot,
    op: BinaryOp,
    first: KnownNumber,
    second: KnownNumber,
) -> Result<KnownNumber, RangeFault>
    ensures { Gives kept_view result (kept_joined spot op (kept_view first) (kept_view second)) }
{
    match (first, second) {
        (KnownNumber::Constant(y), KnownNumber::Constant(z)) => {
            constant_joined(spot.inner, binary_result(op, y, z))
        }
        (KnownNumber::Constant(_), KnownNumber::Varying(_)) => mixed(spot.inner, op, first, second),
        (KnownNumber::Varying(_), _) => mixed(spot.inner, op, first, second),
    }
}

/// Whether an expression is an operator of two operands that is no shift.
pub fn is_joined(expr: &ResolvedExpr) -> bool
    ensures { result ≡ is_joined (expr_of expr.now) }
{
    match expr {
        ResolvedExpr::Binary { op, .. } => !is_shift(*op),
        _ => false,
    }
}

/// What a condition says that no script keeps.
pub fn condition_by(alloc: Global, kept: KnownNumber) -> Result<Box<Decision>, AllocError>
    ensures { IfOk result (λ d. decision_view d.value ≡ condition_by (kept_view kept)) }
{
    let decision = match kept {
        KnownNumber::Constant(number) => Decision::Always(number),
        KnownNumber::Varying(_) => Decision::Tested {
            word: Box::new(alloc, Word::Variable { variable: 0 })?,
        },
    };
    Ok(Box::new(alloc, decision)?)
}

/// The state after a number that is no move. TooWide where more than 128 bits are written.
pub fn filled(
    place: Place,
    goal: Goal,
    kept: KnownNumber,
    state: Box<WalkState>,
) -> Result<Box<WalkState>, RangeFault>
    ensures { Gives (λ w. state_view w.value) result (filled place (goal_view goal) (kept_view kept)
        (state_view state.value)) }
{
    match kept {
        KnownNumber::Constant(_) => Ok(state),
        KnownNumber::Varying(_) => {
            if goal.bits.width <= 128 {
                Ok(state)
            } else {
                Err(RangeFault::TooWide { place })
            }
        }
    }
}
