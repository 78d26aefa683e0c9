//! What assignments do.

ghost use Rattle.std.specs.Prelude.{◌≡◌, None};
ghost use Rattle.std.specs.Option.{option_map};
ghost use Rattle.vg_interval.specs.Views.{Gives, found_view, kept_view};
ghost use Rattle.vg_names.specs.Views.{target_view};
ghost use Rattle.vg_pseudo.specs.Resolved.{number};
ghost use Rattle.vg_range.specs.Seen.{context_view, goal_view, number_set, state_view};
ghost use Rattle.vg_range.specs.Walk.{assigned, target_number};

use crate::goal::{Goal, kept_of, stored};
use crate::walk_context::WalkContext;
use crate::walk_state::{WalkState, with_script};
use std::alloc::Global;
use vg_interval::operands::operand;
use vg_interval::{Found, KnownNumber, RangeFault};
use vg_names::Target;
use vg_pseudo::Spot;
use vg_script::make_give;

/// The number variable that a target is, 0 where it is none.
pub fn target_number(target: &Target) -> usize
    ensures { result ≡ target_number (target_view target.now) }
{
    match target {
        Target::Number { variable } => *variable,
        _ => 0,
    }
}

/// The state where this is known of a number variable.
#[inline(never)]
#[tactic(auto, using(crate::proofs::Lists::view_set, crate::proofs::Lists::view_set_past))]
pub fn with_number(state: Box<WalkState>, variable: usize, kept: KnownNumber) -> Box<WalkState>
    ensures { state_view result.value ≡ number_set (state_view state.value) variable (kept_view
        kept) }
{
    let mut state = state;
    if variable < state.numbers.len() {
        state.numbers[variable] = kept;
    }
    state
}

#[inline(never)]
fn number_assigned(
    alloc: Global,
    context: &WalkContext,
    spot: Spot,
    variable: usize,
    found: Found,
    state: Box<WalkState>,
) -> Result<Box<WalkState>, RangeFault>
    ensures { Gives (λ w. state_view w.value) result (assigned (context_view context.now) spot
        (number variable) None (found_view found) (state_view state.value)) }
{
    let operand = operand(alloc, spot, found)?;
    let state = with_number(state, variable, kept_of(&operand));
    let script = make_give(alloc, variable, operand.into_word())?;
    Ok(with_script(alloc, context, script, state)?)
}

/// An assignment of what its right side gives, at its spot, to the bits that are its goal, or to a
/// number variable.
#[inline(never)]
pub fn assigned(
    alloc: Global,
    context: &WalkContext,
    spot: Spot,
    target: &Target,
    goal: Option<Goal>,
    found: Found,
    state: Box<WalkState>,
) -> Result<Box<WalkState>, RangeFault>
    ensures { Gives (λ w. state_view w.value) result (assigned (context_view context.now) spot
        (target_view target.now) (option_map goal_view goal) (found_view found) (state_view
        state.value)) }
{
    match goal {
        Some(goal) => {
            let script = stored(alloc, spot, goal, found)?;
            Ok(with_script(alloc, context, script, state)?)
        }
        None => number_assigned(alloc, context, spot, target_number(target), found, state),
    }
}
