//! What assignments give their targets.

ghost use Rattle.std.specs.Prelude.{◌≡◌, false};
ghost use Rattle.std.specs.Option.{option_map};
ghost use Rattle.vg_interval.specs.Views.{Gives};
ghost use Rattle.vg_names.specs.Views.{expr_of, target_view};
ghost use Rattle.vg_range.specs.Estimates.{estimate_filled, estimate_set, given_at};
ghost use Rattle.vg_range.specs.Seen.{context_view, goal_view, state_view};

use crate::assigning::{assigned, target_number, with_number};
use crate::estimates::{filled, is_joined};
use crate::estimating::estimate;
use crate::folding::constant_number;
use crate::goal::Goal;
use crate::judging::judge;
use crate::spots::spot_of;
use crate::walk_context::WalkContext;
use crate::walk_state::{WalkState, at_count};
use std::alloc::Global;
use vg_interval::whole_numbers::whole;
use vg_interval::{Found, KnownNumber, RangeFault};
use vg_names::{ResolvedExpr, Target};

/// What an expression gives the bits that are its goal, or a number variable.
#[inline(never)]
#[cycle(judging)]
#[tactic(auto, using(crate::proofs::Folded::given_is))]
pub fn given(
    alloc: Global,
    context: &WalkContext,
    target: &Target,
    goal: Option<Goal>,
    value: &ResolvedExpr,
    state: Box<WalkState>,
) -> Result<Box<WalkState>, RangeFault>
    ensures { Gives (λ w. state_view w.value) result (given_at (context_view context.now)
        (target_view target.now) (option_map goal_view goal) (expr_of value.now) (state_view
        state.value)) }
{
    if let Some(number) = constant_number(context, state.numbers.as_slice(), value) {
        let found = Found::Known {
            number: whole(number),
        };
        return assigned(alloc, context, spot_of(value), target, goal, found, state);
    }
    let (found, count) = judge(alloc, context, state.numbers.as_slice(), value, state.count)?;
    let state = at_count(state, count);
    assigned(
        alloc,
        context,
        spot_of(value),
        target,
        goal,
        Box::into_inner(found),
        state,
    )
}

/// What an expression gives a number variable, where no script is kept.
#[inline(never)]
#[cycle(judging)]
#[tactic(auto, using(crate::proofs::Folded::number_is))]
fn number_given(
    alloc: Global,
    context: &WalkContext,
    variable: usize,
    value: &ResolvedExpr,
    state: Box<WalkState>,
) -> Result<Box<WalkState>, RangeFault>
    ensures { Gives (λ w. state_view w.value) result (estimate_set (context_view context.now)
        variable (expr_of value.now) (state_view state.value)) }
{
    if let Some(number) = constant_number(context, state.numbers.as_slice(), value) {
        return Ok(with_number(state, variable, KnownNumber::Constant(number)));
    }
    let (kept, count) = estimate(alloc, context, state.numbers.as_slice(), value, state.count)?;
    let state = at_count(state, count);
    Ok(with_number(state, variable, kept))
}

/// What an operator that is no shift gives bits, where no script is kept.
#[inline(never)]
#[cycle(judging)]
fn bits_given(
    alloc: Global,
    context: &WalkContext,
    goal: Goal,
    value: &ResolvedExpr,
    state: Box<WalkState>,
) -> Result<Box<WalkState>, RangeFault>
    ensures { Gives (λ w. state_view w.value) result (estimate_filled (context_view context.now)
        (goal_view goal) (expr_of value.now) (state_view state.value)) }
{
    let (kept, count) = estimate(alloc, context, state.numbers.as_slice(), value, state.count)?;
    filled(spot_of(value).outer, goal, kept, at_count(state, count))
}

/// The same as what is given with a script, where none is kept.
#[inline(never)]
#[cycle(judging)]
pub fn given_unwritten(
    alloc: Global,
    context: &WalkContext,
    target: &Target,
    goal: Option<Goal>,
    value: &ResolvedExpr,
    state: Box<WalkState>,
) -> Result<Box<WalkState>, RangeFault>
    requires { context.now.is_kept ≡ false }
    ensures { Gives (λ w. state_view w.value) result (given_at (context_view context.now)
        (target_view target.now) (option_map goal_view goal) (expr_of value.now) (state_view
        state.value)) }
{
    match goal {
        None => number_given(alloc, context, target_number(target), value, state),
        Some(goal) => {
            if is_joined(value) {
                bits_given(alloc, context, goal, value, state)
            } else {
                given(alloc, context, target, Some(goal), value, state)
            }
        }
    }
}
