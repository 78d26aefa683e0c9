//! Statements, in the order in which they run.

ghost use Rattle.std.specs.Prelude.{◌≡◌, IfSome, ◌<◌, map};
ghost use Rattle.std.specs.Option.{option_map};
ghost use Rattle.vg_interval.specs.Judge.{judge, spot_of};
ghost use Rattle.vg_interval.specs.Views.{Gives, count_view, kept_view};
ghost use Rattle.vg_names.specs.Views.{code_view, expr_of, target_view};
ghost use Rattle.vg_pseudo.specs.Resolved as node;
ghost use Rattle.vg_script.specs.Views.{number_of, word_of};
ghost use Rattle.vg_range.specs.Estimates.{decided_at, way_behind};
ghost use Rattle.vg_range.specs.Steps.{arms_found, arms_picked, arms_view, first_arm, first_way, last_at, way_step_view, picked, rest_arms, selector_view, rest_ways, turn_at, turns_through, ways_view};
ghost use Rattle.vg_range.specs.Seen.{choose_at, context_view, first_of, goal_view, pick_at, repeat_at, rest_code, sight_view, skip_at, state_view, whole_goal};
ghost use Rattle.vg_range.specs.Walk.{assign_at, beginning, constant_at, goal_at, walk};
ghost use Rattle.vg_range.specs.Weight.{code_weight};

use crate::arms::{Arms, arm_of, no_arms, one_arm_more, picked_by};
use crate::beginning::{beginning, turns_within};
use crate::decision::Decision;
use crate::estimating::decided;
use crate::folding::constant_number;
use crate::giving::{given, given_unwritten};
use crate::goal::{Goal, constant_index};
use crate::judging::judge;
use crate::selector::Selector;
use crate::spots::spot_of;
use crate::turns::{first_turn, next_turn};
use crate::uses::selector_in;
use crate::walk_context::{WalkContext, width_in};
use crate::walk_state::{WalkState, at_count};
use crate::ways::{WayStep, Ways, closed, no_ways, one_way_more};
use std::alloc::Global;
use vg_interval::slices::{bits_between, bits_of_element, index_of};
use vg_interval::whole_numbers::whole;
use vg_interval::{Count, RangeFault};
use vg_names::{Code, ResolvedExpr, Target};
use vg_script::{WholeNumber, Word};
use vg_text::Place;

/// An expression that has to be constant, and the state after it. DynamicIndex where it is not.
#[inline(never)]
#[cycle(judging)]
#[tactic(auto, using(crate::proofs::Folded::settled_at))]
fn settled(
    alloc: Global,
    context: &WalkContext,
    state: Box<WalkState>,
    expr: &ResolvedExpr,
) -> Result<(WholeNumber, Box<WalkState>), RangeFault>
    ensures { Gives (λ z. (number_of z.0, state_view z.1.value)) result
        (constant_at (context_view context.now) (state_view state.value) (expr_of expr.now)) }
{
    if let Some(number) = constant_number(context, state.numbers.as_slice(), expr) {
        return Ok((whole(number), state));
    }
    let (found, count) = judge(alloc, context, state.numbers.as_slice(), expr, state.count)?;
    let index = index_of(alloc, spot_of(expr), Box::into_inner(found))?;
    let number = constant_index(spot_of(expr).outer, index)?;
    Ok((number, at_count(state, count)))
}

/// The target `name[high:low]`
#[inline(never)]
#[cycle(judging)]
fn bits_goal(
    alloc: Global,
    context: &WalkContext,
    place: Place,
    state: Box<WalkState>,
    register: usize,
    high: &ResolvedExpr,
    low: &ResolvedExpr,
) -> Result<(Option<Goal>, Box<WalkState>), RangeFault>
    ensures { Gives (λ g. (option_map goal_view g.0, state_view g.1.value)) result (goal_at
        (context_view context.now) place (state_view state.value) (node.bits register (expr_of
        high.now) (expr_of low.now))) }
{
    let (last, state) = settled(alloc, context, state, high)?;
    let (first, state) = settled(alloc, context, state, low)?;
    let bits = bits_between(place, width_in(context, register), last, first)?;
    Ok((Some(Goal { register, bits }), state))
}

/// An element as a target.
#[inline(never)]
#[cycle(judging)]
fn lane_goal(
    alloc: Global,
    context: &WalkContext,
    place: Place,
    state: Box<WalkState>,
    register: usize,
    size: u32,
    index: &ResolvedExpr,
) -> Result<(Option<Goal>, Box<WalkState>), RangeFault>
    ensures { Gives (λ g. (option_map goal_view g.0, state_view g.1.value)) result (goal_at
        (context_view context.now) place (state_view state.value) (node.lane register size (expr_of
        index.now))) }
{
    let (index, state) = settled(alloc, context, state, index)?;
    let all = width_in(context, register);
    let bits = bits_of_element(place, all, size as u128, index)?;
    Ok((Some(Goal { register, bits }), state))
}

#[inline(never)]
fn whole_goal(
    context: &WalkContext,
    place: Place,
    register: usize,
    size: u128,
) -> Result<Goal, RangeFault>
    ensures { Gives goal_view result (whole_goal (context_view context.now) place register size) }
{
    let all = width_in(context, register);
    let bits = bits_of_element(place, all, size, WholeNumber::Natural(0))?;
    Ok(Goal { register, bits })
}

/// The bits that a target stands for, none where it is a number variable.
#[inline(never)]
#[cycle(judging)]
fn goal_at(
    alloc: Global,
    context: &WalkContext,
    place: Place,
    state: Box<WalkState>,
    target: &Target,
) -> Result<(Option<Goal>, Box<WalkState>), RangeFault>
    ensures { Gives (λ g. (option_map goal_view g.0, state_view g.1.value)) result (goal_at
        (context_view context.now) place (state_view state.value) (target_view target.now)) }
{
    match target {
        Target::Bits {
            register,
            high,
            low,
        } => bits_goal(alloc, context, place, state, *register, high, low),
        Target::Lane {
            register,
            size,
            index,
        } => lane_goal(alloc, context, place, state, *register, *size, index),
        Target::Whole { register, size } => {
            let goal = whole_goal(context, place, *register, *size)?;
            Ok((Some(goal), state))
        }
        Target::Number { variable: _ } => Ok((None, state)),
    }
}

/// An assignment.
#[inline(never)]
#[cycle(judging)]
fn assign_at(
    alloc: Global,
    context: &WalkContext,
    place: Place,
    target: &Target,
    value: &ResolvedExpr,
    state: Box<WalkState>,
) -> Result<Box<WalkState>, RangeFault>
    ensures { Gives (λ w. state_view w.value) result (assign_at (context_view context.now) place
        (target_view target.now) (expr_of value.now) (state_view state.value)) }
{
    let count = state.count.step(place)?;
    let (goal, state) = goal_at(alloc, context, place, at_count(state, count), target)?;
    if context.is_kept {
        given(alloc, context, target, goal, value, state)
    } else {
        given_unwritten(alloc, context, target, goal, value, state)
    }
}

#[inline(never)]
fn skip_at(place: Place, state: Box<WalkState>) -> Result<Box<WalkState>, RangeFault>
    ensures { Gives (λ w. state_view w.value) result (skip_at place (state_view state.value)) }
{
    let count = state.count.step(place)?;
    Ok(at_count(state, count))
}

/// What stands after the first of these statements; none where there is no statement.
fn behind_first(code: &Code) -> Option<&Code>
    ensures is { option_map (λ c. code_view c.now) result ≡ rest_code (code_view code.now) }
    ensures inside { IfSome result (λ c. code_weight (code_view c.now) < code_weight (code_view
        code.now)) }
{
    match code {
        Code::Assign { rest, .. } => Some(rest),
        Code::Skip { rest, .. } => Some(rest),
        Code::Repeat { rest, .. } => Some(rest),
        Code::Choose { rest, .. } => Some(rest),
        Code::Pick { rest, .. } => Some(rest),
        _ => None,
    }
}

/// A turn of a FOR, which is a step.
#[inline(never)]
#[cycle(judging)]
fn turn_at(
    alloc: Global,
    context: &WalkContext,
    place: Place,
    body: &Code,
    turn: WholeNumber,
    state: Box<WalkState>,
) -> Result<Box<WalkState>, RangeFault>
    ensures { Gives (λ w. state_view w.value) result (turn_at (context_view context.now) place
        (code_view body.now) (number_of turn) (state_view state.value)) }
{
    let count = state.count.step(place)?;
    let turns = turns_within(alloc, turn, context.turns)?;
    let inner = WalkContext {
        widths: context.widths,
        constants: context.constants,
        turns: turns.as_slice(),
        functions: context.functions,
        is_kept: context.is_kept,
        written: context.written,
    };
    walk(alloc, &inner, body, at_count(state, count))
}

/// The turns of a FOR from the first to the last, in a loop.
#[inline(never)]
#[cycle(judging)]
fn turns_through(
    alloc: Global,
    context: &WalkContext,
    place: Place,
    body: &Code,
    first: WholeNumber,
    last: WholeNumber,
    state: Box<WalkState>,
) -> Result<Box<WalkState>, RangeFault>
    ensures { Gives (λ w. state_view w.value) result (turns_through (context_view context.now) place
        (code_view body.now) (number_of first) (number_of last) (state_view state.value)) }
{
    let mut left = first_turn(first, last);
    let mut state = state;
    'turns: loop {
        match left {
            None => return Ok(state),
            Some(turn) => {
                state = turn_at(alloc, context, place, body, turn, state)?;
                left = next_turn(turn, last);
            }
        }
    }
}

/// A FOR.
#[inline(never)]
#[cycle(judging)]
fn repeat_at(
    alloc: Global,
    context: &WalkContext,
    place: Place,
    first: &ResolvedExpr,
    last: &ResolvedExpr,
    body: &Code,
    state: Box<WalkState>,
) -> Result<Box<WalkState>, RangeFault>
    ensures { Gives (λ w. state_view w.value) result (repeat_at (context_view context.now) place
        (expr_of first.now) (expr_of last.now) (code_view body.now) (state_view state.value)) }
{
    let (one, state) = settled(alloc, context, state, first)?;
    let (other, state) = settled(alloc, context, state, last)?;
    turns_through(alloc, context, place, body, one, other, state)
}

/// What a way or an arm that begins here does.
#[inline(never)]
#[cycle(judging)]
fn walk_apart(
    alloc: Global,
    context: &WalkContext,
    state: &WalkState,
    body: &Code,
    count: Count,
) -> Result<Box<WalkState>, RangeFault>
    ensures { Gives (λ w. state_view w.value) result (walk (context_view context.now) (code_view
        body.now) (beginning (state_view state.now) (count_view count))) }
{
    let begun = beginning(alloc, state, count)?;
    walk(alloc, context, body, begun)
}

/// A way by its condition and its body.
#[inline(never)]
#[cycle(judging)]
fn way_at(
    alloc: Global,
    context: &WalkContext,
    state: &WalkState,
    condition: &ResolvedExpr,
    body: &Code,
    found: Box<Ways>,
    count: Count,
) -> Result<WayStep, RangeFault>
    ensures { Gives way_step_view result (way_behind (context_view context.now) (code_view body.now)
        (state_view state.now) (ways_view found.value) (decided_at context.now.is_kept (spot_of
        (expr_of condition.now)) (judge (sight_view context.now) (map kept_view
        state.now.numbers.items) (expr_of condition.now) (count_view count)))) }
{
    let (condition, count) = decided(alloc, context, state.numbers.as_slice(), condition, count)?;
    match Box::into_inner(condition) {
        Decision::Always(z) => {
            if z == 0 {
                Ok(WayStep::Further { found, count })
            } else {
                let last = walk_apart(alloc, context, state, body, count)?;
                Ok(WayStep::Final { found, last })
            }
        }
        Decision::Tested { word } => {
            let taken = walk_apart(alloc, context, state, body, count)?;
            let count = taken.count;
            let found = one_way_more(alloc, context, word, taken, found)?;
            Ok(WayStep::Further { found, count })
        }
    }
}

/// What the last way does, or nothing where there is none.
#[inline(never)]
#[cycle(judging)]
fn last_at(
    alloc: Global,
    context: &WalkContext,
    state: &WalkState,
    code: &Code,
    count: Count,
) -> Result<Box<WalkState>, RangeFault>
    ensures { Gives (λ w. state_view w.value) result (last_at (context_view context.now) (code_view
        code.now) (state_view state.now) (count_view count)) }
{
    match code {
        Code::Last { body } => walk_apart(alloc, context, state, body, count),
        _ => Ok(beginning(alloc, state, count)?),
    }
}

/// The first of these ways.
#[inline(never)]
#[cycle(judging)]
fn first_way(
    alloc: Global,
    context: &WalkContext,
    state: &WalkState,
    code: &Code,
    found: Box<Ways>,
    count: Count,
) -> Result<WayStep, RangeFault>
    ensures { Gives way_step_view result (first_way (context_view context.now) (code_view code.now)
        (state_view state.now) (ways_view found.value) (count_view count)) }
{
    match code {
        Code::Way {
            condition,
            body,
            ways: _,
        } => way_at(alloc, context, state, condition, body, found, count),
        _ => {
            let last = last_at(alloc, context, state, code, count)?;
            Ok(WayStep::Final { found, last })
        }
    }
}

/// The ways after the first of these; none where there is no way.
fn behind_way(code: &Code) -> Option<&Code>
    ensures is { option_map (λ c. code_view c.now) result ≡ rest_ways (code_view code.now) }
    ensures inside { IfSome result (λ c. code_weight (code_view c.now) < code_weight (code_view
        code.now)) }
{
    match code {
        Code::Way { ways, .. } => Some(ways),
        _ => None,
    }
}

/// An IF, way by way in a loop, since there may be many.
#[inline(never)]
#[cycle(judging)]
fn choose_at(
    alloc: Global,
    context: &WalkContext,
    ways: &Code,
    state: Box<WalkState>,
) -> Result<Box<WalkState>, RangeFault>
    ensures { Gives (λ w. state_view w.value) result (choose_at (context_view context.now)
        (code_view ways.now) (state_view state.value)) }
{
    let mut found = no_ways(alloc)?;
    let mut count = state.count;
    let mut left = ways;
    'ways: loop {
        match behind_way(left) {
            None => {
                let last = last_at(alloc, context, &state, left, count)?;
                return Ok(closed(alloc, context, state, found, last)?);
            }
            Some(others) => match first_way(alloc, context, &state, left, found, count)? {
                WayStep::Final { found: all, last } => {
                    return Ok(closed(alloc, context, state, all, last)?);
                }
                WayStep::Further {
                    found: more,
                    count: behind,
                } => {
                    found = more;
                    count = behind;
                    left = others;
                }
            },
        }
    }
}

/// The first of these arms, after those found so far.
#[inline(never)]
#[cycle(judging)]
fn first_arm(
    alloc: Global,
    context: &WalkContext,
    state: &WalkState,
    code: &Code,
    found: Box<Arms>,
    count: Count,
) -> Result<(Box<Arms>, Count), RangeFault>
    ensures { Gives (λ g. (arms_view g.0.value, count_view g.1)) result (first_arm (context_view
        context.now) (code_view code.now) (state_view state.now) (arms_view found.value) (count_view
        count)) }
{
    match code {
        Code::Arm {
            number,
            body,
            arms: _,
        } => {
            let taken = walk_apart(alloc, context, state, body, count)?;
            let count = taken.count;
            let found = one_arm_more(alloc, context, *number, taken, found)?;
            Ok((found, count))
        }
        _ => Ok((found, count)),
    }
}

/// The arms after the first of these; none where there is no arm.
fn behind_arm(code: &Code) -> Option<&Code>
    ensures is { option_map (λ c. code_view c.now) result ≡ rest_arms (code_view code.now) }
    ensures inside { IfSome result (λ c. code_weight (code_view c.now) < code_weight (code_view
        code.now)) }
{
    match code {
        Code::Arm { arms, .. } => Some(arms),
        _ => None,
    }
}

/// The arms of a CASE that may be taken, in a loop, since there may be many.
#[inline(never)]
#[cycle(judging)]
fn arms_found(
    alloc: Global,
    context: &WalkContext,
    arms: &Code,
    state: &WalkState,
) -> Result<(Box<Arms>, Count), RangeFault>
    ensures { Gives (λ g. (arms_view g.0.value, count_view g.1)) result
        (arms_found (context_view context.now) (code_view arms.now) (state_view state.now)) }
{
    let mut found = no_arms(alloc, state)?;
    let mut count = state.count;
    let mut left = arms;
    'arms: loop {
        match behind_arm(left) {
            None => return Ok((found, count)),
            Some(others) => {
                let (more, behind) = first_arm(alloc, context, state, left, found, count)?;
                found = more;
                count = behind;
                left = others;
            }
        }
    }
}

/// A CASE whose selector is not constant.
#[inline(never)]
#[cycle(judging)]
fn arms_picked(
    alloc: Global,
    context: &WalkContext,
    arms: &Code,
    selector: Box<Word>,
    state: Box<WalkState>,
) -> Result<Box<WalkState>, RangeFault>
    ensures { Gives (λ w. state_view w.value) result (arms_picked (context_view context.now)
        (code_view arms.now) (word_of selector.value) (state_view state.value)) }
{
    let (found, count) = arms_found(alloc, context, arms, &state)?;
    Ok(picked_by(alloc, context, selector, state, found, count)?)
}

/// A CASE by its selector: a constant takes one arm, else all are looked at.
#[inline(never)]
#[cycle(judging)]
fn picked(
    alloc: Global,
    context: &WalkContext,
    arms: &Code,
    state: Box<WalkState>,
    selector: Selector,
) -> Result<Box<WalkState>, RangeFault>
    ensures { Gives (λ w. state_view w.value) result (picked (context_view context.now) (code_view
        arms.now) (state_view state.value) (selector_view selector)) }
{
    match selector {
        Selector::Fixed(number) => match arm_of(number, arms) {
            Some(body) => walk(alloc, context, body, state),
            None => Ok(state),
        },
        Selector::Moving { span: _, word } => arms_picked(alloc, context, arms, word, state),
    }
}

/// A CASE.
#[inline(never)]
#[cycle(judging)]
fn pick_at(
    alloc: Global,
    context: &WalkContext,
    selector: &ResolvedExpr,
    arms: &Code,
    state: Box<WalkState>,
) -> Result<Box<WalkState>, RangeFault>
    ensures { Gives (λ w. state_view w.value) result (pick_at (context_view context.now) (expr_of
        selector.now) (code_view arms.now) (state_view state.value)) }
{
    let (found, count) = judge(
        alloc,
        context,
        state.numbers.as_slice(),
        selector,
        state.count,
    )?;
    let selector = selector_in(alloc, selector, found)?;
    let state = at_count(state, count);
    picked(alloc, context, arms, state, Box::into_inner(selector))
}

/// The first of these statements alone.
#[inline(never)]
#[cycle(judging)]
fn first_of(
    alloc: Global,
    context: &WalkContext,
    code: &Code,
    state: Box<WalkState>,
) -> Result<Box<WalkState>, RangeFault>
    ensures { Gives (λ w. state_view w.value) result (first_of (context_view context.now) (code_view
        code.now) (state_view state.value)) }
{
    match code {
        Code::Assign {
            place,
            target,
            value,
            rest: _,
        } => assign_at(alloc, context, *place, target, value, state),
        Code::Skip { place, rest: _ } => skip_at(*place, state),
        Code::Repeat {
            place,
            first,
            last,
            body,
            rest: _,
        } => repeat_at(alloc, context, *place, first, last, body, state),
        Code::Choose { ways, rest: _ } => choose_at(alloc, context, ways, state),
        Code::Pick {
            selector,
            arms,
            rest: _,
        } => pick_at(alloc, context, selector, arms, state),
        _ => Ok(state),
    }
}

/// Statements from where a walk stands on: where it stands after them, or their first fault. Along
/// the list in a loop, since it may be long.
#[cycle(judging)]
pub fn walk(
    alloc: Global,
    context: &WalkContext,
    code: &Code,
    state: Box<WalkState>,
) -> Result<Box<WalkState>, RangeFault>
    ensures { Gives (λ w. state_view w.value) result (walk (context_view context.now) (code_view
        code.now) (state_view state.value)) }
{
    let mut state = state;
    let mut left = code;
    'statements: loop {
        match behind_first(left) {
            None => return Ok(state),
            Some(rest) => {
                state = first_of(alloc, context, left, state)?;
                left = rest;
            }
        }
    }
}
