//! What is known of operands but for their words, found in the order of the text. A tree of operators that are no shifts
//! is gone through without a word; what else stands in it is judged, and its word left.

ghost use Rattle.std.specs.Prelude.{◌≡◌, map};
ghost use Rattle.vg_interval.specs.Judge.{element_at, judge, settled, slice_at, spot_of};
ghost use Rattle.vg_interval.specs.Views.{Gives, count_view, kept_view};
ghost use Rattle.vg_names.specs.Views.{expr_of};
ghost use Rattle.vg_pseudo.specs.Resolved as node;
ghost use Rattle.vg_range.specs.Estimates.{decided_at, estimate_of, joined_estimate};
ghost use Rattle.vg_range.specs.Seen.{decision_view, sight_view};

use crate::decision::Decision;
use crate::estimates::{condition_by, kept_found, kept_joined};
use crate::folding::constant_number;
use crate::judging::{judge, slice_of, tested};
use crate::spots::spot_of;
use crate::walk_context::WalkContext;
use std::alloc::Global;
use vg_interval::binary_uses::is_shift;
use vg_interval::moving::{element_at, slice_at};
use vg_interval::whole_numbers::whole;
use vg_interval::{Count, Index, KnownNumber, RangeFault};
use vg_names::ResolvedExpr;
use vg_pseudo::{BinaryOp, Spot};

/// What is known of an expression as an operand but for its word, given what is known of the number
/// variables, and the counts after it; or its first fault.
#[cycle(judging)]
#[tactic(auto, using(crate::proofs::Folded::element_is))]
pub fn estimate(
    alloc: Global,
    context: &WalkContext,
    numbers: &[KnownNumber],
    expr: &ResolvedExpr,
    count: Count,
) -> Result<(KnownNumber, Count), RangeFault>
    ensures { Gives (λ k. (kept_view k.0, count_view k.1)) result (estimate_of (spot_of (expr_of
        expr.now)) (judge (sight_view context.now) (map kept_view numbers.now) (expr_of expr.now)
        (count_view count))) }
{
    match expr {
        ResolvedExpr::Slice {
            spot,
            is_signed,
            register,
            spread,
            high,
            low,
        } => slice(
            alloc, context, numbers, spot, *is_signed, *register, spread, high, low, count,
        ),
        ResolvedExpr::Binary {
            spot,
            op,
            left,
            right,
        } => {
            if is_shift(*op) {
                judged(alloc, context, numbers, expr, count)
            } else {
                joined(alloc, context, numbers, spot, *op, left, right, count)
            }
        }
        ResolvedExpr::Element {
            spot,
            is_signed,
            register,
            size,
            index,
        } => match constant_number(context, numbers, index) {
            Some(number) => element_at_constant(
                alloc, context, spot, *is_signed, *register, *size, number, count,
            ),
            None => judged(alloc, context, numbers, expr, count),
        },
        _ => judged(alloc, context, numbers, expr, count),
    }
}

/// An element by an index that is a constant.
#[inline(never)]
#[tactic(auto, using(crate::proofs::Lists::seen_element))]
fn element_at_constant(
    alloc: Global,
    context: &WalkContext,
    spot: &Spot,
    is_signed: bool,
    register: usize,
    size: u32,
    index: i128,
    count: Count,
) -> Result<(KnownNumber, Count), RangeFault>
    ensures { Gives (λ k. (kept_view k.0, count_view k.1)) result (estimate_of spot.now (element_at
        (sight_view context.now) spot.now.inner is_signed register size (settled index)
        (count_view count))) }
{
    let (found, count) = element_at(
        alloc,
        context.widths,
        context.constants,
        spot.inner,
        is_signed,
        register,
        size as u128,
        Index::Settled(whole(index)),
        count,
    )?;
    let kept = kept_found(*spot, &found)?;
    Ok((kept, count))
}

/// What is judged, without its word.
#[inline(never)]
#[cycle(judging)]
fn judged(
    alloc: Global,
    context: &WalkContext,
    numbers: &[KnownNumber],
    expr: &ResolvedExpr,
    count: Count,
) -> Result<(KnownNumber, Count), RangeFault>
    ensures { Gives (λ k. (kept_view k.0, count_view k.1)) result (estimate_of (spot_of (expr_of
        expr.now)) (judge (sight_view context.now) (map kept_view numbers.now) (expr_of expr.now)
        (count_view count))) }
{
    let (found, count) = judge(alloc, context, numbers, expr, count)?;
    let kept = kept_found(spot_of(expr), &found)?;
    Ok((kept, count))
}

/// A slice by two indices that are constants.
#[inline(never)]
#[tactic(auto, using(crate::proofs::Lists::seen_slice))]
fn slice_at_numbers(
    alloc: Global,
    context: &WalkContext,
    spot: &Spot,
    is_signed: bool,
    register: usize,
    spread: &Option<u128>,
    high: i128,
    low: i128,
    count: Count,
) -> Result<(KnownNumber, Count), RangeFault>
    ensures { Gives (λ k. (kept_view k.0, count_view k.1)) result (estimate_of spot.now (slice_at
        (sight_view context.now) spot.now.inner is_signed register spread.now (settled high)
        (settled low) (count_view count))) }
{
    let (found, count) = slice_at(
        alloc,
        context.widths,
        context.constants,
        spot.inner,
        is_signed,
        register,
        *spread,
        Index::Settled(whole(high)),
        Index::Settled(whole(low)),
        count,
    )?;
    let kept = kept_found(*spot, &found)?;
    Ok((kept, count))
}

/// `name[high:low]`
#[inline(never)]
#[cycle(judging)]
#[tactic(auto, using(crate::proofs::Folded::slice_is))]
fn slice(
    alloc: Global,
    context: &WalkContext,
    numbers: &[KnownNumber],
    spot: &Spot,
    is_signed: bool,
    register: usize,
    spread: &Option<u128>,
    high: &ResolvedExpr,
    low: &ResolvedExpr,
    count: Count,
) -> Result<(KnownNumber, Count), RangeFault>
    ensures { Gives (λ k. (kept_view k.0, count_view k.1)) result (estimate_of spot.now (judge
        (sight_view context.now) (map kept_view numbers.now) (node.slice spot.now is_signed register
        spread.now (expr_of high.now) (expr_of low.now)) (count_view count))) }
{
    if let Some(last) = constant_number(context, numbers, high) {
        if let Some(first) = constant_number(context, numbers, low) {
            return slice_at_numbers(
                alloc, context, spot, is_signed, register, spread, last, first, count,
            );
        }
    }
    let (found, count) = slice_of(
        alloc, context, numbers, spot, is_signed, register, spread, high, low, count,
    )?;
    let kept = kept_found(*spot, &found)?;
    Ok((kept, count))
}

/// An operator that is no shift.
#[inline(never)]
#[cycle(judging)]
fn joined(
    alloc: Global,
    context: &WalkContext,
    numbers: &[KnownNumber],
    spot: &Spot,
    op: BinaryOp,
    left: &ResolvedExpr,
    right: &ResolvedExpr,
    count: Count,
) -> Result<(KnownNumber, Count), RangeFault>
    ensures { Gives (λ k. (kept_view k.0, count_view k.1)) result (joined_estimate (sight_view
        context.now) (map kept_view numbers.now) spot.now op (expr_of left.now) (expr_of right.now)
        (count_view count)) }
{
    let (first, count) = estimate(alloc, context, numbers, left, count)?;
    let (second, count) = estimate(alloc, context, numbers, right, count)?;
    let kept = kept_joined(*spot, op, first, second)?;
    Ok((kept, count))
}

/// What a condition says, and the counts after it; its word only where scripts are kept.
#[inline(never)]
#[cycle(judging)]
#[tactic(auto, using(crate::proofs::Folded::decided_is))]
pub fn decided(
    alloc: Global,
    context: &WalkContext,
    numbers: &[KnownNumber],
    expr: &ResolvedExpr,
    count: Count,
) -> Result<(Box<Decision>, Count), RangeFault>
    ensures { Gives (λ d. (decision_view d.0.value, count_view d.1)) result (decided_at
        context.now.is_kept (spot_of (expr_of expr.now)) (judge (sight_view context.now) (map
        kept_view numbers.now) (expr_of expr.now) (count_view count))) }
{
    if let Some(number) = constant_number(context, numbers, expr) {
        return Ok((Box::new(alloc, Decision::Always(number))?, count));
    }
    if context.is_kept {
        tested(alloc, context, numbers, expr, count)
    } else {
        let (kept, count) = estimate(alloc, context, numbers, expr, count)?;
        let condition = condition_by(alloc, kept)?;
        Ok((condition, count))
    }
}
