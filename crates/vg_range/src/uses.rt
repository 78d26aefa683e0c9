//! What uses of expressions give, on the heap: what judges an expression inside another holds none
//! of it in between.

ghost use Rattle.std.specs.Prelude.{◌≡◌, IfOk, get_or, map, pos, ◌++◌, ◌∷◌, [], None};
ghost use Rattle.vg_interval.specs.Found.{known, operand, passed};
ghost use Rattle.vg_interval.specs.Judge.{constant, element_at, index_of, settled, slice_at, spot_of, variable_found};
ghost use Rattle.vg_interval.specs.Views.{Gives, condition_at, count_view, found_view, index_view, kept_view, operand_view, passed_view};
ghost use Rattle.vg_names.specs.Views.{expr_of};
ghost use Rattle.vg_script.specs.Views.{word_of};
ghost use Rattle.vg_range.specs.Steps.{selector_view};
ghost use Rattle.vg_range.specs.Seen.{binary_behind, decision_view, either_behind, element_behind, leaf, plain_behind, sight_view, slice_behind, unary_behind};

use crate::decision::{Decision, decision_of};
use crate::selector::{Selector, selector_of};
use crate::spots::spot_of;
use crate::walk_context::{WalkContext, boxed, counter, element, slice, variable, written};
use std::alloc::{AllocError, Global};
use vg_interval::binary_uses::binary_at;
use vg_interval::calls::passed;
use vg_interval::operands::{condition, either, operand};
use vg_interval::slices::index_of;
use vg_interval::unary_uses::unary_at;
use vg_interval::whole_numbers::whole;
use vg_interval::{Count, Found, Index, KnownNumber, Operand, Passed, RangeFault};
use vg_names::ResolvedExpr;
use vg_pseudo::{BinaryOp, Spot, UnaryOp};
use vg_script::Word;

/// What is known of the variable of a FOR, by how many FORs lie between, and the counts. Fails for
/// want of memory alone.
#[inline(never)]
pub fn turn_of(
    alloc: Global,
    context: &WalkContext,
    turn: usize,
    count: Count,
) -> Result<(Box<Found>, Count), RangeFault>
    ensures { Gives (λ f. (found_view f.0.value, count_view f.1)) result (leaf (known (get_or
        (sight_view context.now).turns turn (pos 0)) None) (count_view count)) }
{
    boxed(alloc, counter(context.turns, turn), count)
}

/// What is known of a number variable, by its number, and the counts. Fails for want of memory
/// alone.
#[inline(never)]
pub fn variable_of(
    alloc: Global,
    numbers: &[KnownNumber],
    number: usize,
    count: Count,
) -> Result<(Box<Found>, Count), RangeFault>
    ensures { Gives (λ f. (found_view f.0.value, count_view f.1)) result (leaf (variable_found
        number (get_or (map kept_view numbers.now) number (constant (pos 0)))) (count_view count)) }
{
    boxed(alloc, variable(numbers, number), count)
}

/// An expression as an operand, by what is known of it; or its first fault.
#[inline(never)]
pub fn operand_of(
    alloc: Global,
    expr: &ResolvedExpr,
    found: Box<Found>,
) -> Result<Box<Operand>, RangeFault>
    ensures { Gives (λ a. operand_view a.value) result (operand (spot_of (expr_of expr.now))
        (found_view found.value)) }
{
    let operand = operand(alloc, spot_of(expr), Box::into_inner(found))?;
    Ok(Box::new(alloc, operand)?)
}

/// An expression as an index, by what is known of it; or its first fault.
#[inline(never)]
pub fn index_in(
    alloc: Global,
    expr: &ResolvedExpr,
    found: Box<Found>,
) -> Result<Box<Index>, RangeFault>
    ensures { Gives (λ i. index_view i.value) result (index_of (spot_of (expr_of expr.now))
        (found_view found.value)) }
{
    let index = index_of(alloc, spot_of(expr), Box::into_inner(found))?;
    Ok(Box::new(alloc, index)?)
}

/// An expression as a condition, by what is known of it; or its first fault.
#[inline(never)]
pub fn condition_in(
    alloc: Global,
    expr: &ResolvedExpr,
    found: Box<Found>,
) -> Result<Box<Decision>, RangeFault>
    ensures { Gives (λ d. decision_view d.value) result (condition_at (spot_of (expr_of expr.now))
        (found_view found.value)) }
{
    let condition = condition(alloc, spot_of(expr), Box::into_inner(found))?;
    let decision = decision_of(alloc, condition)?;
    Ok(Box::new(alloc, decision)?)
}

/// An expression as what selects the arm of a CASE, by what is known of it; or its first fault.
#[inline(never)]
pub fn selector_in(
    alloc: Global,
    expr: &ResolvedExpr,
    found: Box<Found>,
) -> Result<Box<Selector>, RangeFault>
    ensures { Gives (λ a. selector_view a.value) result (operand (spot_of (expr_of expr.now))
        (found_view found.value)) }
{
    let operand = operand(alloc, spot_of(expr), Box::into_inner(found))?;
    let selector = selector_of(alloc, operand)?;
    Ok(Box::new(alloc, selector)?)
}

/// An expression as an argument of a call, by what is known of it; or its first fault.
#[inline(never)]
pub fn passed_in(
    alloc: Global,
    expr: &ResolvedExpr,
    found: Box<Found>,
) -> Result<Box<Passed>, RangeFault>
    ensures { Gives (λ p. passed_view p.value) result (passed (spot_of (expr_of expr.now))
        (found_view found.value)) }
{
    let passed = passed(alloc, spot_of(expr), Box::into_inner(found))?;
    Ok(Box::new(alloc, passed)?)
}

/// Appends an argument. Fails for want of memory alone.
#[inline(never)]
pub(crate) fn give(given: &mut Vec<Passed>, passed: Box<Passed>) -> Result<(), AllocError>
    ensures { IfOk result (λ u. given.new.items ≡ given.old.items ++ passed.value ∷ []) }
{
    given.push(Box::into_inner(passed))?;
    Ok(())
}

/// A slice by two indices that are constants.
#[inline(never)]
pub fn slice_at_numbers(
    alloc: Global,
    context: &WalkContext,
    spot: &Spot,
    is_signed: bool,
    register: usize,
    spread: &Option<u128>,
    high: i128,
    low: i128,
    count: Count,
) -> Result<(Box<Found>, Count), RangeFault>
    ensures { Gives (λ f. (found_view f.0.value, count_view f.1)) result (slice_at (sight_view
        context.now) spot.now.inner is_signed register spread.now (settled high) (settled low)
        (count_view count)) }
{
    let high = Index::Settled(whole(high));
    let low = Index::Settled(whole(low));
    slice(
        alloc, context, spot.inner, is_signed, register, *spread, high, low, count,
    )
}

/// An element by an index that is a constant.
#[inline(never)]
pub fn element_at_number(
    alloc: Global,
    context: &WalkContext,
    spot: &Spot,
    is_signed: bool,
    register: usize,
    size: u32,
    index: i128,
    count: Count,
) -> Result<(Box<Found>, Count), RangeFault>
    ensures { Gives (λ f. (found_view f.0.value, count_view f.1)) result (element_at (sight_view
        context.now) spot.now.inner is_signed register size (settled index) (count_view count)) }
{
    let index = Index::Settled(whole(index));
    element(
        alloc, context, spot.inner, is_signed, register, size, index, count,
    )
}

/// A slice by its high index, and what is known of its low one.
#[inline(never)]
pub fn slice_behind(
    alloc: Global,
    context: &WalkContext,
    spot: &Spot,
    is_signed: bool,
    register: usize,
    spread: &Option<u128>,
    high: Box<Index>,
    inner: &ResolvedExpr,
    found: Box<Found>,
    count: Count,
) -> Result<(Box<Found>, Count), RangeFault>
    ensures { Gives (λ f. (found_view f.0.value, count_view f.1)) result (slice_behind (sight_view
        context.now) spot.now is_signed register spread.now (index_view high.value) (spot_of
        (expr_of inner.now)) (found_view found.value) (count_view count)) }
{
    let high = Box::into_inner(high);
    let low = index_of(alloc, spot_of(inner), Box::into_inner(found))?;
    slice(
        alloc, context, spot.inner, is_signed, register, *spread, high, low, count,
    )
}

/// An element by its size, and what is known of its index.
#[inline(never)]
pub fn element_behind(
    alloc: Global,
    context: &WalkContext,
    spot: &Spot,
    is_signed: bool,
    register: usize,
    size: u32,
    inner: &ResolvedExpr,
    found: Box<Found>,
    count: Count,
) -> Result<(Box<Found>, Count), RangeFault>
    ensures { Gives (λ f. (found_view f.0.value, count_view f.1)) result (element_behind (sight_view
        context.now) spot.now is_signed register size (spot_of (expr_of inner.now)) (found_view
        found.value) (count_view count)) }
{
    let index = index_of(alloc, spot_of(inner), Box::into_inner(found))?;
    element(
        alloc, context, spot.inner, is_signed, register, size, index, count,
    )
}

/// An operator or a function of one operand, by what is known of the operand.
#[inline(never)]
pub fn unary_behind(
    alloc: Global,
    context: &WalkContext,
    spot: &Spot,
    op: UnaryOp,
    inner: &ResolvedExpr,
    found: Box<Found>,
    count: Count,
) -> Result<(Box<Found>, Count), RangeFault>
    ensures { Gives (λ f. (found_view f.0.value, count_view f.1)) result (unary_behind spot.now op
        (spot_of (expr_of inner.now)) (found_view found.value) (count_view count)) }
{
    let found = unary_at(alloc, *spot, op, spot_of(inner), Box::into_inner(found))?;
    written(alloc, context, found, count)
}

/// An operator or a function of two operands, by its first, and what is known of the second.
#[inline(never)]
pub fn binary_behind(
    alloc: Global,
    context: &WalkContext,
    spot: &Spot,
    op: BinaryOp,
    first: Box<Operand>,
    inner: &ResolvedExpr,
    found: Box<Found>,
    count: Count,
) -> Result<(Box<Found>, Count), RangeFault>
    ensures { Gives (λ f. (found_view f.0.value, count_view f.1)) result (binary_behind spot.now op
        (operand_view first.value) (spot_of (expr_of inner.now)) (found_view found.value)
        (count_view count)) }
{
    let first = Box::into_inner(first);
    let second = operand(alloc, spot_of(inner), Box::into_inner(found))?;
    let (found, count) = binary_at(alloc, *spot, op, spot_of(inner), first, second, count)?;
    written(alloc, context, found, count)
}

/// The branch that a choice takes, by what is known of it.
#[inline(never)]
pub fn plain_behind(
    alloc: Global,
    inner: &ResolvedExpr,
    found: Box<Found>,
    count: Count,
) -> Result<(Box<Found>, Count), RangeFault>
    ensures { Gives (λ f. (found_view f.0.value, count_view f.1)) result
        (plain_behind (spot_of (expr_of inner.now)) (found_view found.value) (count_view count)) }
{
    let operand = operand(alloc, spot_of(inner), Box::into_inner(found))?;
    boxed(alloc, operand.into_found(), count)
}

/// A choice by its condition, its first branch, and what is known of the second.
#[inline(never)]
pub fn either_behind(
    alloc: Global,
    context: &WalkContext,
    condition: Box<Word>,
    first: Box<Operand>,
    inner: &ResolvedExpr,
    found: Box<Found>,
    count: Count,
) -> Result<(Box<Found>, Count), RangeFault>
    ensures { Gives (λ f. (found_view f.0.value, count_view f.1)) result (either_behind (word_of
        condition.value) (operand_view first.value) (spot_of (expr_of inner.now)) (found_view
        found.value) (count_view count)) }
{
    let first = Box::into_inner(first);
    let second = operand(alloc, spot_of(inner), Box::into_inner(found))?;
    let found = either(alloc, Box::into_inner(condition), first, second)?;
    written(alloc, context, found, count)
}
