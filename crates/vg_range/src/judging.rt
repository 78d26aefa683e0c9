//! What is known of expressions, found in the order of the text.

ghost use Rattle.std.specs.Prelude.{◌≡◌, [], get_or, map, None, pos};
ghost use Rattle.vg_interval.specs.Found.{known};
ghost use Rattle.vg_interval.specs.Judge.{branch, judge, judge_all, no_walk, spot_of};
ghost use Rattle.vg_interval.specs.Views.{Gives, count_view, found_view, kept_view, passed_view};
ghost use Rattle.vg_names.specs.Views.{expr_of, function_view, list_of};
ghost use Rattle.vg_pseudo.specs.Resolved as node;
ghost use Rattle.vg_script.specs.Views.{word_of};
ghost use Rattle.vg_range.specs.Seen.{argument_of, chosen_by, decision_view, either_of, leaf, plain_of, sight_view, tested_at};
ghost use Rattle.vg_range.specs.Walk.{walks_from};

use crate::calling::called_at;
use crate::decision::Decision;
use crate::folding::constant_number;
use crate::uses::{
    binary_behind, condition_in, either_behind, element_at_number, element_behind, give, index_in,
    operand_of, passed_in, plain_behind, slice_at_numbers, slice_behind, turn_of, unary_behind,
    variable_of,
};
use crate::walk_context::{WalkContext, boxed, written};
use std::alloc::Global;
use vg_interval::moving::{constant_at, width_at};
use vg_interval::slices::{bits_of_element, slice_found};
use vg_interval::{Count, Found, KnownNumber, Passed, RangeFault};
use vg_names::{Function, ResolvedArguments, ResolvedExpr};
use vg_pseudo::{BinaryOp, Spot, UnaryOp};
use vg_script::{WholeNumber, Word};

/// What is known of an expression, given what is known of the number variables, and the counts
/// after it; or its first fault.
#[cycle(judging)]
pub fn judge(
    alloc: Global,
    context: &WalkContext,
    numbers: &[KnownNumber],
    expr: &ResolvedExpr,
    count: Count,
) -> Result<(Box<Found>, Count), RangeFault>
    ensures { Gives (λ f. (found_view f.0.value, count_view f.1)) result (judge (sight_view
        context.now) (map kept_view numbers.now) (expr_of expr.now) (count_view count)) }
{
    match expr {
        ResolvedExpr::Literal { spot: _, value } => literal(alloc, *value, count),
        ResolvedExpr::Counter { spot: _, turn } => turn_of(alloc, context, *turn, count),
        ResolvedExpr::Variable {
            spot: _,
            variable: number,
        } => variable_of(alloc, numbers, *number, count),
        ResolvedExpr::Slice {
            spot,
            is_signed,
            register,
            spread,
            high,
            low,
        } => slice_of(
            alloc, context, numbers, spot, *is_signed, *register, spread, high, low, count,
        ),
        ResolvedExpr::Element {
            spot,
            is_signed,
            register,
            size,
            index,
        } => element_of(
            alloc, context, numbers, spot, *is_signed, *register, *size, index, count,
        ),
        ResolvedExpr::Front {
            spot,
            is_signed,
            register,
            size,
        } => front(alloc, context, spot, *is_signed, *register, *size, count),
        ResolvedExpr::Unary { spot, op, operand } => {
            unary(alloc, context, numbers, spot, *op, operand, count)
        }
        ResolvedExpr::Binary {
            spot,
            op,
            left,
            right,
        } => binary(alloc, context, numbers, spot, *op, left, right, count),
        ResolvedExpr::Choice {
            spot: _,
            condition,
            first,
            second,
        } => choice(alloc, context, numbers, condition, first, second, count),
        ResolvedExpr::Call {
            spot,
            function,
            arguments,
        } => call(alloc, context, numbers, spot, *function, arguments, count),
    }
}

#[inline(never)]
fn literal(alloc: Global, value: u128, count: Count) -> Result<(Box<Found>, Count), RangeFault>
    ensures { Gives (λ f. (found_view f.0.value, count_view f.1)) result (leaf (known (pos value)
        None) (count_view count)) }
{
    let number = WholeNumber::Natural(value);
    boxed(alloc, Found::Known { number }, count)
}

/// `name[high:low]`
#[inline(never)]
#[cycle(judging)]
#[tactic(auto, using(crate::proofs::Folded::slice_is))]
pub fn slice_of(
    alloc: Global,
    context: &WalkContext,
    numbers: &[KnownNumber],
    spot: &Spot,
    is_signed: bool,
    register: usize,
    spread: &Option<u128>,
    high: &ResolvedExpr,
    low: &ResolvedExpr,
    count: Count,
) -> Result<(Box<Found>, Count), RangeFault>
    ensures { Gives (λ f. (found_view f.0.value, count_view f.1)) result (judge (sight_view
        context.now) (map kept_view numbers.now) (node.slice spot.now is_signed register spread.now
        (expr_of high.now) (expr_of low.now)) (count_view count)) }
{
    if let Some(last) = constant_number(context, numbers, high) {
        if let Some(first) = constant_number(context, numbers, low) {
            return slice_at_numbers(
                alloc, context, spot, is_signed, register, spread, last, first, count,
            );
        }
    }
    let (found, count) = judge(alloc, context, numbers, high, count)?;
    let last = index_in(alloc, high, found)?;
    let (found, count) = judge(alloc, context, numbers, low, count)?;
    slice_behind(
        alloc, context, spot, is_signed, register, spread, last, low, found, count,
    )
}

/// `name.elem[index]` or `name[index]`
#[inline(never)]
#[cycle(judging)]
#[tactic(auto, using(crate::proofs::Folded::element_is))]
fn element_of(
    alloc: Global,
    context: &WalkContext,
    numbers: &[KnownNumber],
    spot: &Spot,
    is_signed: bool,
    register: usize,
    size: u32,
    index: &ResolvedExpr,
    count: Count,
) -> Result<(Box<Found>, Count), RangeFault>
    ensures { Gives (λ f. (found_view f.0.value, count_view f.1)) result
        (judge (sight_view context.now) (map kept_view numbers.now)
        (node.element spot.now is_signed register size (expr_of index.now)) (count_view count)) }
{
    if let Some(number) = constant_number(context, numbers, index) {
        return element_at_number(
            alloc, context, spot, is_signed, register, size, number, count,
        );
    }
    let (found, count) = judge(alloc, context, numbers, index, count)?;
    element_behind(
        alloc, context, spot, is_signed, register, size, index, found, count,
    )
}

/// The bits of a register from bit 0 on.
#[inline(never)]
fn front(
    alloc: Global,
    context: &WalkContext,
    spot: &Spot,
    is_signed: bool,
    register: usize,
    size: u128,
    count: Count,
) -> Result<(Box<Found>, Count), RangeFault>
    ensures { Gives (λ f. (found_view f.0.value, count_view f.1)) result (judge (sight_view
        context.now) [] (node.front spot.now is_signed register size) (count_view count)) }
{
    let all = width_at(context.widths, register);
    let bits = bits_of_element(spot.inner, all, size, WholeNumber::Natural(0))?;
    let constant = constant_at(context.constants, register);
    let found = slice_found(is_signed, constant, register, bits);
    written(alloc, context, found, count)
}

/// An operator or a function of one operand.
#[inline(never)]
#[cycle(judging)]
fn unary(
    alloc: Global,
    context: &WalkContext,
    numbers: &[KnownNumber],
    spot: &Spot,
    op: UnaryOp,
    expr: &ResolvedExpr,
    count: Count,
) -> Result<(Box<Found>, Count), RangeFault>
    ensures { Gives (λ f. (found_view f.0.value, count_view f.1)) result (judge (sight_view
        context.now) (map kept_view numbers.now) (node.unary spot.now op (expr_of expr.now))
        (count_view count)) }
{
    let (found, count) = judge(alloc, context, numbers, expr, count)?;
    unary_behind(alloc, context, spot, op, expr, found, count)
}

/// An operator or a function of two operands.
#[inline(never)]
#[cycle(judging)]
fn binary(
    alloc: Global,
    context: &WalkContext,
    numbers: &[KnownNumber],
    spot: &Spot,
    op: BinaryOp,
    left: &ResolvedExpr,
    right: &ResolvedExpr,
    count: Count,
) -> Result<(Box<Found>, Count), RangeFault>
    ensures { Gives (λ f. (found_view f.0.value, count_view f.1)) result (judge (sight_view
        context.now) (map kept_view numbers.now) (node.binary spot.now op (expr_of left.now)
        (expr_of right.now)) (count_view count)) }
{
    let (found, count) = judge(alloc, context, numbers, left, count)?;
    let first = operand_of(alloc, left, found)?;
    let (found, count) = judge(alloc, context, numbers, right, count)?;
    binary_behind(alloc, context, spot, op, first, right, found, count)
}

/// One branch of a choice whose condition is constant.
#[inline(never)]
#[cycle(judging)]
fn one_of(
    alloc: Global,
    context: &WalkContext,
    numbers: &[KnownNumber],
    expr: &ResolvedExpr,
    count: Count,
) -> Result<(Box<Found>, Count), RangeFault>
    ensures { Gives (λ f. (found_view f.0.value, count_view f.1)) result (plain_of (branch (spot_of
        (expr_of expr.now)) (judge (sight_view context.now) (map kept_view numbers.now) (expr_of
        expr.now)) (count_view count))) }
{
    let (found, count) = judge(alloc, context, numbers, expr, count)?;
    plain_behind(alloc, expr, found, count)
}

/// Both branches of a choice.
#[inline(never)]
#[cycle(judging)]
fn both_of(
    alloc: Global,
    context: &WalkContext,
    numbers: &[KnownNumber],
    condition: Box<Word>,
    first: &ResolvedExpr,
    second: &ResolvedExpr,
    count: Count,
) -> Result<(Box<Found>, Count), RangeFault>
    ensures { Gives (λ f. (found_view f.0.value, count_view f.1)) result (either_of (word_of
        condition.value) (spot_of (expr_of first.now)) (judge (sight_view context.now) (map
        kept_view numbers.now) (expr_of first.now)) (spot_of (expr_of second.now)) (judge
        (sight_view context.now) (map kept_view numbers.now) (expr_of second.now)) (count_view
        count)) }
{
    let (found, count) = judge(alloc, context, numbers, first, count)?;
    let one = operand_of(alloc, first, found)?;
    let (found, count) = judge(alloc, context, numbers, second, count)?;
    either_behind(alloc, context, condition, one, second, found, count)
}

/// What a condition says, and the counts after it.
#[inline(never)]
#[cycle(judging)]
pub fn tested(
    alloc: Global,
    context: &WalkContext,
    numbers: &[KnownNumber],
    expr: &ResolvedExpr,
    count: Count,
) -> Result<(Box<Decision>, Count), RangeFault>
    ensures { Gives (λ f. (decision_view f.0.value, count_view f.1)) result (tested_at (spot_of
        (expr_of expr.now)) (judge (sight_view context.now) (map kept_view numbers.now) (expr_of
        expr.now) (count_view count))) }
{
    let (found, count) = judge(alloc, context, numbers, expr, count)?;
    let condition = condition_in(alloc, expr, found)?;
    Ok((condition, count))
}

/// `condition ? first : second`
#[inline(never)]
#[cycle(judging)]
fn choice(
    alloc: Global,
    context: &WalkContext,
    numbers: &[KnownNumber],
    condition: &ResolvedExpr,
    first: &ResolvedExpr,
    second: &ResolvedExpr,
    count: Count,
) -> Result<(Box<Found>, Count), RangeFault>
    ensures { Gives (λ f. (found_view f.0.value, count_view f.1)) result (chosen_by (tested_at
        (spot_of (expr_of condition.now)) (judge (sight_view context.now) (map kept_view
        numbers.now) (expr_of condition.now) (count_view count))) (spot_of (expr_of first.now))
        (judge (sight_view context.now) (map kept_view numbers.now) (expr_of first.now)) (spot_of
        (expr_of second.now)) (judge (sight_view context.now) (map kept_view numbers.now) (expr_of
        second.now))) }
{
    let (condition, count) = tested(alloc, context, numbers, condition, count)?;
    match Box::into_inner(condition) {
        Decision::Always(z) => {
            if z == 0 {
                one_of(alloc, context, numbers, second, count)
            } else {
                one_of(alloc, context, numbers, first, count)
            }
        }
        Decision::Tested { word } => both_of(alloc, context, numbers, word, first, second, count),
    }
}

/// An argument, and the counts after it.
#[inline(never)]
#[cycle(judging)]
fn argument(
    alloc: Global,
    context: &WalkContext,
    numbers: &[KnownNumber],
    expr: &ResolvedExpr,
    count: Count,
) -> Result<(Box<Passed>, Count), RangeFault>
    ensures { Gives (λ p. (passed_view p.0.value, count_view p.1)) result (argument_of (sight_view
        context.now) (map kept_view numbers.now) (expr_of expr.now) (count_view count)) }
{
    let (found, count) = judge(alloc, context, numbers, expr, count)?;
    let passed = passed_in(alloc, expr, found)?;
    Ok((passed, count))
}

/// The arguments of a call, in a loop, since there may be many.
#[inline(never)]
#[cycle(judging)]
fn judge_all(
    alloc: Global,
    context: &WalkContext,
    numbers: &[KnownNumber],
    arguments: &ResolvedArguments,
    count: Count,
) -> Result<(Vec<Passed>, Count), RangeFault>
    ensures { Gives (λ g. (map passed_view g.0.items, count_view g.1)) result (judge_all (sight_view
        context.now) (map kept_view numbers.now) (list_of arguments.now) (count_view count)) }
{
    let mut given = Vec::new(alloc);
    let mut left = arguments;
    let mut count = count;
    'arguments: loop {
        match left {
            ResolvedArguments::End => return Ok((given, count)),
            ResolvedArguments::More {
                argument: first,
                rest,
            } => {
                let (passed, behind) = argument(alloc, context, numbers, first, count)?;
                give(&mut given, passed)?;
                count = behind;
                left = rest;
            }
        }
    }
}

/// A call, by its arguments.
#[inline(never)]
#[cycle(judging)]
fn call(
    alloc: Global,
    context: &WalkContext,
    numbers: &[KnownNumber],
    spot: &Spot,
    function: usize,
    arguments: &ResolvedArguments,
    count: Count,
) -> Result<(Box<Found>, Count), RangeFault>
    ensures { Gives (λ f. (found_view f.0.value, count_view f.1)) result (judge (sight_view
        context.now) (map kept_view numbers.now) (node.call spot.now function (list_of
        arguments.now)) (count_view count)) }
{
    let count = count.step(spot.inner)?;
    let (given, count) = judge_all(alloc, context, numbers, arguments, count)?;
    called_at(
        alloc,
        context.is_kept,
        context.written,
        context.functions,
        function,
        *spot,
        given,
        count,
    )
}
