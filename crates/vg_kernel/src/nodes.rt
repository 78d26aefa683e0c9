//! Operations on expressions that were read, counted and judged.

ghost use Rattle.std.specs.Prelude.{◌≡◌, ◌≤◌, ◌+◌, max, IfOk};
ghost use Rattle.vg_text.specs.Lexing.{reading};
ghost use Rattle.vg_kernel.specs.Expressions.{counted, judged, closed_at, pair_end, resize_end, amount_at, shift_end, select_end};
ghost use Rattle.vg_kernel.specs.Gives.{Gives};
ghost use Rattle.vg_kernel.specs.Nodes.{one_width, common_width, pair_node, is_resize, resize_node, is_bit, select_node, width_in};
ghost use Rattle.vg_kernel.specs.Scanning.{part_of};
ghost use Rattle.vg_kernel.specs.Tree.{expression_of};

use crate::expression::KExpr;
use crate::fault::KernelFault;
use crate::function::Function;
use crate::operations::{make_compare, make_resize, make_select, make_shift, make_two};
use crate::reading::{expect, next};
use crate::scan::{Part, Scan};
use crate::value_type::ValueType;
use std::alloc::Global;
use vg_base::Width;
use vg_scalar::{Resize, Shift};
use vg_text::number::decimal;
use vg_text::{Lexer, Place};

/// One more load or operation at this place.
pub(crate) fn counted(place: Place, used: u32) -> Result<u32, KernelFault>
    ensures { Gives (λ x. x) result (counted place used) }
{
    if used < 8192 {
        Ok(used + 1)
    } else {
        Err(KernelFault::TooMany { place })
    }
}

pub(crate) fn one_width(first: Width, second: Width) -> Option<Width>
    ensures { result ≡ one_width first second }
{
    if first.bits() == second.bits() {
        Some(first)
    } else {
        None
    }
}

fn common_width(left: &KExpr, right: &KExpr) -> Option<Width>
    ensures { result ≡ common_width (expression_of left.now) (expression_of right.now) }
{
    match left.width() {
        Some(first) => match right.width() {
            Some(second) => one_width(first, second),
            None => None,
        },
        None => None,
    }
}

/// An operation or a comparison of two integers of one width.
#[inline(never)]
pub(crate) fn pair_node(
    alloc: Global,
    function: Function,
    place: Place,
    used: u32,
    left: KExpr,
    right: KExpr,
) -> Result<(KExpr, u32), KernelFault>
    ensures { Gives (λ x. (expression_of x.0, x.1)) result
        (judged place used (pair_node function (expression_of left) (expression_of right))) }
{
    let more = counted(place, used)?;
    let Some(width) = common_width(&left, &right) else {
        return Err(KernelFault::WidthMismatch { place });
    };
    match function {
        Function::Two(op) => Ok((make_two(alloc, op, width, left, right)?, more)),
        Function::Compare(op) => Ok((make_compare(alloc, op, width, left, right)?, more)),
        _ => Err(KernelFault::WidthMismatch { place }),
    }
}

fn is_resize(op: Resize, to: Width, from: Width) -> bool
    ensures { result ≡ is_resize op to from }
{
    match op {
        Resize::Sext => from.bits() < to.bits(),
        Resize::Zext => from.bits() < to.bits(),
        Resize::Trunc => to.bits() < from.bits(),
    }
}

#[inline(never)]
fn resize_node(
    alloc: Global,
    op: Resize,
    width: Width,
    place: Place,
    used: u32,
    operand: KExpr,
) -> Result<(KExpr, u32), KernelFault>
    ensures { Gives (λ x. (expression_of x.0, x.1)) result
        (judged place used (resize_node op width (expression_of operand))) }
{
    let more = counted(place, used)?;
    let Some(from) = operand.width() else {
        return Err(KernelFault::WidthMismatch { place });
    };
    if !is_resize(op, width, from) {
        return Err(KernelFault::WidthMismatch { place });
    }
    let node = make_resize(alloc, op, width, from, operand)?;
    Ok((node, more))
}

fn shift_width(place: Place, used: u32, operand: &KExpr) -> Result<(Width, u32), KernelFault>
    ensures { Gives (λ x. x) result (judged place used (width_in (expression_of operand.now))) }
{
    let more = counted(place, used)?;
    match operand.width() {
        Some(width) => Ok((width, more)),
        None => Err(KernelFault::WidthMismatch { place }),
    }
}

fn is_bit(expression: &KExpr) -> bool
    ensures { result ≡ is_bit (expression_of expression.now) }
{
    match expression.value_type() {
        ValueType::Bit => true,
        ValueType::Integer(_) => false,
    }
}

#[inline(never)]
fn select_node(
    alloc: Global,
    place: Place,
    used: u32,
    condition: KExpr,
    first: KExpr,
    second: KExpr,
) -> Result<(KExpr, u32), KernelFault>
    ensures { Gives (λ x. (expression_of x.0, x.1)) result
        (judged place used
        (select_node (expression_of condition) (expression_of first) (expression_of second))) }
{
    let more = counted(place, used)?;
    if !is_bit(&condition) {
        return Err(KernelFault::WidthMismatch { place });
    }
    let Some(width) = common_width(&first, &second) else {
        return Err(KernelFault::WidthMismatch { place });
    };
    let node = make_select(alloc, width, condition, first, second)?;
    Ok((node, more))
}

/// The parenthesis that closes a call, over operands of this depth.
#[inline(never)]
#[tactic(auto, unfolding(crate::specs::Expressions::closed_at))]
fn closed<'a>(node: KExpr, depth: u32, lexer: Lexer<'a>, used: u32) -> Result<Part<'a>, KernelFault>
    requires { depth ≤ 256 }
    ensures read { Gives part_of result
        (closed_at (expression_of node) depth (reading lexer.entry) used) }
    ensures deep { IfOk result (λ p. p.depth ≤ depth + 1) }
{
    let rest = expect(b")", lexer)?;
    Ok(Part {
        expression: node,
        depth: depth + 1,
        scan: Scan { lexer: rest, used },
    })
}

/// A function of two operands after the second.
#[inline(never)]
#[tactic(auto, unfolding(crate::specs::Expressions::pair_end))]
pub(crate) fn pair_end<'a>(
    alloc: Global,
    function: Function,
    place: Place,
    left: Part<'a>,
    right: Part<'a>,
) -> Result<Part<'a>, KernelFault>
    requires left { left.depth ≤ 256 }
    requires right { right.depth ≤ 256 }
    ensures read { Gives part_of result
        (pair_end function place (part_of left.entry) (part_of right.entry)) }
    ensures deep { IfOk result (λ p. p.depth ≤ max left.entry.depth right.entry.depth + 1) }
{
    let depth = left.depth.max(right.depth);
    let scan = right.scan;
    let (node, used) = pair_node(
        alloc,
        function,
        place,
        scan.used,
        left.expression,
        right.expression,
    )?;
    closed(node, depth, scan.lexer, used)
}

/// A resize of an operand after it.
#[inline(never)]
#[tactic(auto, unfolding(crate::specs::Expressions::resize_end))]
pub(crate) fn resize_end<'a>(
    alloc: Global,
    op: Resize,
    to: Width,
    place: Place,
    operand: Part<'a>,
) -> Result<Part<'a>, KernelFault>
    requires { operand.depth ≤ 256 }
    ensures read { Gives part_of result (resize_end op to place (part_of operand.entry)) }
    ensures deep { IfOk result (λ p. p.depth ≤ operand.entry.depth + 1) }
{
    let scan = operand.scan;
    let depth = operand.depth;
    let (node, used) = resize_node(alloc, op, to, place, scan.used, operand.expression)?;
    closed(node, depth, scan.lexer, used)
}

/// The number of places of a shift at a width.
#[tactic(auto, unfolding(crate::specs::Expressions::amount_at))]
fn amount<'a>(width: Width, lexer: Lexer<'a>) -> Result<(u32, Lexer<'a>), KernelFault>
    ensures { Gives (λ x. (x.0, reading x.1)) result (amount_at width (reading lexer.entry)) }
{
    let (number, rest) = next(lexer)?;
    let place = number.place;
    let Some(amount) = decimal(number.bytes) else {
        return Err(KernelFault::Shape { place });
    };
    if amount < width.bits() as u128 {
        Ok((amount as u32, rest))
    } else {
        Err(KernelFault::ShiftRange { place })
    }
}

/// A shift of an operand after it.
#[inline(never)]
#[tactic(auto, unfolding(crate::specs::Expressions::shift_end))]
pub(crate) fn shift_end<'a>(
    alloc: Global,
    op: Shift,
    place: Place,
    operand: Part<'a>,
) -> Result<Part<'a>, KernelFault>
    requires { operand.depth ≤ 256 }
    ensures read { Gives part_of result (shift_end op place (part_of operand.entry)) }
    ensures deep { IfOk result (λ p. p.depth ≤ operand.entry.depth + 1) }
{
    let scan = operand.scan;
    let depth = operand.depth;
    let (width, used) = shift_width(place, scan.used, &operand.expression)?;
    let comma = expect(b",", scan.lexer)?;
    let (amount, rest) = amount(width, comma)?;
    let node = make_shift(alloc, op, width, amount, operand.expression)?;
    closed(node, depth, rest, used)
}

/// A choice of three operands after the last.
#[inline(never)]
#[tactic(auto, unfolding(crate::specs::Expressions::select_end))]
pub(crate) fn select_end<'a>(
    alloc: Global,
    place: Place,
    condition: Part<'a>,
    left: Part<'a>,
    right: Part<'a>,
) -> Result<Part<'a>, KernelFault>
    requires condition { condition.depth ≤ 256 }
    requires left { left.depth ≤ 256 }
    requires right { right.depth ≤ 256 }
    ensures read { Gives part_of result
        (select_end place (part_of condition.entry) (part_of left.entry) (part_of right.entry)) }
    ensures deep { IfOk result
        (λ p. p.depth ≤ max condition.entry.depth (max left.entry.depth right.entry.depth) + 1) }
{
    let depth = condition.depth.max(left.depth.max(right.depth));
    let scan = right.scan;
    let (node, used) = select_node(
        alloc,
        place,
        scan.used,
        condition.expression,
        left.expression,
        right.expression,
    )?;
    closed(node, depth, scan.lexer, used)
}
