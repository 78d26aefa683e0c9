//! How operations are made of their operands. Each call fails for want of memory alone.

ghost use Rattle.std.specs.Prelude.{◌≡◌, IfOk};
ghost use Rattle.vg_kernel.specs.Tree.{compare, expression_of, resize, select, shift, two};

use crate::expression::KExpr;
use std::alloc::{AllocError, Global};
use vg_base::Width;
use vg_scalar::{Comparison, Resize, Shift, TwoOp};

/// An operation on two integers of this width.
pub(crate) fn make_two(
    alloc: Global,
    op: TwoOp,
    width: Width,
    left: KExpr,
    right: KExpr,
) -> Result<KExpr, AllocError>
    ensures { IfOk result (λ e. expression_of e ≡ two op width (expression_of left) (expression_of
        right)) }
{
    let left = Box::new(alloc, left)?;
    let right = Box::new(alloc, right)?;
    Ok(KExpr::Two {
        op,
        width,
        left,
        right,
    })
}

/// A shift of an integer of this width.
pub(crate) fn make_shift(
    alloc: Global,
    op: Shift,
    width: Width,
    amount: u32,
    operand: KExpr,
) -> Result<KExpr, AllocError>
    ensures { IfOk result (λ e. expression_of e ≡ shift op width amount (expression_of operand)) }
{
    let operand = Box::new(alloc, operand)?;
    Ok(KExpr::Shift {
        op,
        width,
        amount,
        operand,
    })
}

/// An integer of the width `from` at another width.
pub(crate) fn make_resize(
    alloc: Global,
    op: Resize,
    width: Width,
    from: Width,
    operand: KExpr,
) -> Result<KExpr, AllocError>
    ensures { IfOk result (λ e. expression_of e ≡ resize op width from (expression_of operand)) }
{
    let operand = Box::new(alloc, operand)?;
    Ok(KExpr::Resize {
        op,
        width,
        from,
        operand,
    })
}

/// A comparison of two integers of this width.
pub(crate) fn make_compare(
    alloc: Global,
    op: Comparison,
    width: Width,
    left: KExpr,
    right: KExpr,
) -> Result<KExpr, AllocError>
    ensures { IfOk result (λ e. expression_of e ≡ compare op width (expression_of left)
        (expression_of right)) }
{
    let left = Box::new(alloc, left)?;
    let right = Box::new(alloc, right)?;
    Ok(KExpr::Compare {
        op,
        width,
        left,
        right,
    })
}

/// A choice between two integers of this width by a bit.
pub(crate) fn make_select(
    alloc: Global,
    width: Width,
    condition: KExpr,
    first: KExpr,
    second: KExpr,
) -> Result<KExpr, AllocError>
    ensures { IfOk result (λ e. expression_of e
        ≡ select width (expression_of condition) (expression_of first) (expression_of second)) }
{
    let condition = Box::new(alloc, condition)?;
    let first = Box::new(alloc, first)?;
    let second = Box::new(alloc, second)?;
    Ok(KExpr::Select {
        width,
        condition,
        first,
        second,
    })
}
