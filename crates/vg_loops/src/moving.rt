//! Expressions and statements as they are so many turns later.

ghost use Rattle.std.specs.Prelude.{◌≡◌, ◌+ℤ◌, ◌*◌, pos, map, slice_index, IfOk};
ghost use Rattle.vg_base.specs.Offset.{IsOffset};
ghost use Rattle.vg_kernel.specs.Tree.{expression_of, statement_of};
ghost use Rattle.vg_loop_laws.specs.Unrolled.{moved_address, moved, moved_statement};
ghost use Rattle.vg_loops.specs.MayMove.{JoinsOperands, MayMove, StatementMayMove};

use std::alloc::{AllocError, Global};
use vg_base::Address;
use vg_kernel::{KExpr, KStmt};

/// The step of a pointer; where it is missing it is 0.
fn step_of(steps: &[u32], pointer: u32) -> u32
    ensures { result ≡ slice_index steps.now pointer }
{
    match steps.get(pointer as usize) {
        Some(step) => *step,
        None => 0,
    }
}

/// The offset of an address after so many turns, exactly.
pub(crate) fn moved_offset(steps: &[u32], turn: u32, address: Address) -> i128
    ensures { result ≡ (moved_address steps.now turn address).offset }
{
    let step = step_of(steps, address.pointer);
    address.offset as i128 + turn as i128 * step as i128
}

/// An address after so many turns.
fn moved_address(steps: &[u32], turn: u32, address: Address) -> Address
    requires { IsOffset (moved_address steps.now turn address).offset }
    ensures { result ≡ moved_address steps.now turn address }
{
    Address {
        pointer: address.pointer,
        offset: moved_offset(steps, turn, address) as i32,
    }
}

/// An expression after so many turns, which gave so many names.
#[cycle(moving)]
fn moved(
    alloc: Global,
    steps: &[u32],
    turn: u32,
    names: u32,
    expression: &KExpr,
) -> Result<KExpr, AllocError>
    requires { MayMove steps.now turn names (expression_of expression.now) }
    ensures { IfOk result
        (λ e. expression_of e ≡ moved steps.now turn names (expression_of expression.now)) }
{
    match expression {
        KExpr::Argument { number, width } => Ok(KExpr::Argument {
            number: *number,
            width: *width,
        }),
        KExpr::Assigned { number, value_type } => Ok(KExpr::Assigned {
            number: names + *number,
            value_type: *value_type,
        }),
        KExpr::Literal { width, number } => Ok(KExpr::Literal {
            width: *width,
            number: *number,
        }),
        KExpr::Load { width, address } => Ok(KExpr::Load {
            width: *width,
            address: moved_address(steps, turn, *address),
        }),
        KExpr::Shift {
            op,
            width,
            amount,
            operand,
        } => Ok(KExpr::Shift {
            op: *op,
            width: *width,
            amount: *amount,
            operand: moved_box(alloc, steps, turn, names, operand)?,
        }),
        KExpr::Resize {
            op,
            width,
            from,
            operand,
        } => Ok(KExpr::Resize {
            op: *op,
            width: *width,
            from: *from,
            operand: moved_box(alloc, steps, turn, names, operand)?,
        }),
        KExpr::Two { .. } | KExpr::Compare { .. } | KExpr::Select { .. } => {
            moved_join(alloc, steps, turn, names, expression)
        }
    }
}

/// The same of an operator of two or three operands.
#[cycle(moving)]
fn moved_join(
    alloc: Global,
    steps: &[u32],
    turn: u32,
    names: u32,
    expression: &KExpr,
) -> Result<KExpr, AllocError>
    requires joins { JoinsOperands (expression_of expression.now) }
    requires may_move { MayMove steps.now turn names (expression_of expression.now) }
    ensures { IfOk result
        (λ e. expression_of e ≡ moved steps.now turn names (expression_of expression.now)) }
{
    match expression {
        KExpr::Two {
            op,
            width,
            left,
            right,
        } => Ok(KExpr::Two {
            op: *op,
            width: *width,
            left: moved_box(alloc, steps, turn, names, left)?,
            right: moved_box(alloc, steps, turn, names, right)?,
        }),
        KExpr::Compare {
            op,
            width,
            left,
            right,
        } => Ok(KExpr::Compare {
            op: *op,
            width: *width,
            left: moved_box(alloc, steps, turn, names, left)?,
            right: moved_box(alloc, steps, turn, names, right)?,
        }),
        KExpr::Select {
            width,
            condition,
            first,
            second,
        } => Ok(KExpr::Select {
            width: *width,
            condition: moved_box(alloc, steps, turn, names, condition)?,
            first: moved_box(alloc, steps, turn, names, first)?,
            second: moved_box(alloc, steps, turn, names, second)?,
        }),
        _ => unreachable!(),
    }
}

/// The same, on the heap.
#[cycle(moving)]
fn moved_box(
    alloc: Global,
    steps: &[u32],
    turn: u32,
    names: u32,
    expression: &KExpr,
) -> Result<Box<KExpr>, AllocError>
    requires { MayMove steps.now turn names (expression_of expression.now) }
    ensures { IfOk result
        (λ e. expression_of e.value ≡ moved steps.now turn names (expression_of expression.now)) }
{
    let expression = moved(alloc, steps, turn, names, expression)?;
    Ok(Box::new(alloc, expression)?)
}

/// A statement after so many turns, which gave so many names.
pub(crate) fn moved_statement(
    alloc: Global,
    steps: &[u32],
    turn: u32,
    names: u32,
    statement: &KStmt,
) -> Result<KStmt, AllocError>
    requires { StatementMayMove steps.now turn names (statement_of statement.now) }
    ensures { IfOk result
        (λ s. statement_of s ≡ moved_statement steps.now turn names (statement_of statement.now)) }
{
    match statement {
        KStmt::Assign { value } => {
            let value = moved(alloc, steps, turn, names, value)?;
            Ok(KStmt::Assign { value })
        }
        KStmt::Store {
            width,
            address,
            value,
        } => {
            let value = moved(alloc, steps, turn, names, value)?;
            let address = moved_address(steps, turn, *address);
            Ok(KStmt::Store {
                width: *width,
                address,
                value,
            })
        }
    }
}
