//! The numbers of expressions.

ghost use Rattle.std.specs.Prelude.{◌≡◌};
ghost use Rattle.vg_kernel.specs.Meaning.{value};
ghost use Rattle.vg_kernel.specs.Tree.{expression_of};

use crate::inputs::Inputs;
use vg_kernel::KExpr;
use vg_memory::{load, number_at};
use vg_scalar::select;

/// The number of an expression, where the names given so far have these numbers. None is a trap.
/// Takes no memory.
pub(crate) fn value(
    inputs: &Inputs,
    numbers: &[u64],
    memory: &[u8],
    expression: &KExpr,
) -> Option<u64>
    ensures { result ≡ value inputs.now (record { memory = memory.now; numbers = numbers.now })
        (expression_of expression.now) }
{
    match expression {
        KExpr::Argument { number, .. } => Some(number_at(inputs.args, *number)),
        KExpr::Assigned { number, .. } => Some(number_at(numbers, *number)),
        KExpr::Literal { number, .. } => Some(*number),
        KExpr::Load { width, address } => { load(memory, inputs.address(*address), width.size()) }
        KExpr::Two {
            op,
            width,
            left,
            right,
        } => {
            let first = value(inputs, numbers, memory, left)?;
            let second = value(inputs, numbers, memory, right)?;
            Some(op.apply(*width, first, second))
        }
        KExpr::Shift {
            op,
            width,
            amount,
            operand,
        } => {
            let number = value(inputs, numbers, memory, operand)?;
            Some(op.apply(*width, *amount, number))
        }
        KExpr::Resize {
            op,
            width,
            from,
            operand,
        } => {
            let number = value(inputs, numbers, memory, operand)?;
            Some(op.apply(*width, *from, number))
        }
        KExpr::Compare {
            op,
            width,
            left,
            right,
        } => {
            let first = value(inputs, numbers, memory, left)?;
            let second = value(inputs, numbers, memory, right)?;
            Some(op.apply(*width, first, second))
        }
        KExpr::Select {
            condition,
            first,
            second,
            ..
        } => {
            let bit = value(inputs, numbers, memory, condition)?;
            let taken = value(inputs, numbers, memory, first)?;
            let other = value(inputs, numbers, memory, second)?;
            Some(select(bit, taken, other))
        }
    }
}
