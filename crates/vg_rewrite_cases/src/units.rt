//! Units as text, each in a line of its own.

ghost use Rattle.std.specs.Prelude.{IfOk};
ghost use Rattle.vg_shapes.specs.Sound.{IsSound};

use std::alloc::Global;
use std::test::Fail;
use vg_base::Width;
use vg_kernel::parse_kernel;
use vg_shapes::{Operands, Operator, Ssa, SsaUnit, Wanted};
use vg_ssa::number_more;

/// The numbered values of a kernel that is written so.
pub(crate) fn numbered(alloc: Global, text: &str) -> Result<Ssa, Fail>
    ensures { IfOk result (λ ssa. IsSound ssa) }
{
    let kernel = parse_kernel(alloc, text.as_bytes())?;
    let ssa = number_more(alloc, &kernel)?;
    Ok(ssa)
}

fn push_operand(text: &mut String, x: Wanted) -> Result<(), Fail> {
    match x {
        Wanted::Value(value) => write!(text, " v{value}")?,
        Wanted::Constant { width, value } => write!(text, " {value}:{width}")?,
        Wanted::Nothing => {}
    }
    Ok(())
}

fn push_operator(text: &mut String, op: Operator, width: Width) -> Result<(), Fail> {
    let bits = width.bits();
    match op {
        Operator::Two(op) => write!(text, "{op:?}{bits}")?,
        Operator::Shift(op) => write!(text, "{op:?}{bits}")?,
        Operator::Resize { op, from } => {
            let from = from.bits();
            write!(text, "{op:?}{bits} from {from}")?
        }
        Operator::Compare(op) => write!(text, "{op:?}{bits}")?,
        Operator::Select => write!(text, "Select{bits}")?,
    }
    Ok(())
}

fn push_operands(text: &mut String, amount: u32, xs: Operands) -> Result<(), Fail> {
    push_operand(text, xs.first)?;
    push_operand(text, xs.second)?;
    push_operand(text, xs.third)?;
    if amount > 0 {
        write!(text, " by {amount}")?;
    }
    Ok(())
}

fn push_unit(text: &mut String, unit: SsaUnit) -> Result<(), Fail> {
    match unit {
        SsaUnit::Load { address, width } => {
            let bits = width.bits();
            let pointer = address.pointer;
            let offset = address.offset;
            write!(text, "load{bits} p{pointer}+{offset}")?
        }
        SsaUnit::Store {
            address,
            width,
            value,
        } => {
            let bits = width.bits();
            let pointer = address.pointer;
            let offset = address.offset;
            write!(text, "store{bits} p{pointer}+{offset}")?;
            push_operand(text, value)?
        }
        SsaUnit::Operation {
            op,
            width,
            amount,
            operands,
        } => {
            push_operator(text, op, width)?;
            push_operands(text, amount, operands)?
        }
    }
    Ok(())
}

/// The text of units: pointers and values by their numbers, constants with their widths.
pub(crate) fn spelled(alloc: Global, units: &[SsaUnit]) -> Result<String, Fail> {
    let mut text = String::new(alloc);
    for unit in units {
        push_unit(&mut text, *unit)?;
        text.push_str("\n")?;
    }
    Ok(text)
}
