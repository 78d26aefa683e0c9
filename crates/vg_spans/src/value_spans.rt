//! The spans of the values of a kernel.

ghost use Rattle.std.specs.Prelude.{◌≡◌, IfOk};
ghost use Rattle.vg_base.specs.Width.{bits_of};
ghost use Rattle.vg_shapes.specs.Sound.{IsSound};
ghost use Rattle.vg_spans.specs.Operand.{IsRead, OperandsAreRead};
ghost use Rattle.vg_spans.specs.Spans.{argument_spans, operation_span, spans_of, unit_span};

use crate::operand_spans::{operand_span, read_operand};
use crate::operations::{resize_span, shift_span, two_span};
use crate::span::Span;
use std::alloc::{AllocError, Global};
use vg_base::Width;
use vg_shapes::{Operands, Operator, Ssa, SsaParam, SsaParamKind, SsaUnit};

/// For each number the span of its value: whole numbers among which its number is in every run. A
/// store has 0 alone in its place. Fails for want of memory alone.
pub fn spans(alloc: Global, ssa: &Ssa) -> Result<Vec<Span>, AllocError>
    requires { IsSound ssa.now }
    ensures exact { IfOk result (λ all. all.items ≡ spans_of ssa.now) }
{
    let mut all = argument_spans(alloc, ssa.params.as_slice())?;
    let mut rest = ssa.units.as_slice();
    'units: while let [unit, behind @ ..] = rest {
        let span = unit_span(&all, *unit);
        all.push(span)?;
        rest = behind;
    }
    Ok(all)
}

// Those of the integer parameters.
fn argument_spans(alloc: Global, params: &[SsaParam]) -> Result<Vec<Span>, AllocError>
    ensures { IfOk result (λ all. all.items ≡ argument_spans params.now) }
{
    let mut all = Vec::new(alloc);
    let mut rest = params;
    'params: while let [param, behind @ ..] = rest {
        if let SsaParamKind::Integer(width) = param.kind {
            all.push(Span::signed(width.bits()))?;
        }
        rest = behind;
    }
    Ok(all)
}

// The span of the value of one unit more.
fn unit_span(spans: &[Span], unit: SsaUnit) -> Span
    requires { IsRead unit }
    ensures { result ≡ unit_span spans.now unit }
{
    match unit {
        SsaUnit::Load { width, .. } => Span::signed(width.bits()),
        SsaUnit::Store { .. } => Span::only(0),
        SsaUnit::Operation {
            op,
            width,
            amount,
            operands,
        } => operation_span(spans, op, width, amount, operands),
    }
}

// The same of an operation.
fn operation_span(spans: &[Span], op: Operator, width: Width, amount: u32, xs: Operands) -> Span
    requires { OperandsAreRead op width amount xs }
    ensures { result ≡ operation_span spans.now op (bits_of width) amount xs }
{
    let bits = width.bits();
    match op {
        Operator::Two(op) => {
            let first = read_operand(bits, spans, xs.first);
            let second = read_operand(bits, spans, xs.second);
            two_span(op, bits, first, second)
        }
        Operator::Shift(op) => { shift_span(op, bits, amount, read_operand(bits, spans, xs.first)) }
        Operator::Resize { op, from } => {
            resize_span(op, bits, read_operand(from.bits(), spans, xs.first))
        }
        Operator::Compare(_) => Span::new(0, 1),
        Operator::Select => {
            let first = operand_span(bits, spans, xs.second);
            let second = operand_span(bits, spans, xs.third);
            first.hull(second).readable(bits)
        }
    }
}
