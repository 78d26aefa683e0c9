//! The spans of operands.

ghost use Rattle.std.specs.Prelude.{◌≡◌, ◌≤◌, pos, slice_index_or};
ghost use Rattle.vg_spans.specs.Operand.{IsOperand};
ghost use Rattle.vg_spans.specs.Span.{only};
ghost use Rattle.vg_spans.specs.Spans.{operand_span, read_operand, signed_numbers, unsigned_numbers};

use crate::span::Span;
use vg_base::number;
use vg_shapes::Wanted;

/// An operand of a width, read in each way.
#[derive(Clone, Copy)]
pub struct OperandSpans {
    /// By its span.
    pub plain: Span,
    /// Its signed numbers.
    pub signed: Span,
    /// Its unsigned numbers.
    pub unsigned: Span,
}

/// The span of a value, where the values have these.
pub fn span_at(spans: &[Span], value: u32) -> Span
    ensures { result ≡ slice_index_or spans.now value (only (pos 0)) }
{
    spans.get(value as usize).copied().unwrap_or(Span::only(0))
}

/// The span of an operand of so many bits, from 1 to 64.
pub fn operand_span(width: u32, spans: &[Span], x: Wanted) -> Span
    requires least { 1 ≤ width }
    requires most { width ≤ 64 }
    requires operand { IsOperand width x }
    ensures { result ≡ operand_span spans.now x }
{
    match x {
        Wanted::Value(value) => span_at(spans, value),
        Wanted::Constant { width, value } => Span::only(number::signed(value, width)),
        Wanted::Nothing => Span::only(0),
    }
}

// The signed numbers of an operand with this span.
fn signed_numbers(width: u32, span: Span) -> Span
    requires least { 1 ≤ width }
    requires most { width ≤ 64 }
    ensures { result ≡ signed_numbers width span }
{
    if span.is_signed(width) {
        span
    } else {
        Span::signed(width)
    }
}

// The unsigned numbers of an operand.
fn unsigned_numbers(width: u32, spans: &[Span], x: Wanted) -> Span
    requires least { 1 ≤ width }
    requires most { width ≤ 64 }
    requires operand { IsOperand width x }
    ensures { result ≡ unsigned_numbers width spans.now x }
{
    match x {
        Wanted::Value(value) => {
            let span = span_at(spans, value);
            if span.is_unsigned(width) {
                span
            } else {
                Span::unsigned(width)
            }
        }
        Wanted::Constant { value, .. } => Span::only(value as i128),
        Wanted::Nothing => Span::only(0),
    }
}

/// An operand of so many bits, from 1 to 64, read in each way.
pub fn read_operand(width: u32, spans: &[Span], x: Wanted) -> OperandSpans
    requires least { 1 ≤ width }
    requires most { width ≤ 64 }
    requires operand { IsOperand width x }
    ensures { result ≡ read_operand width spans.now x }
{
    let plain = operand_span(width, spans, x);
    OperandSpans {
        plain,
        signed: signed_numbers(width, plain),
        unsigned: unsigned_numbers(width, spans, x),
    }
}
