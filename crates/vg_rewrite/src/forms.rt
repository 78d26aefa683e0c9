//! The forms of values.

ghost use Rattle.std.specs.Prelude.{◌≡◌};
ghost use Rattle.vg_base.specs.Width.{bits_of};
ghost use Rattle.vg_rewrite.specs.Form.{alone, compare_operands, comparison_by, comparison_form, cut_to, extreme_form, greater_by, lesser_by, low_form, made, narrow_form, operation_form, own_form, reading_of, right_form, shift_form, two_form, value_form, wide_form};
ghost use Rattle.vg_rewrite.specs.Readable.{FormsAreRead, UnitIsRead};
ghost use Rattle.vg_spans.specs.Operand.{IsOperand, OperandsAreRead};

use crate::choice::{Compared, Reading, Shifted, comparison_choice, natural_width, shift_choice};
use crate::form::{Form, Made};
use vg_base::Width;
use vg_scalar::{Comparison, Resize, Shift, TwoOp};
use vg_shapes::{Operands, Operator, SsaUnit, Wanted};
use vg_spans::{Span, operand_span, span_at};

fn made(op: Operator, width: Width, amount: u32, operands: Operands, asked: Width) -> Made
    ensures { result ≡ made op width amount operands asked }
{
    Made {
        op,
        width,
        amount,
        operands,
        asked,
    }
}

pub(crate) fn alone(x: Wanted) -> Operands
    ensures { result ≡ alone x }
{
    Operands {
        first: x,
        second: Wanted::Nothing,
        third: Wanted::Nothing,
    }
}

// A unit of forms at a width, cut to the one that is asked for where it is more.
fn cut_to(asked: Width, width: Width, unit: Made) -> Form
    ensures { result ≡ cut_to asked width unit }
{
    if asked.bits() < width.bits() {
        Form::Cut(unit)
    } else {
        Form::Whole(unit)
    }
}

fn resized(op: Resize, from: Width, value: u32, width: Width) -> Form
    ensures { result
        ≡ Form.Whole (made (Operator.Resize op from) width 0 (alone (Wanted.Value value)) from) }
{
    let op = Operator::Resize { op, from };
    Form::Whole(made(op, width, 0, alone(Wanted::Value(value)), from))
}

// The value of a parameter or a load at a width that is no more than its own.
fn own_form(value: u32, own: Width, asked: Width) -> Form
    ensures { result ≡ own_form value own asked }
{
    if asked.bits() < own.bits() {
        resized(Resize::Trunc, own, value, asked)
    } else {
        Form::Own
    }
}

fn lesser_by(reading: Reading) -> TwoOp
    ensures { result ≡ lesser_by reading }
{
    match reading {
        Reading::Signed => TwoOp::Smin,
        Reading::Unsigned => TwoOp::Umin,
        Reading::Either => TwoOp::Umin,
    }
}

fn greater_by(reading: Reading) -> TwoOp
    ensures { result ≡ greater_by reading }
{
    match reading {
        Reading::Signed => TwoOp::Smax,
        Reading::Unsigned => TwoOp::Umax,
        Reading::Either => TwoOp::Umax,
    }
}

fn comparison_by(reading: Reading) -> Comparison
    ensures { result ≡ comparison_by reading }
{
    match reading {
        Reading::Signed => Comparison::Slt,
        Reading::Unsigned => Comparison::Ult,
        Reading::Either => Comparison::Eq,
    }
}

fn reading_of(op: Comparison) -> Reading
    ensures { result ≡ reading_of op }
{
    match op {
        Comparison::Eq => Reading::Either,
        Comparison::Slt => Reading::Signed,
        Comparison::Ult => Reading::Unsigned,
    }
}

fn minimum(asked: Width, xs: Operands, c: Compared) -> Form
    ensures { result ≡ extreme_form lesser_by asked xs c }
{
    let op = Operator::Two(lesser_by(c.reading));
    cut_to(asked, c.width, made(op, c.width, 0, xs, c.width))
}

fn maximum(asked: Width, xs: Operands, c: Compared) -> Form
    ensures { result ≡ extreme_form greater_by asked xs c }
{
    let op = Operator::Two(greater_by(c.reading));
    cut_to(asked, c.width, made(op, c.width, 0, xs, c.width))
}

// How two operands of a width can be compared.
fn compare_operands(spans: &[Span], how: Reading, own: Width, xs: Operands) -> Compared
    requires { OperandsAreRead (Operator.Two TwoOp.Add) own 0 xs }
    ensures { result ≡ compare_operands spans.now how own xs }
{
    let first = operand_span(own.bits(), spans, xs.first);
    let second = operand_span(own.bits(), spans, xs.second);
    comparison_choice(how, own, first, second)
}

fn low_form(op: TwoOp, xs: Operands, asked: Width) -> Form
    ensures { result ≡ low_form op xs asked }
{
    Form::Whole(made(Operator::Two(op), asked, 0, xs, asked))
}

fn two_form(spans: &[Span], op: TwoOp, own: Width, xs: Operands, asked: Width) -> Form
    requires { OperandsAreRead (Operator.Two op) own 0 xs }
    ensures { result ≡ two_form spans.now op own xs asked }
{
    match op {
        TwoOp::Add | TwoOp::Sub | TwoOp::Mul => low_form(op, xs, asked),
        TwoOp::And | TwoOp::Or | TwoOp::Xor => low_form(op, xs, asked),
        TwoOp::Smin => minimum(asked, xs, compare_operands(spans, Reading::Signed, own, xs)),
        TwoOp::Smax => maximum(asked, xs, compare_operands(spans, Reading::Signed, own, xs)),
        TwoOp::Umin => minimum(
            asked,
            xs,
            compare_operands(spans, Reading::Unsigned, own, xs),
        ),
        TwoOp::Umax => maximum(
            asked,
            xs,
            compare_operands(spans, Reading::Unsigned, own, xs),
        ),
    }
}

// A shift to the right as was chosen.
fn right_form(asked: Width, amount: u32, xs: Operands, c: Shifted) -> Form
    ensures { result ≡ right_form asked amount xs c }
{
    let op = Operator::Shift(c.op);
    cut_to(asked, c.width, made(op, c.width, amount, xs, c.width))
}

fn left_form(spans: &[Span], own: Width, amount: u32, xs: Operands, asked: Width) -> Form
    ensures { result ≡ shift_form spans.now Shift.Shl own amount xs asked }
{
    if asked.bits() <= amount {
        Form::Zero
    } else {
        Form::Whole(made(Operator::Shift(Shift::Shl), asked, amount, xs, asked))
    }
}

fn shift_form(
    spans: &[Span],
    op: Shift,
    own: Width,
    amount: u32,
    xs: Operands,
    asked: Width,
) -> Form
    requires { OperandsAreRead (Operator.Shift op) own amount xs }
    ensures { result ≡ shift_form spans.now op own amount xs asked }
{
    match op {
        Shift::Shl => left_form(spans, own, amount, xs, asked),
        Shift::Lshr => {
            let span = operand_span(own.bits(), spans, xs.first);
            right_form(
                asked,
                amount,
                xs,
                shift_choice(Shift::Lshr, amount, own, span, asked),
            )
        }
        Shift::Ashr => {
            let span = operand_span(own.bits(), spans, xs.first);
            right_form(
                asked,
                amount,
                xs,
                shift_choice(Shift::Ashr, amount, own, span, asked),
            )
        }
    }
}

// A comparison as was chosen.
fn comparison_form(xs: Operands, c: Compared) -> Form
    ensures { result ≡ comparison_form xs c }
{
    let op = Operator::Compare(comparison_by(c.reading));
    Form::Whole(made(op, c.width, 0, xs, c.width))
}

/// How the number of an operation is had at a width.
pub(crate) fn operation_form(
    spans: &[Span],
    op: Operator,
    own: Width,
    amount: u32,
    xs: Operands,
    asked: Width,
) -> Form
    requires { FormsAreRead op own amount xs }
    ensures { result ≡ operation_form spans.now op own amount xs asked }
{
    match op {
        Operator::Two(op) => two_form(spans, op, own, xs, asked),
        Operator::Shift(op) => shift_form(spans, op, own, amount, xs, asked),
        Operator::Resize { .. } => Form::Same(xs.first),
        Operator::Compare(op) => {
            let how = compare_operands(spans, reading_of(op), own, xs);
            comparison_form(xs, how)
        }
        Operator::Select => Form::Whole(made(Operator::Select, asked, 0, xs, asked)),
    }
}

// The form of a value at a width that is no more than its natural one.
fn narrow_form(spans: &[Span], value: u32, unit: Option<SsaUnit>, own: Width, asked: Width) -> Form
    requires { UnitIsRead unit }
    ensures { result ≡ narrow_form spans.now value unit own asked }
{
    match unit {
        None => own_form(value, own, asked),
        Some(SsaUnit::Load { .. }) => own_form(value, own, asked),
        Some(SsaUnit::Store { .. }) => Form::Own,
        Some(
            SsaUnit::Operation {
                op,
                width,
                amount,
                operands,
            },
        ) => operation_form(spans, op, width, amount, operands, asked),
    }
}

// An extension of the form at the natural width.
fn wide_form(span: Span, value: u32, natural: Width, asked: Width) -> Form
    ensures { result ≡ wide_form span value natural asked }
{
    if span.is_unsigned(natural.bits()) {
        resized(Resize::Zext, natural, value, asked)
    } else {
        resized(Resize::Sext, natural, value, asked)
    }
}

/// How the number of a value is had at a width, modulo 2 to that width, where the values have these
/// spans. The value is that of a parameter or of a unit, with a width of its own.
pub fn value_form(
    spans: &[Span],
    value: u32,
    unit: Option<SsaUnit>,
    own: Width,
    asked: Width,
) -> Form
    requires { UnitIsRead unit }
    ensures { result ≡ value_form spans.now value unit own asked }
{
    let span = span_at(spans, value);
    let natural = natural_width(own, span);
    if natural.bits() < asked.bits() {
        wide_form(span, value, natural, asked)
    } else {
        narrow_form(spans, value, unit, own, asked)
    }
}
