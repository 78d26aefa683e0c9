//! What is asked of each value, the last first.

ghost use Rattle.std.specs.Prelude.{◌≡◌, ◌+◌, ◌<◌, ◌^◌, IfOk, Option, length, set};
ghost use Rattle.std.specs.List.{AllByRecursion};
ghost use Rattle.vg_rewrite.specs.Narrowed.{ask, ask_at, ask_bit, ask_first, ask_form, ask_made, ask_operation, ask_params, ask_unit, ask_units, ask_value, asked_at, asked_over};
ghost use Rattle.vg_rewrite.specs.Readable.{FormsAreRead, UnitIsNarrowed, UnitIsRead};

use crate::asked::Asked;
use crate::form::{Form, Made};
use crate::forms::{operation_form, value_form};
use std::alloc::{AllocError, Global};
use vg_base::Width;
use vg_scalar::Comparison;
use vg_shapes::{Operands, Operator, SsaUnit, Wanted};
use vg_spans::Span;

/// A value that forms are asked of.
#[derive(Clone, Copy)]
pub struct Source {
    /// Its number.
    pub value: u32,
    /// Its unit. A parameter has none.
    pub unit: Option<SsaUnit>,
    /// Its width.
    pub width: Width,
}

/// What is asked of the value of a number.
pub(crate) fn asked_at(all: &[Asked], value: u32) -> Asked
    ensures { result ≡ asked_at all.now value }
{
    all.get(value as usize).copied().unwrap_or(Asked::none())
}

// Past the last value nothing is set.
#[tactic(auto, using(std::proofs::lemmas::List::set_past))]
fn set_asked(all: &mut [Asked], value: u32, asked: Asked)
    ensures { all.new ≡ set all.old value asked }
{
    let index = value as usize;
    if index < all.len() {
        all[index] = asked;
    }
}

// Asks for the form of an operand at a width.
fn ask(all: &mut [Asked], width: Width, x: Wanted)
    ensures { all.new ≡ ask width x all.old }
{
    match x {
        Wanted::Value(value) => {
            let asked = asked_at(all, value).and_at(width);
            set_asked(all, value, asked);
        }
        Wanted::Constant { .. } => {}
        Wanted::Nothing => {}
    }
}

// Asks for a bit.
fn ask_bit(all: &mut [Asked], x: Wanted)
    ensures { all.new ≡ ask_bit x all.old }
{
    match x {
        Wanted::Value(value) => {
            let asked = asked_at(all, value).and_bit();
            set_asked(all, value, asked);
        }
        Wanted::Constant { .. } => {}
        Wanted::Nothing => {}
    }
}

// Asks for the form of a first operand, or for the bit that a choice goes by.
fn ask_first(all: &mut [Asked], op: Operator, width: Width, x: Wanted)
    ensures { all.new ≡ ask_first op width x all.old }
{
    match op {
        Operator::Two(_) => ask(all, width, x),
        Operator::Shift(_) => ask(all, width, x),
        Operator::Resize { .. } => ask(all, width, x),
        Operator::Compare(_) => ask(all, width, x),
        Operator::Select => ask_bit(all, x),
    }
}

// Asks for what an operation is made of.
fn ask_made(all: &mut [Asked], made: Made)
    ensures { all.new ≡ ask_made made all.old }
{
    ask(all, made.asked, made.operands.third);
    ask(all, made.asked, made.operands.second);
    ask_first(all, made.op, made.asked, made.operands.first);
}

// Asks for what a form at a width is made of.
fn ask_form(all: &mut [Asked], width: Width, form: Form)
    ensures { all.new ≡ ask_form width form all.old }
{
    match form {
        Form::Own => {}
        Form::Zero => {}
        Form::Same(x) => ask(all, width, x),
        Form::Whole(made) => ask_made(all, made),
        Form::Cut(made) => ask_made(all, made),
    }
}

// The same of a value, where its form at the width is asked for.
fn ask_at(spans: &[Span], all: &mut [Asked], source: Source, width: Width)
    requires { UnitIsRead source.unit }
    ensures { all.new ≡ ask_at spans.now source.value source.unit source.width width all.old }
{
    if asked_at(all, source.value).is_at(width) {
        let form = value_form(spans, source.value, source.unit, source.width, width);
        ask_form(all, width, form);
    }
}

// At all widths.
fn ask_value(spans: &[Span], all: &mut [Asked], source: Source)
    requires { UnitIsRead source.unit }
    ensures { all.new ≡ ask_value spans.now source.value source.unit source.width all.old }
{
    ask_at(spans, all, source, Width::W64);
    ask_at(spans, all, source, Width::W32);
    ask_at(spans, all, source, Width::W16);
    ask_at(spans, all, source, Width::W8);
}

// Of a comparison.
fn ask_comparison(
    spans: &[Span],
    all: &mut [Asked],
    value: u32,
    op: Comparison,
    width: Width,
    amount: u32,
    xs: Operands,
)
    requires { FormsAreRead (Operator.Compare op) width amount xs }
    ensures { all.new ≡ ask_operation spans.now value (Operator.Compare op) width amount xs all.old }
{
    if asked_at(all, value).bit {
        let op = Operator::Compare(op);
        let form = operation_form(spans, op, width, amount, xs, Width::W8);
        ask_form(all, Width::W8, form);
    }
}

// Of an operation.
fn ask_operation(
    spans: &[Span],
    all: &mut [Asked],
    value: u32,
    op: Operator,
    width: Width,
    amount: u32,
    xs: Operands,
)
    requires { FormsAreRead op width amount xs }
    ensures { all.new ≡ ask_operation spans.now value op width amount xs all.old }
{
    let source = Source {
        value,
        unit: Some(SsaUnit::Operation {
            op,
            width,
            amount,
            operands: xs,
        }),
        width,
    };
    match op {
        Operator::Compare(op) => ask_comparison(spans, all, value, op, width, amount, xs),
        Operator::Two(_) | Operator::Shift(_) | Operator::Resize { .. } | Operator::Select => {
            ask_value(spans, all, source)
        }
    }
}

// What the unit of a number asks for, where this is asked by those after it.
fn ask_unit(spans: &[Span], all: &mut [Asked], value: u32, unit: SsaUnit)
    requires { UnitIsRead (Option.Some unit) }
    ensures { all.new ≡ ask_unit spans.now value unit all.old }
{
    match unit {
        SsaUnit::Load { width, .. } => {
            let source = Source {
                value,
                unit: Some(unit),
                width,
            };
            ask_value(spans, all, source)
        }
        SsaUnit::Store {
            width,
            value: stored,
            ..
        } => ask(all, width, stored),
        SsaUnit::Operation {
            op,
            width,
            amount,
            operands,
        } => ask_operation(spans, all, value, op, width, amount, operands),
    }
}

// What units ask for, the first of which has this number, the last first.
fn ask_units(spans: &[Span], all: &mut [Asked], first: usize, units: &[SsaUnit])
    requires few { first + length units.now < 2 ^ 32 }
    requires read { AllByRecursion UnitIsNarrowed units.now }
    ensures { all.new ≡ ask_units spans.now first units.now all.old }
{
    let mut left = units.len();
    'units: while left > 0 {
        left -= 1;
        ask_unit(spans, all, (first + left) as u32, units[left]);
    }
}

// What the parameters of these widths ask for, the last first.
fn ask_params(spans: &[Span], all: &mut [Asked], widths: &[Width])
    requires { length widths.now < 2 ^ 32 }
    ensures { all.new ≡ ask_params spans.now 0 widths.now all.old }
{
    let mut left = widths.len();
    'widths: while left > 0 {
        left -= 1;
        let source = Source {
            value: left as u32,
            unit: None,
            width: widths[left],
        };
        ask_value(spans, all, source);
    }
}

/// What is asked of each value, where the values have these spans, the parameters these widths.
pub(crate) fn asked_of(
    alloc: Global,
    spans: &[Span],
    widths: &[Width],
    units: &[SsaUnit],
) -> Result<Vec<Asked>, AllocError>
    requires few { length widths.now + length units.now < 2 ^ 32 }
    requires read { AllByRecursion UnitIsNarrowed units.now }
    ensures { IfOk result (λ all. all.items ≡ asked_over spans.now widths.now units.now) }
{
    let mut all = vec![in alloc; Asked::none(); widths.len() + units.len()]?;
    ask_units(spans, all.as_mut_slice(), widths.len(), units);
    ask_params(spans, all.as_mut_slice(), widths);
    Ok(all)
}
