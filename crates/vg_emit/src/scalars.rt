//! Lines of units outside packs.

ghost use Rattle.std.specs.Prelude.{◌≡◌, OnOk};
ghost use Rattle.vg_emission.specs.Emission.{number_for, operation_line, unit_lines, width_for};
ghost use Rattle.vg_emit.specs.Views.{behind, IsNarrow, job_of, known, made_of, TakesNarrow};

use crate::draft::{Draft, put_line, put_named};
use crate::job::{Job, is_needed};
use std::alloc::AllocError;
use vg_base::Width;
use vg_program::{Line, Operand};
use vg_shapes::{Operator, SsaUnit, Wanted};

/// The width of so many bits: 8, 16 or 32, else 64.
pub(crate) fn width_for(bits: u32) -> Width
    ensures { result ≡ width_for bits }
{
    match bits {
        8 => Width::W8,
        16 => Width::W16,
        32 => Width::W32,
        _ => Width::W64,
    }
}

/// What stands for a value or a constant.
pub(crate) fn number_for(job: &Job, draft: &Draft, wanted: Wanted) -> Operand
    requires { IsNarrow wanted }
    ensures { result ≡ number_for (job_of job.now) (known draft.now) wanted }
{
    match wanted {
        Wanted::Value(value) => {
            let place = value as usize;
            if place < job.ssa.arguments() {
                Operand::Argument(value)
            } else {
                Operand::Register(draft.names.get(place).unwrap_or(0))
            }
        }
        Wanted::Constant { width, value } => Operand::Literal {
            width: width_for(width),
            number: value as u64,
        },
        Wanted::Nothing => Operand::Literal {
            width: Width::W8,
            number: 0,
        },
    }
}

fn operation_line(
    op: Operator,
    width: Width,
    amount: u32,
    first: Operand,
    second: Operand,
    third: Operand,
) -> Line
    ensures { result ≡ operation_line op width amount first second third }
{
    match op {
        Operator::Two(op) => Line::Two {
            op,
            width,
            left: first,
            right: second,
        },
        Operator::Shift(op) => Line::Shift {
            op,
            width,
            operand: first,
            amount,
        },
        Operator::Resize { op, from } => Line::Resize {
            op,
            width,
            from,
            operand: first,
        },
        Operator::Compare(op) => Line::Compare {
            op,
            width,
            left: first,
            right: second,
        },
        Operator::Select => Line::Select {
            width,
            condition: first,
            first: second,
            second: third,
        },
    }
}

/// Adds the line of a load, of a store, or of an operation that is needed.
pub(crate) fn put_unit(
    job: &Job,
    draft: &mut Draft,
    number: u32,
    unit: Option<SsaUnit>,
) -> Result<(), AllocError>
    requires { TakesNarrow unit }
    ensures { OnOk result (made_of draft.new
        ≡ behind (made_of draft.old) (unit_lines (job_of job.now) (known draft.old) number unit)) }
{
    match unit {
        None => Ok(()),
        Some(SsaUnit::Load { address, width }) => {
            put_named(draft, Line::Load { width, address }, number)
        }
        Some(
            SsaUnit::Store {
                address,
                width,
                value,
            },
        ) => {
            let value = number_for(job, draft, value);
            put_line(
                draft,
                Line::Store {
                    width,
                    address,
                    value,
                },
            )
        }
        Some(
            SsaUnit::Operation {
                op,
                width,
                amount,
                operands,
            },
        ) => {
            let needed = is_needed(job, number);
            if !needed {
                return Ok(());
            }
            let first = number_for(job, draft, operands.first);
            let second = number_for(job, draft, operands.second);
            let third = number_for(job, draft, operands.third);
            let line = operation_line(op, width, amount, first, second, third);
            put_named(draft, line, number)
        }
    }
}
