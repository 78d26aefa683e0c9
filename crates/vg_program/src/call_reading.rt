//! Calls of instructions.

ghost use Rattle.std.specs.Prelude.{◌≡◌, []};
ghost use Rattle.vg_program.specs.Tokens.{Gives};
ghost use Rattle.vg_program.specs.Grammar.{registers_at, imm_from, imm_behind, imm_at, call_at};

use crate::before::Before;
use crate::fault::Fault;
use crate::line::Line;
use crate::operand_reading::judged;
use crate::stop::ReadError;
use crate::tokens::{met, name_at, number_at, signs_at, word_at};
use crate::vector_reading::vector_at;
use std::alloc::Global;
use vg_base::items::Items;
use vg_base::name::Name;
use vg_pseudo::{ImmRange, Param};

/// A register for each of these parameters.
#[tactic(auto, unfolding(crate::specs::Grammar::registers_at))]
fn registers_at<'a>(
    alloc: Global,
    before: &Before,
    params: &[Param],
    text: &'a [u8],
) -> Result<(Vec<u32>, &'a [u8]), ReadError>
    ensures { Gives (λ x. (x.0.items, x.1.now)) result
        (registers_at before.now params.now [] text.now) }
{
    let mut registers = Vec::new(alloc);
    let mut left = params;
    let mut rest = text;
    'params: while let [param, others @ ..] = left {
        let register = signs_at(b" ", rest)?;
        let (number, behind) = vector_at(before, param.register, register)?;
        registers.push(number)?;
        left = others;
        rest = behind;
    }
    Ok((registers, rest))
}

fn imm_from(range: &ImmRange, number: u128) -> Result<u8, Fault>
    ensures { result ≡ imm_from range.now number }
{
    if number < 256 && (range.lo as u128 <= number && number <= range.hi as u128) {
        Ok(number as u8)
    } else {
        Err(Fault::Range)
    }
}

#[tactic(auto, unfolding(crate::specs::Grammar::imm_behind))]
fn imm_behind<'a>(range: &ImmRange, text: &'a [u8]) -> Result<(u8, &'a [u8]), ReadError>
    ensures { Gives (λ x. (x.0, x.1.now)) result (imm_behind range.now text.now) }
{
    let rest = signs_at(b" ", text)?;
    let rest = word_at(b"imm", rest)?;
    let number = signs_at(b" ", rest)?;
    let (n, rest) = number_at(number)?;
    let imm = judged(number, imm_from(range, n))?;
    Ok((imm, rest))
}

/// The immediate, where there is to be one.
#[tactic(auto, unfolding(crate::specs::Grammar::imm_at))]
fn imm_at<'a>(range: &Option<ImmRange>, text: &'a [u8]) -> Result<(Option<u8>, &'a [u8]), ReadError>
    ensures { Gives (λ x. (x.0, x.1.now)) result (imm_at range.now text.now) }
{
    match range {
        None => Ok((None, text)),
        Some(range) => {
            let (imm, rest) = imm_behind(range, text)?;
            Ok((Some(imm), rest))
        }
    }
}

#[tactic(auto, unfolding(crate::specs::Grammar::call_at))]
pub(crate) fn call_at<'a>(
    alloc: Global,
    before: &Before,
    text: &'a [u8],
) -> Result<(Line, &'a [u8]), ReadError>
    ensures { Gives (λ x. (x.0, x.1.now)) result (call_at before.now text.now) }
{
    let (name, rest) = name_at(text)?;
    match before.header(name) {
        None => Err(ReadError::At(met(Fault::UnknownInstruction, text))),
        Some(header) => {
            let (registers, rest) = registers_at(alloc, before, header.params.as_slice(), rest)?;
            let (imm, rest) = imm_at(&header.imm, rest)?;
            let name = Name::new(alloc, name)?;
            Ok((
                Line::Call {
                    name,
                    registers: Items::from_vec(registers),
                    imm,
                    bits: header.register,
                    cost: header.cost,
                },
                rest,
            ))
        }
    }
}
