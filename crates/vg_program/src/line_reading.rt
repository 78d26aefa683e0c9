//! The lines of a program between its first and its last.

ghost use Rattle.std.specs.Prelude.{◌≡◌, ◌≤◌, length, vec_len, [], IfOk};
ghost use Rattle.vg_program.specs.Before.{nothing_before};
ghost use Rattle.vg_program.specs.Tokens.{Gives};
ghost use Rattle.vg_program.specs.Grammar.{load_at, store_at, two_at, amount_from, shift_at, resized, resize_at, compare_at, select_at, operands_at, line_at, lines_at};

use crate::before::Before;
use crate::call_reading::call_at;
use crate::fault::Fault;
use crate::head::Head;
use crate::head_reading::head_at;
use crate::line::{Line, defined};
use crate::operand_reading::{address_at, judged, operand_at, pair_at, sized_at};
use crate::param::Param;
use crate::stop::ReadError;
use crate::tokens::{is_word, number_at, signs_at, unfit};
use crate::vector_reading::{constant_at, extract_at, insert_at, vector_load_at, vector_store_at};
use crate::wanted::Wanted;
use std::alloc::Global;
use vg_base::width::Width;
use vg_pseudo::Header;
use vg_scalar::{Comparison, Resize, Shift, TwoOp};

#[tactic(auto, unfolding(crate::specs::Grammar::load_at))]
fn load_at<'a>(before: &Before, width: Width, text: &'a [u8]) -> Result<(Line, &'a [u8]), ReadError>
    ensures { Gives (λ x. (x.0, x.1.now)) result (load_at before.now width text.now) }
{
    let (address, rest) = address_at(before, text)?;
    Ok((Line::Load { width, address }, rest))
}

#[tactic(auto, unfolding(crate::specs::Grammar::store_at))]
fn store_at<'a>(before: &Before, text: &'a [u8]) -> Result<(Line, &'a [u8]), ReadError>
    ensures { Gives (λ x. (x.0, x.1.now)) result (store_at before.now text.now) }
{
    let (address, rest) = address_at(before, text)?;
    let rest = signs_at(b" ", rest)?;
    let (value, width, rest) = sized_at(before, Wanted::Number, rest)?;
    Ok((
        Line::Store {
            width,
            address,
            value,
        },
        rest,
    ))
}

#[tactic(auto, unfolding(crate::specs::Grammar::two_at))]
fn two_at<'a>(
    before: &Before,
    op: TwoOp,
    width: Width,
    text: &'a [u8],
) -> Result<(Line, &'a [u8]), ReadError>
    ensures { Gives (λ x. (x.0, x.1.now)) result (two_at before.now op width text.now) }
{
    let (left, right, rest) = pair_at(before, width, text)?;
    Ok((
        Line::Two {
            op,
            width,
            left,
            right,
        },
        rest,
    ))
}

fn amount_from(width: Width, number: u128) -> Result<u32, Fault>
    ensures { result ≡ amount_from width number }
{
    if number < width.bits() as u128 {
        Ok(number as u32)
    } else {
        Err(Fault::Range)
    }
}

#[tactic(auto, unfolding(crate::specs::Grammar::shift_at))]
fn shift_at<'a>(
    before: &Before,
    op: Shift,
    width: Width,
    text: &'a [u8],
) -> Result<(Line, &'a [u8]), ReadError>
    ensures { Gives (λ x. (x.0, x.1.now)) result
        (shift_at before.now op width text.now) }
{
    let (operand, _, rest) = operand_at(before, Wanted::Exactly(width), text)?;
    let number = signs_at(b" ", rest)?;
    let (n, rest) = number_at(number)?;
    let amount = judged(number, amount_from(width, n))?;
    Ok((
        Line::Shift {
            op,
            width,
            operand,
            amount,
        },
        rest,
    ))
}

/// What a change to this width wants.
fn resized(op: Resize, width: Width) -> Wanted
    ensures { result ≡ resized op width }
{
    match op {
        Resize::Sext | Resize::Zext => Wanted::Narrower(width),
        Resize::Trunc => Wanted::Wider(width),
    }
}

#[tactic(auto, unfolding(crate::specs::Grammar::resize_at))]
fn resize_at<'a>(
    before: &Before,
    op: Resize,
    width: Width,
    text: &'a [u8],
) -> Result<(Line, &'a [u8]), ReadError>
    ensures { Gives (λ x. (x.0, x.1.now)) result
        (resize_at before.now op width text.now) }
{
    let (operand, from, rest) = sized_at(before, resized(op, width), text)?;
    Ok((
        Line::Resize {
            op,
            width,
            from,
            operand,
        },
        rest,
    ))
}

#[tactic(auto, unfolding(crate::specs::Grammar::compare_at))]
fn compare_at<'a>(
    before: &Before,
    op: Comparison,
    text: &'a [u8],
) -> Result<(Line, &'a [u8]), ReadError>
    ensures { Gives (λ x. (x.0, x.1.now)) result (compare_at before.now op text.now) }
{
    let (left, width, rest) = sized_at(before, Wanted::Number, text)?;
    let rest = signs_at(b" ", rest)?;
    let (right, _, rest) = operand_at(before, Wanted::Exactly(width), rest)?;
    Ok((
        Line::Compare {
            op,
            width,
            left,
            right,
        },
        rest,
    ))
}

#[tactic(auto, unfolding(crate::specs::Grammar::select_at))]
fn select_at<'a>(
    before: &Before,
    width: Width,
    text: &'a [u8],
) -> Result<(Line, &'a [u8]), ReadError>
    ensures { Gives (λ x. (x.0, x.1.now)) result (select_at before.now width text.now) }
{
    let (condition, _, rest) = operand_at(before, Wanted::Bit, text)?;
    let rest = signs_at(b" ", rest)?;
    let (first, second, rest) = pair_at(before, width, rest)?;
    Ok((
        Line::Select {
            width,
            condition,
            first,
            second,
        },
        rest,
    ))
}

fn operands_at<'a>(
    alloc: Global,
    before: &Before,
    head: Head,
    text: &'a [u8],
) -> Result<(Line, &'a [u8]), ReadError>
    ensures { Gives (λ x. (x.0, x.1.now)) result (operands_at before.now head text.now) }
{
    match head {
        Head::Store => store_at(before, text),
        Head::Load(width) => load_at(before, width, text),
        Head::Two(op, width) => two_at(before, op, width, text),
        Head::Shift(op, width) => shift_at(before, op, width, text),
        Head::Resize(op, width) => resize_at(before, op, width, text),
        Head::Compare(op) => compare_at(before, op, text),
        Head::Select(width) => select_at(before, width, text),
        Head::VectorLoad => vector_load_at(before, text),
        Head::VectorStore => vector_store_at(before, text),
        Head::Constant => constant_at(alloc, text),
        Head::Insert => insert_at(before, text),
        Head::Extract(width) => extract_at(before, width, text),
        Head::Call => call_at(alloc, before, text),
    }
}

#[tactic(auto, unfolding(crate::specs::Grammar::line_at))]
fn line_at<'a>(
    alloc: Global,
    before: &Before,
    text: &'a [u8],
) -> Result<(Line, &'a [u8]), ReadError>
    ensures { Gives (λ x. (x.0, x.1.now)) result (line_at before.now text.now) }
{
    let (head, rest) = head_at(before.counts(), text)?;
    let (line, rest) = operands_at(alloc, before, head, rest)?;
    let rest = signs_at(b"\n", rest)?;
    Ok((line, rest))
}

/// Lines up to the word `end`, at most so many.
#[tactic(auto, using(crate::proofs::LineLoop::lines_ended, crate::proofs::LineLoop::lines_full, crate::proofs::LineLoop::lines_fault, crate::proofs::LineLoop::lines_more))]
pub(crate) fn lines_at<'a>(
    alloc: Global,
    most: usize,
    params: &[Param],
    headers: &[Header],
    text: &'a [u8],
) -> Result<(Vec<Line>, &'a [u8]), ReadError>
    requires params { length params.now ≤ 16 }
    requires most { most ≤ 4194304 }
    ensures exact { Gives (λ x. (x.0.items, x.1.now)) result
        (lines_at most (nothing_before headers.now params.now) [] text.now) }
    ensures few { IfOk result (λ x. vec_len x.0 ≤ most) }
{
    let mut lines = Vec::new(alloc);
    let mut before = Before::new(alloc, params, headers);
    let mut rest = text;
    'lines: loop {
        if is_word(b"end", rest) {
            return Ok((lines, rest));
        }
        if lines.len() == most {
            return Err(ReadError::At(unfit(rest)));
        }
        let (line, behind) = line_at(alloc, &before, rest)?;
        before = before.with(defined(&line))?;
        lines.push(line)?;
        rest = behind;
    }
}
