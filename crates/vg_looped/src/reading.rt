//! The reading of looped texts.

ghost use Rattle.std.specs.Prelude.{◌≡◌, ◌≤◌, [], length, IfOk, Ok};
ghost use Rattle.vg_pseudo.specs.declared.header.Header.{Header};
ghost use Rattle.vg_program.specs.Faults.{Returns};
ghost use Rattle.vg_program.specs.Tokens.{Gives};
ghost use Rattle.vg_looped.specs.declared.looped.Looped.{Looped};
ghost use Rattle.vg_looped.specs.Grammar.{
  number_from,
  times_at,
  step_at,
  pair_at,
  pairs_at,
  turns_at,
  word_line_at,
  looped_at,
  read_looped,
};
ghost use Rattle.vg_looped.specs.Looped.{looped_text, IsLooped};

use crate::looped::Looped;
use crate::steps::{pointers_in, steps_of};
use crate::told::Told;
use std::alloc::Global;
use vg_base::Items;
use vg_program::parts::{
    Fault, ReadError, begins, body_at, integer_of, judged, met, name_at, named_in, number_at,
    pointer_of, refused_by, signature_at, signs_at, unfit, word_at,
};
use vg_program::{MOST_BYTES, Param, ProgramFault};
use vg_pseudo::Header;
use vg_text::Place;

/// A number from 1 to `most`.
fn number_from(most: u32, number: u128) -> Result<u32, Fault>
    ensures { result ≡ number_from most number }
{
    if 1 <= number && number <= most as u128 {
        Ok(number as u32)
    } else {
        Err(Fault::Range)
    }
}

#[tactic(auto, unfolding(crate::specs::Grammar::times_at))]
fn times_at<'a>(params: &[Param], text: &'a [u8]) -> Result<(u32, &'a [u8]), ReadError>
    requires { length params.now ≤ 16 }
    ensures { Gives (λ x. (x.0, x.1.now)) result (times_at params.now text.now) }
{
    let (name, rest) = name_at(text)?;
    let (times, _width) = judged(text, integer_of(named_in(params, name)))?;
    Ok((times, rest))
}

#[tactic(auto, unfolding(crate::specs::Grammar::step_at))]
fn step_at(pointer: u32, text: &[u8]) -> Result<((u32, u32), &[u8]), ReadError>
    ensures { Gives (λ x. (x.0, x.1.now)) result (step_at pointer text.now) }
{
    let number = signs_at(b" ", text)?;
    let (n, rest) = number_at(number)?;
    let step = judged(number, number_from(65_536, n))?;
    Ok(((pointer, step), rest))
}

/// A pointer and its step, where a pointer may stand from this number on.
#[tactic(auto, unfolding(crate::specs::Grammar::pair_at))]
fn pair_at<'a>(
    params: &[Param],
    least: u64,
    text: &'a [u8],
) -> Result<((u32, u32), &'a [u8]), ReadError>
    requires { length params.now ≤ 16 }
    ensures { Gives (λ x. (x.0, x.1.now)) result (pair_at params.now least text.now) }
{
    let (name, rest) = name_at(text)?;
    let pointer = judged(text, pointer_of(named_in(params, name)))?;
    if (pointer as u64) < least {
        return Err(ReadError::At(met(Fault::Shape, text)));
    }
    step_at(pointer, rest)
}

/// Pointers and their steps, with commas between them. At most 16 are in order.
#[tactic(auto, using(crate::proofs::PairLoop::pairs_full, crate::proofs::PairLoop::pairs_fault, crate::proofs::PairLoop::pairs_ended, crate::proofs::PairLoop::pairs_comma, crate::proofs::PairLoop::pairs_more))]
fn pairs_at<'a>(
    alloc: Global,
    params: &[Param],
    text: &'a [u8],
) -> Result<(Vec<(u32, u32)>, &'a [u8]), ReadError>
    requires { length params.now ≤ 16 }
    ensures { Gives (λ x. (x.0.items, x.1.now)) result (pairs_at 17 params.now [] 0 text.now) }
{
    let mut pairs = Vec::new(alloc);
    let mut least = 0;
    let mut rest = text;
    'pairs: while pairs.len() < 17 {
        let (pair, behind) = pair_at(params, least, rest)?;
        pairs.push(pair)?;
        if !begins(b',', behind) {
            return Ok((pairs, behind));
        }
        rest = signs_at(b", ", behind)?;
        least = pair.0 as u64 + 1;
    }
    Err(ReadError::At(unfit(rest)))
}

/// What stands after the name and the parameters in the first line: ` times n step p 4 block 16`.
#[tactic(auto, unfolding(crate::specs::Grammar::turns_at))]
pub fn turns_at<'a>(
    alloc: Global,
    params: &[Param],
    text: &'a [u8],
) -> Result<(Told, &'a [u8]), ReadError>
    requires { length params.now ≤ 16 }
    ensures { Gives (λ x. (x.0, x.1.now)) result (turns_at params.now text.now) }
{
    let rest = signs_at(b" ", text)?;
    let rest = word_at(b"times", rest)?;
    let rest = signs_at(b" ", rest)?;
    let (times, rest) = times_at(params, rest)?;
    let rest = signs_at(b" ", rest)?;
    let rest = word_at(b"step", rest)?;
    let rest = signs_at(b" ", rest)?;
    let (pairs, rest) = pairs_at(alloc, params, rest)?;
    let rest = signs_at(b" ", rest)?;
    let rest = word_at(b"block", rest)?;
    let number = signs_at(b" ", rest)?;
    let (n, rest) = number_at(number)?;
    let turns = judged(number, number_from(16, n))?;
    let pairs = Items::from_vec(pairs);
    Ok((
        Told {
            times,
            pairs,
            turns,
        },
        rest,
    ))
}

/// A word that stands alone in its line.
#[tactic(auto, unfolding(crate::specs::Grammar::word_line_at))]
pub fn word_line_at<'a>(word: &[u8], text: &'a [u8]) -> Result<&'a [u8], ReadError>
    ensures { Gives (λ rest. rest.now) result (word_line_at word.now text.now) }
{
    let rest = word_at(word, text)?;
    let rest = signs_at(b"\n", rest)?;
    Ok(rest)
}

#[tactic(auto, unfolding(crate::specs::Grammar::looped_at))]
fn looped_at(alloc: Global, headers: &[Header], text: &[u8]) -> Result<Looped, ReadError>
    ensures { Gives (λ l. l) result (looped_at headers.now text.now) }
{
    let text = word_at(b"looped", text)?;
    let text = signs_at(b" ", text)?;
    let (signature, text) = signature_at(alloc, text)?;
    let (told, text) = turns_at(alloc, signature.params.as_slice(), text)?;
    let count = pointers_in(signature.params.as_slice());
    let steps = steps_of(alloc, count, told.pairs.as_slice())?;
    let text = signs_at(b"\n", text)?;
    let copy = signature.copy(alloc)?;
    let (block, text) = body_at(alloc, headers, copy, text)?;
    let text = word_line_at(b"rest", text)?;
    let (rest, text) = body_at(alloc, headers, signature, text)?;
    let text = word_at(b"end", text)?;
    let text = signs_at(b" ", text)?;
    let text = word_line_at(b"looped", text)?;
    if !text.is_empty() {
        return Err(ReadError::At(unfit(text)));
    }
    Ok(Looped {
        block,
        rest,
        times: told.times,
        steps: Items::from_vec(steps),
        turns: told.turns,
    })
}

/// The reading alone, without its laws.
#[tactic(auto, unfolding(crate::specs::Grammar::read_looped))]
fn read(alloc: Global, text: &[u8], headers: &[Header]) -> Result<Looped, ProgramFault>
    ensures { Returns result (read_looped headers.now text.now) }
{
    if text.len() > MOST_BYTES {
        return Err(ProgramFault::TooLarge {
            place: Place { line: 1, column: 1 },
        });
    }
    match looped_at(alloc, headers, text) {
        Ok(looped) => Ok(looped),
        Err(error) => Err(refused_by(text, error)),
    }
}

/// Reads the text of a looped program whose two programs may call the instructions of these
/// headers.
///
/// An error is the first fault of the text, judged line by line from the top with the numbers of
/// `ProgramFault`, or want of memory. In the first line a name that is no parameter is 4
/// UnknownRegister, one of the other kind 5 WidthMismatch, a pointer that does not stand after the
/// one before it 2 Shape, and a step or a number of turns out of its range 8 Range.
pub fn parse_looped(alloc: Global, text: &[u8], headers: &[Header]) -> Result<Looped, ProgramFault>
    // The result is the one that the definition names, unless memory ran out.
    ensures exact { Returns result (read_looped headers.now text.now) }
    // What is read keeps the rules, and the text is its text.
    ensures sound { IfOk result (λ l. IsLooped headers.now l × (looped_text l ≡ text.now)) }
    // The text of what keeps the rules is read as it, unless memory ran out.
    ensures complete { (l : Looped) → IsLooped headers.now l → text.now ≡ looped_text l →
        Returns result (Ok l) }
{
    read(alloc, text, headers)
}
