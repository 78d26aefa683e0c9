//! The reading of guarded texts.

ghost use Rattle.std.specs.Prelude.{◌≡◌, ◌≤◌, [], length, vec_len, IfOk, Ok};
ghost use Rattle.vg_pseudo.specs.declared.header.Header.{Header};
ghost use Rattle.vg_program.specs.Faults.{Returns};
ghost use Rattle.vg_program.specs.Tokens.{Gives};
ghost use Rattle.vg_guard.specs.declared.guarded.Guarded.{Guarded};
ghost use Rattle.vg_guard.specs.Grammar.{length_from, pointer_at, reach_at, span_at, least_second, check_from, check_at, checks_at, guarded_line_at, word_line_at, count_from, end_line_at, guarded_at, read_guarded};
ghost use Rattle.vg_guard.specs.Guarded.{guarded_text, IsGuarded};

use crate::check::Check;
use crate::guarded::Guarded;
use crate::span::Span;
use std::alloc::Global;
use vg_base::Items;
use vg_program::parts::{
    Fault, ReadError, body_at, is_word, judged, met, name_at, named_in, number_at, offset_at,
    pointer_of, refused_by, signature_at, signs_at, unfit, word_at,
};
use vg_program::{MOST_BYTES, Param, ProgramFault, Signature};
use vg_pseudo::Header;
use vg_text::Place;

fn length_from(number: u128) -> Result<u64, Fault>
    ensures { result ≡ length_from number }
{
    if 1 <= number && number <= 4294967303 {
        Ok(number as u64)
    } else {
        Err(Fault::Range)
    }
}

#[tactic(auto, unfolding(crate::specs::Grammar::pointer_at))]
fn pointer_at<'a>(params: &[Param], text: &'a [u8]) -> Result<(u32, &'a [u8]), ReadError>
    requires { length params.now ≤ 16 }
    ensures { Gives (λ x. (x.0, x.1.now)) result (pointer_at params.now text.now) }
{
    let (name, rest) = name_at(text)?;
    let pointer = judged(text, pointer_of(named_in(params, name)))?;
    Ok((pointer, rest))
}

#[tactic(auto, unfolding(crate::specs::Grammar::reach_at))]
fn reach_at(pointer: u32, text: &[u8]) -> Result<(Span, &[u8]), ReadError>
    ensures { Gives (λ x. (x.0, x.1.now)) result (reach_at pointer text.now) }
{
    let (offset, rest) = offset_at(text)?;
    let number = signs_at(b" ", rest)?;
    let (n, rest) = number_at(number)?;
    let len = judged(number, length_from(n))?;
    let low = offset as i64;
    Ok((Span { pointer, low, len }, rest))
}

/// A range of bytes, where a pointer may stand from this number on.
#[tactic(auto, unfolding(crate::specs::Grammar::span_at))]
fn span_at<'a>(params: &[Param], least: u64, text: &'a [u8]) -> Result<(Span, &'a [u8]), ReadError>
    requires { length params.now ≤ 16 }
    ensures { Gives (λ x. (x.0, x.1.now)) result (span_at params.now least text.now) }
{
    let (pointer, rest) = pointer_at(params, text)?;
    if (pointer as u64) < least {
        return Err(ReadError::At(met(Fault::Shape, text)));
    }
    reach_at(pointer, rest)
}

/// The least second pointer of a check with this first one after a check of those two.
fn least_second(last: (u32, u32), first: u32) -> u64
    ensures { result ≡ least_second last first }
{
    if last.0 < first {
        first as u64 + 1
    } else {
        first.max(last.1) as u64 + 1
    }
}

#[tactic(auto, unfolding(crate::specs::Grammar::check_at))]
fn check_at<'a>(
    params: &[Param],
    last: (u32, u32),
    text: &'a [u8],
) -> Result<(Check, &'a [u8]), ReadError>
    requires { length params.now ≤ 16 }
    ensures { Gives (λ x. (x.0, x.1.now)) result (check_at params.now last text.now) }
{
    let rest = word_at(b"check", text)?;
    let rest = signs_at(b" ", rest)?;
    let rest = word_at(b"disjoint", rest)?;
    let rest = signs_at(b" ", rest)?;
    let (first, rest) = span_at(params, last.0 as u64, rest)?;
    let rest = signs_at(b" ", rest)?;
    let (second, rest) = span_at(params, least_second(last, first.pointer), rest)?;
    let rest = signs_at(b"\n", rest)?;
    let check = Check {
        first: first.pointer,
        first_low: first.low,
        first_len: first.len,
        second: second.pointer,
        second_low: second.low,
        second_len: second.len,
    };
    Ok((check, rest))
}

/// Checks up to the word `then`.
#[tactic(auto, using(crate::proofs::CheckLoop::checks_ended, crate::proofs::CheckLoop::checks_full, crate::proofs::CheckLoop::checks_fault, crate::proofs::CheckLoop::checks_more))]
pub fn checks_at<'a>(
    alloc: Global,
    params: &[Param],
    text: &'a [u8],
) -> Result<(Vec<Check>, &'a [u8]), ReadError>
    requires { length params.now ≤ 16 }
    ensures exact { Gives (λ x. (x.0.items, x.1.now)) result
        (checks_at 4194304 params.now [] (0, 0) text.now) }
    ensures few { IfOk result (λ x. vec_len x.0 ≤ 4194304) }
{
    let mut checks = Vec::new(alloc);
    let mut last = (0, 0);
    let mut rest = text;
    'checks: loop {
        if is_word(b"then", rest) {
            return Ok((checks, rest));
        }
        if checks.len() == MOST_BYTES {
            return Err(ReadError::At(unfit(rest)));
        }
        let (check, behind) = check_at(params, last, rest)?;
        checks.push(check)?;
        last = (check.first, check.second);
        rest = behind;
    }
}

#[tactic(auto, unfolding(crate::specs::Grammar::guarded_line_at))]
fn guarded_line_at(alloc: Global, text: &[u8]) -> Result<(Signature, &[u8]), ReadError>
    ensures exact { Gives (λ x. (x.0, x.1.now)) result (guarded_line_at text.now) }
    ensures few { IfOk result (λ x. length x.0.params ≤ 16) }
{
    let rest = word_at(b"guarded", text)?;
    let rest = signs_at(b" ", rest)?;
    let (signature, rest) = signature_at(alloc, rest)?;
    let rest = signs_at(b"\n", rest)?;
    Ok((signature, rest))
}

/// A word that stands alone in its line.
#[tactic(auto, unfolding(crate::specs::Grammar::word_line_at))]
fn word_line_at<'a>(word: &[u8], text: &'a [u8]) -> Result<&'a [u8], ReadError>
    ensures { Gives (λ rest. rest.now) result (word_line_at word.now text.now) }
{
    let rest = word_at(word, text)?;
    let rest = signs_at(b"\n", rest)?;
    Ok(rest)
}

fn count_from(counted: usize, number: u128) -> Result<usize, Fault>
    ensures { result ≡ count_from counted number }
{
    if number == counted as u128 {
        Ok(counted)
    } else {
        Err(Fault::Range)
    }
}

/// The last line, `end checks 1`, where so many checks were read.
#[tactic(auto, unfolding(crate::specs::Grammar::end_line_at))]
pub fn end_line_at(counted: usize, text: &[u8]) -> Result<&[u8], ReadError>
    ensures { Gives (λ rest. rest.now) result (end_line_at counted text.now) }
{
    let rest = word_at(b"end", text)?;
    let rest = signs_at(b" ", rest)?;
    let rest = word_at(b"checks", rest)?;
    let number = signs_at(b" ", rest)?;
    let (n, rest) = number_at(number)?;
    let _count = judged(number, count_from(counted, n))?;
    let rest = signs_at(b"\n", rest)?;
    Ok(rest)
}

#[tactic(auto, unfolding(crate::specs::Grammar::guarded_at))]
fn guarded_at(alloc: Global, headers: &[Header], text: &[u8]) -> Result<Guarded, ReadError>
    ensures { Gives (λ g. g) result (guarded_at headers.now text.now) }
{
    let (signature, rest) = guarded_line_at(alloc, text)?;
    let (checks, rest) = checks_at(alloc, signature.params.as_slice(), rest)?;
    let rest = word_line_at(b"then", rest)?;
    let copy = signature.copy(alloc)?;
    let (fast, rest) = body_at(alloc, headers, copy, rest)?;
    let rest = word_line_at(b"else", rest)?;
    let (slow, rest) = body_at(alloc, headers, signature, rest)?;
    let rest = end_line_at(checks.len(), rest)?;
    if !rest.is_empty() {
        return Err(ReadError::At(unfit(rest)));
    }
    Ok(Guarded {
        checks: Items::from_vec(checks),
        fast,
        slow,
    })
}

/// The reading alone, without its laws.
#[tactic(auto, unfolding(crate::specs::Grammar::read_guarded))]
fn read(alloc: Global, text: &[u8], headers: &[Header]) -> Result<Guarded, ProgramFault>
    ensures { Returns result (read_guarded headers.now text.now) }
{
    if text.len() > MOST_BYTES {
        return Err(ProgramFault::TooLarge {
            place: Place { line: 1, column: 1 },
        });
    }
    match guarded_at(alloc, headers, text) {
        Ok(guarded) => Ok(guarded),
        Err(error) => Err(refused_by(text, error)),
    }
}

/// Reads the text of a guarded program whose sides may call the instructions of these headers.
///
/// An error is the first fault of the text, judged line by line from the top with the numbers of
/// `ProgramFault`, or want of memory. A check whose second pointer does not come after its first,
/// or whose pair of pointers does not come after that of the check before, is 2 Shape at its first
/// pointer that cannot stand there; a number out of its range and a wrong count of checks are 8
/// Range.
pub fn parse_guarded(
    alloc: Global,
    text: &[u8],
    headers: &[Header],
) -> Result<Guarded, ProgramFault>
    // The result is the one that the definition names, unless memory ran out.
    ensures exact { Returns result (read_guarded headers.now text.now) }
    // What is read keeps the rules, and the text is its text.
    ensures sound { IfOk result (λ g. IsGuarded headers.now g × (guarded_text g ≡ text.now)) }
    // The text of a guarded program that keeps the rules is read as this one, unless memory ran
    // out.
    ensures complete { (g : Guarded) → IsGuarded headers.now g → text.now ≡ guarded_text g →
        Returns result (Ok g) }
{
    read(alloc, text, headers)
}
