//! The reading of the texts of guarded loops.

ghost use Rattle.std.specs.Prelude.{◌≡◌, ◌≤◌, length, IfOk, Ok};
ghost use Rattle.vg_pseudo.specs.declared.header.Header.{Header};
ghost use Rattle.vg_program.specs.Faults.{Returns};
ghost use Rattle.vg_program.specs.Tokens.{Gives};
ghost use Rattle.vg_guarded_loop.specs.declared.guarded_loop.GuardedLoop.{GuardedLoop};
ghost use Rattle.vg_guarded_loop.specs.Grammar.{
  first_line_at,
  sides_at,
  rest_at,
  guarded_loop_at,
  read_guarded_loop,
};
ghost use Rattle.vg_guarded_loop.specs.GuardedLoop.{guarded_loop_text, IsGuardedLoop};

use crate::guarded_loop::GuardedLoop;
use std::alloc::Global;
use vg_base::Items;
use vg_guard::Guarded;
use vg_guard::parts::{checks_at, end_line_at};
use vg_looped::parts::{Told, pointers_in, steps_of, turns_at, word_line_at};
use vg_program::parts::{ReadError, body_at, refused_by, signature_at, signs_at, unfit, word_at};
use vg_program::{MOST_BYTES, Program, ProgramFault, Signature};
use vg_pseudo::Header;
use vg_text::Place;

/// The name and the parameters, and what the first line tells of the turns.
#[tactic(auto, unfolding(crate::specs::Grammar::first_line_at))]
fn first_line_at(alloc: Global, text: &[u8]) -> Result<((Signature, Told), &[u8]), ReadError>
    ensures exact { Gives (λ x. (x.0, x.1.now)) result (first_line_at text.now) }
    ensures few { IfOk result (λ x. length x.0.0.params ≤ 16) }
{
    let text = word_at(b"guardedloop", text)?;
    let text = signs_at(b" ", text)?;
    let (signature, text) = signature_at(alloc, text)?;
    let (told, text) = turns_at(alloc, signature.params.as_slice(), text)?;
    let text = signs_at(b"\n", text)?;
    Ok(((signature, told), text))
}

/// The checks and both sides of a block, as they stand behind the first line of a guarded text.
#[tactic(auto, unfolding(crate::specs::Grammar::sides_at))]
fn sides_at<'a>(
    alloc: Global,
    headers: &[Header],
    signature: &Signature,
    text: &'a [u8],
) -> Result<(Guarded, &'a [u8]), ReadError>
    requires { length signature.now.params ≤ 16 }
    ensures { Gives (λ x. (x.0, x.1.now)) result
        (sides_at headers.now signature.now text.now) }
{
    let (checks, text) = checks_at(alloc, signature.params.as_slice(), text)?;
    let text = word_line_at(b"then", text)?;
    let copy = signature.copy(alloc)?;
    let (fast, text) = body_at(alloc, headers, copy, text)?;
    let text = word_line_at(b"else", text)?;
    let copy = signature.copy(alloc)?;
    let (slow, text) = body_at(alloc, headers, copy, text)?;
    let text = end_line_at(checks.len(), text)?;
    let checks = Items::from_vec(checks);
    Ok((Guarded { checks, fast, slow }, text))
}

/// The word `rest`, the lines of the turns that are left over, and the last line.
#[tactic(auto, unfolding(crate::specs::Grammar::rest_at))]
fn rest_at<'a>(
    alloc: Global,
    headers: &[Header],
    signature: Signature,
    text: &'a [u8],
) -> Result<(Program, &'a [u8]), ReadError>
    requires { length signature.params ≤ 16 }
    ensures { Gives (λ x. (x.0, x.1.now)) result (rest_at headers.now signature text.now) }
{
    let text = word_line_at(b"rest", text)?;
    let (rest, text) = body_at(alloc, headers, signature, text)?;
    let text = word_at(b"end", text)?;
    let text = signs_at(b" ", text)?;
    let text = word_line_at(b"looped", text)?;
    Ok((rest, text))
}

#[tactic(auto, unfolding(crate::specs::Grammar::guarded_loop_at))]
fn guarded_loop_at(alloc: Global, headers: &[Header], text: &[u8]) -> Result<GuardedLoop, ReadError>
    ensures { Gives (λ l. l) result (guarded_loop_at headers.now text.now) }
{
    let (first, text) = first_line_at(alloc, text)?;
    let (signature, told) = first;
    let count = pointers_in(signature.params.as_slice());
    let steps = steps_of(alloc, count, told.pairs.as_slice())?;
    let (block, text) = sides_at(alloc, headers, &signature, text)?;
    let (rest, text) = rest_at(alloc, headers, signature, text)?;
    if !text.is_empty() {
        return Err(ReadError::At(unfit(text)));
    }
    Ok(GuardedLoop {
        block,
        rest,
        times: told.times,
        steps: Items::from_vec(steps),
        turns: told.turns,
    })
}

/// The reading alone, without its laws.
#[tactic(auto, unfolding(crate::specs::Grammar::read_guarded_loop))]
fn read(alloc: Global, text: &[u8], headers: &[Header]) -> Result<GuardedLoop, ProgramFault>
    ensures { Returns result (read_guarded_loop headers.now text.now) }
{
    if text.len() > MOST_BYTES {
        return Err(ProgramFault::TooLarge {
            place: Place { line: 1, column: 1 },
        });
    }
    match guarded_loop_at(alloc, headers, text) {
        Ok(read) => Ok(read),
        Err(error) => Err(refused_by(text, error)),
    }
}

/// Reads the text of a guarded loop whose three programs may call the instructions of these
/// headers.
///
/// An error is the first fault of the text, judged line by line from the top with the numbers of
/// `ProgramFault`, or want of memory: the first line and the lines from `rest` on as those of a
/// looped text, the lines from the checks to `end checks` as those of a guarded text.
pub fn parse_guarded_loop(
    alloc: Global,
    text: &[u8],
    headers: &[Header],
) -> Result<GuardedLoop, ProgramFault>
    // The result is the one that the definition names, unless memory ran out.
    ensures exact { Returns result (read_guarded_loop headers.now text.now) }
    // What is read keeps the rules, and the text is its text.
    ensures sound { IfOk result (λ l. IsGuardedLoop headers.now l
        × (guarded_loop_text l ≡ text.now)) }
    // The text of what keeps the rules is read as it, unless memory ran out.
    ensures complete { (l : GuardedLoop) → IsGuardedLoop headers.now l →
        text.now ≡ guarded_loop_text l → Returns result (Ok l) }
{
    read(alloc, text, headers)
}
