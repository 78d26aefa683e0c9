//! The reading of a program.

ghost use Rattle.std.specs.Prelude.{◌≡◌, ◌≤◌, ◌+◌, ◌^◌, length, sum_by, List, IfOk, Ok};
ghost use Rattle.vg_pseudo.specs.declared.header.Header.{Header};
ghost use Rattle.vg_text.specs.Place.{first_place, place_after};
ghost use Rattle.vg_program.specs.Cost.{line_cost};
ghost use Rattle.vg_program.specs.declared.program.Program.{Program};
ghost use Rattle.vg_program.specs.Text.{text_of};
ghost use Rattle.vg_program.specs.Valid.{IsValid};
ghost use Rattle.vg_program.specs.Tokens.{Gives};
ghost use Rattle.vg_program.specs.Grammar.{cost_from, scalar_from, scalar_at, cost_at, last_line_at, body_at, program_at};
ghost use Rattle.vg_program.specs.Faults.{place_in, refused_by, read, Returns};

use crate::costs::cost_of_few;
use crate::fault::Fault;
use crate::line_reading::lines_at;
use crate::operand_reading::judged;
use crate::param_reading::first_line_at;
use crate::program::Program;
use crate::program_fault::ProgramFault;
use crate::signature::Signature;
use crate::stop::ReadError;
use crate::tokens::{met, number_at, signs_at, unfit, word_at};
use std::alloc::Global;
use vg_base::items::Items;
use vg_pseudo::Header;
use vg_text::place::{Place, end_place, place_after};

/// The most bytes of the text of a program: 4 MiB.
pub const MOST_BYTES: usize = 4194304;

fn cost_from(counted: u64, number: u128) -> Result<u32, Fault>
    ensures { result ≡ cost_from counted number }
{
    if number >= 1 << 32 {
        Err(Fault::Range)
    } else if number == counted as u128 {
        Ok(number as u32)
    } else {
        Err(Fault::CostWrong {
            stated: number as u64,
            counted,
        })
    }
}

fn scalar_from(number: u128) -> Result<u32, Fault>
    ensures { result ≡ scalar_from number }
{
    if number <= 16384 {
        Ok(number as u32)
    } else {
        Err(Fault::Range)
    }
}

#[tactic(auto, unfolding(crate::specs::Grammar::cost_at))]
fn cost_at(counted: u64, text: &[u8]) -> Result<(u32, &[u8]), ReadError>
    ensures { Gives (λ x. (x.0, x.1.now)) result (cost_at counted text.now) }
{
    let number = signs_at(b" ", text)?;
    let (n, rest) = number_at(number)?;
    let cost = judged(number, cost_from(counted, n))?;
    Ok((cost, rest))
}

#[tactic(auto, unfolding(crate::specs::Grammar::scalar_at))]
fn scalar_at(text: &[u8]) -> Result<(u32, &[u8]), ReadError>
    ensures { Gives (λ x. (x.0, x.1.now)) result (scalar_at text.now) }
{
    let rest = signs_at(b" ", text)?;
    let rest = word_at(b"scalar", rest)?;
    let number = signs_at(b" ", rest)?;
    let (n, rest) = number_at(number)?;
    let scalar = judged(number, scalar_from(n))?;
    Ok((scalar, rest))
}

#[tactic(auto, unfolding(crate::specs::Grammar::last_line_at))]
fn last_line_at(counted: u64, text: &[u8]) -> Result<(u32, u32, &[u8]), ReadError>
    ensures { Gives (λ x. (x.0, x.1, x.2.now)) result (last_line_at counted text.now) }
{
    let rest = word_at(b"end", text)?;
    let rest = signs_at(b" ", rest)?;
    let rest = word_at(b"cost", rest)?;
    let (cost, rest) = cost_at(counted, rest)?;
    let (scalar, rest) = scalar_at(rest)?;
    let rest = signs_at(b"\n", rest)?;
    Ok((cost, scalar, rest))
}

/// Reads the lines of a program after its name and its parameters, up to its last line with its
/// end, and gives the program with the bytes after it. An error is the first fault there, or want
/// of memory.
#[tactic(auto, unfolding(crate::specs::Grammar::body_at))]
pub fn body_at<'a>(
    alloc: Global,
    headers: &[Header],
    signature: Signature,
    text: &'a [u8],
) -> Result<(Program, &'a [u8]), ReadError>
    requires { length signature.params ≤ 16 }
    ensures { Gives (λ x. (x.0, x.1.now)) result (body_at headers.now signature text.now) }
{
    let params = signature.params;
    let (lines, rest) = lines_at(alloc, MOST_BYTES, params.as_slice(), headers, text)?;
    let (cost, scalar, rest) = last_line_at(cost_of_few(&lines), rest)?;
    let program = Program {
        name: signature.name,
        params,
        lines: Items::from_vec(lines),
        cost,
        scalar,
    };
    Ok((program, rest))
}

#[tactic(auto, unfolding(crate::specs::Grammar::program_at))]
fn program_at(alloc: Global, headers: &[Header], text: &[u8]) -> Result<Program, ReadError>
    ensures { Gives (λ p. p) result (program_at headers.now text.now) }
{
    let (signature, rest) = first_line_at(alloc, text)?;
    let (program, rest) = body_at(alloc, headers, signature, rest)?;
    if !rest.is_empty() {
        return Err(ReadError::At(unfit(rest)));
    }
    Ok(program)
}

/// The place of the byte after so many, or of the end.
#[tactic(auto, unfolding(crate::specs::Faults::place_in))]
fn place_in(text: &[u8], n: usize) -> Place
    requires { length text.now ≤ 4194304 }
    ensures { result ≡ place_in text.now n }
{
    if n < text.len() {
        place_after(Place { line: 1, column: 1 }, &text[..n])
    } else {
        end_place(text)
    }
}

/// The refusal of a whole text for the error of a reader of it: the fault with its place, or want
/// of memory. The text has at most 4 MiB.
pub fn refused_by(text: &[u8], error: ReadError) -> ProgramFault
    requires { length text.now ≤ 4194304 }
    ensures { result ≡ refused_by text.now error }
{
    match error {
        ReadError::Memory(error) => ProgramFault::Memory(error),
        ReadError::At(stop) => {
            let place = place_in(text, text.len().saturating_sub(stop.left));
            ProgramFault::placed(stop.fault, place)
        }
    }
}

/// The reading alone, without its laws.
#[tactic(auto, unfolding(crate::specs::Faults::read))]
fn read(alloc: Global, text: &[u8], headers: &[Header]) -> Result<Program, ProgramFault>
    ensures { Returns result (read headers.now text.now) }
{
    if text.len() > MOST_BYTES {
        return Err(ProgramFault::TooLarge {
            place: Place { line: 1, column: 1 },
        });
    }
    match program_at(alloc, headers, text) {
        Ok(program) => Ok(program),
        Err(error) => Err(refused_by(text, error)),
    }
}

/// Reads the text of a program that may call the instructions of these headers.
///
/// An error is the first fault of the text, as `ProgramFault` tells, or want of memory.
pub fn parse_program(
    alloc: Global,
    text: &[u8],
    headers: &[Header],
) -> Result<Program, ProgramFault>
    // The result is the one that the definition names, unless memory ran out.
    ensures exact { Returns result (read headers.now text.now) }
    // What is read is valid, and the text is its text.
    ensures sound { IfOk result (λ p. IsValid headers.now p × (text_of p ≡ text.now)) }
    // The text of a valid program is read as this program, unless memory ran out.
    ensures complete { (p : Program) → IsValid headers.now p → text.now ≡ text_of p →
        Returns result (Ok p) }
{
    read(alloc, text, headers)
}

/// A law: no two programs that are valid for one list of headers have one text.
pub fn one_program()
    ensures { (headers : List Header) (p q : Program) → IsValid headers p → IsValid headers q →
        text_of p ≡ text_of q → p ≡ q }
{}
