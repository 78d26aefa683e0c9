//! Reads a loop, word by word.

ghost use Rattle.std.specs.Prelude.{◌≡◌, ◌≤◌, length, map, IfOk, slice_set};
ghost use Rattle.vg_text.specs.Lexing.{reading, spelled_of};
ghost use Rattle.vg_kernel.specs.Gives.{Gives};
ghost use Rattle.vg_kernel.specs.Reader.{pointer_of};
ghost use Rattle.vg_kernel.specs.Statements.{head_at, block_at};
ghost use Rattle.vg_kernel.specs.Tree.{tree_of, statement_of};
ghost use Rattle.vg_kernel.specs.WellFormed.{pointers, IsHead, IsWellFormed};
ghost use Rattle.vg_loops.specs.Formed.{IsLoop};
ghost use Rattle.vg_loops.specs.Reader.{
  integer_of,
  integer_at,
  step_of,
  unstepped,
  step_at,
  steps_behind,
  steps_at,
  moves,
  stores_moving,
  moving_at,
  loop_at,
  loop_from,
  loop_place,
};
ghost use Rattle.vg_loops.specs.View.{loop_of};

use crate::counted::Loop;
use std::alloc::{AllocError, Global};
use vg_base::Items;
use vg_kernel::given::Given;
use vg_kernel::reading::{end, expect, name, next};
use vg_kernel::{
    Head, KParam, KParamKind, KStmt, Kernel, KernelFault, parameter_named, parse_head,
    parse_statements,
};
use vg_text::byte::is_text;
use vg_text::lexer::Word;
use vg_text::number::decimal;
use vg_text::{Lexer, Place};

/// The integer parameter that a name at this place stands for.
fn integer_of(given: Option<Given>, place: Place) -> Result<u32, KernelFault>
    ensures { Gives (λ x. x) result (integer_of given place) }
{
    match given {
        Some(Given::Argument(integer, _)) => Ok(integer),
        Some(_) => Err(KernelFault::WidthMismatch { place }),
        None => Err(KernelFault::UnknownName { place }),
    }
}

/// The pointer that a name at this place stands for.
fn pointer_of(given: Option<Given>, place: Place) -> Result<u32, KernelFault>
    ensures { Gives (λ x. x) result (pointer_of given place) }
{
    match given {
        Some(Given::Pointer(pointer)) => Ok(pointer),
        Some(_) => Err(KernelFault::WidthMismatch { place }),
        None => Err(KernelFault::UnknownName { place }),
    }
}

/// The name of an integer parameter.
#[tactic(auto, unfolding(crate::specs::Reader::integer_at))]
fn integer<'a>(params: &[KParam], lexer: Lexer<'a>) -> Result<(u32, Lexer<'a>), KernelFault>
    requires { length params.now ≤ 16 }
    ensures read { Gives (λ x. (x.0, reading x.1)) result
        (integer_at params.now (reading lexer.entry)) }
{
    let (name, rest) = name(lexer)?;
    let integer = integer_of(parameter_named(params, name.bytes), name.place)?;
    Ok((integer, rest))
}

/// The step that a word spells, in bytes: 1 to 65,536. `Shape` where it is no number,
/// `LiteralRange` out of the range.
fn step_of(word: Word<'_>) -> Result<u32, KernelFault>
    ensures { Gives (λ x. x) result (step_of (spelled_of word.entry)) }
{
    let place = word.place;
    match decimal(word.bytes) {
        Some(step) => {
            if step > 0 && step <= 65_536 {
                Ok(step as u32)
            } else {
                Err(KernelFault::LiteralRange { place })
            }
        }
        None => Err(KernelFault::Shape { place }),
    }
}

/// A pointer that has no step yet.
fn unstepped(steps: &[u32], pointer: u32, place: Place) -> Result<u32, KernelFault>
    ensures { Gives (λ x. x) result (unstepped steps.now pointer place) }
{
    match steps.get(pointer as usize) {
        Some(step) => {
            if *step > 0 {
                Err(KernelFault::DuplicateName { place })
            } else {
                Ok(pointer)
            }
        }
        None => Ok(pointer),
    }
}

/// A pointer and its step, beside the steps that are known.
#[tactic(auto, unfolding(crate::specs::Reader::step_at))]
fn step<'a>(
    params: &[KParam],
    steps: Vec<u32>,
    lexer: Lexer<'a>,
) -> Result<(Vec<u32>, Lexer<'a>), KernelFault>
    requires { length params.now ≤ 16 }
    ensures read { Gives (λ x. (x.0.items, reading x.1)) result
        (step_at params.now steps.items (reading lexer.entry)) }
{
    let (name, rest) = name(lexer)?;
    let pointer = pointer_of(parameter_named(params, name.bytes), name.place)?;
    let pointer = unstepped(steps.as_slice(), pointer, name.place)?;
    let (number, rest) = next(rest)?;
    let step = step_of(number)?;
    Ok((with_step(steps, pointer, step), rest))
}

/// The steps with that of one pointer.
fn with_step(steps: Vec<u32>, pointer: u32, step: u32) -> Vec<u32>
    ensures { result.items ≡ slice_set steps.items pointer step }
{
    let mut steps = steps;
    if let Some(known) = steps.get_mut(pointer as usize) {
        *known = step;
    }
    steps
}

/// Steps after commas; there is room for one for each of these parameters.
#[tactic(auto, unfolding(crate::specs::Reader::steps_behind))]
fn steps_behind<'a>(
    room: &[KParam],
    params: &[KParam],
    steps: Vec<u32>,
    lexer: Lexer<'a>,
) -> Result<(Vec<u32>, Lexer<'a>), KernelFault>
    requires { length params.now ≤ 16 }
    ensures read { Gives (λ x. (x.0.items, reading x.1)) result
        (steps_behind room.now params.now steps.items (reading lexer.entry)) }
{
    let [_, room @ ..] = room else {
        return Ok((steps, lexer));
    };
    let (comma, rest) = next(lexer)?;
    if !is_text(comma.bytes, b",") {
        return Ok((steps, lexer));
    }
    let (steps, rest) = step(params, steps, rest)?;
    steps_behind(room, params, steps, rest)
}

/// For each pointer a step of 0.
fn no_steps(alloc: Global, params: &[KParam]) -> Result<Vec<u32>, AllocError>
    ensures { IfOk result (λ steps. steps.items ≡ map (λ p. 0) (pointers params.now)) }
{
    let mut steps = Vec::new(alloc);
    let mut rest = params;
    'params: while let [param, behind @ ..] = rest {
        if let KParamKind::Pointer { .. } = param.kind {
            steps.push(0)?;
        }
        rest = behind;
    }
    Ok(steps)
}

/// One step or more.
#[tactic(auto, unfolding(crate::specs::Reader::steps_at))]
fn steps<'a>(
    alloc: Global,
    params: &[KParam],
    lexer: Lexer<'a>,
) -> Result<(Vec<u32>, Lexer<'a>), KernelFault>
    requires { length params.now ≤ 16 }
    ensures read { Gives (λ x. (x.0.items, reading x.1)) result
        (steps_at params.now (reading lexer.entry)) }
{
    let none = no_steps(alloc, params)?;
    let (first, rest) = step(params, none, lexer)?;
    steps_behind(params, params, first, rest)
}

/// Whether a statement stores through a pointer that has a step.
fn moves(steps: &[u32], statement: &KStmt) -> bool
    ensures { result ≡ moves steps.now (statement_of statement.now) }
{
    match statement {
        KStmt::Assign { .. } => false,
        KStmt::Store { address, .. } => match steps.get(address.pointer as usize) {
            Some(step) => *step > 0,
            None => false,
        },
    }
}

/// Whether some statement stores through a pointer that has a step.
fn stores_moving(steps: &[u32], statements: &[KStmt]) -> bool
    ensures { result ≡ stores_moving steps.now (map statement_of statements.now) }
{
    let mut rest = statements;
    'statements: while let [statement, behind @ ..] = rest {
        if moves(steps, statement) {
            return true;
        }
        rest = behind;
    }
    false
}

/// Behind the brace that closes the statements, where one of them does.
#[tactic(auto, unfolding(crate::specs::Reader::moving_at))]
fn moving<'a>(
    steps: &[u32],
    kernel: &Kernel,
    brace: Place,
    lexer: Lexer<'a>,
) -> Result<Lexer<'a>, KernelFault>
    ensures read { Gives reading result
        (moving_at steps.now ((tree_of kernel.now, brace), reading lexer.entry)) }
{
    if stores_moving(steps, kernel.statements.as_slice()) {
        Ok(lexer)
    } else {
        Err(KernelFault::NoMovingStore { place: brace })
    }
}

/// `name (parameters)`.
fn head<'a>(alloc: Global, lexer: Lexer<'a>) -> Result<(Head, Lexer<'a>), KernelFault>
    ensures read { Gives (λ x. (x.0, reading x.1)) result (head_at (reading lexer.entry)) }
    ensures head { IfOk result (λ x. IsHead x.0) }
{
    let mut lexer = lexer;
    let head = parse_head(alloc, &mut lexer)?;
    Ok((head, lexer))
}

/// `{ statements }`, and the place of the brace that closes them.
fn block<'a>(
    alloc: Global,
    head: Head,
    lexer: Lexer<'a>,
) -> Result<(Kernel, Place, Lexer<'a>), KernelFault>
    requires { IsHead head }
    ensures read { Gives (λ x. ((tree_of x.0, x.1), reading x.2)) result
        (block_at head (reading lexer.entry)) }
{
    let mut lexer = lexer;
    let (kernel, brace) = parse_statements(alloc, &mut lexer, head)?;
    Ok((kernel, brace, lexer))
}

/// A whole loop, with nothing after it.
#[tactic(auto, unfolding(crate::specs::Reader::loop_at))]
fn looping<'a>(alloc: Global, lexer: Lexer<'a>) -> Result<Loop, KernelFault>
    ensures read { Gives loop_of result (loop_at (reading lexer.entry)) }
{
    let rest = expect(b"loop", lexer)?;
    let (head, rest) = head(alloc, rest)?;
    let rest = expect(b"times", rest)?;
    let (times, rest) = integer(head.params.as_slice(), rest)?;
    let rest = expect(b"step", rest)?;
    let (steps, rest) = steps(alloc, head.params.as_slice(), rest)?;
    let steps = Items::from_vec(steps);
    let (kernel, brace, rest) = block(alloc, head, rest)?;
    let rest = moving(steps.as_slice(), &kernel, brace, rest)?;
    let _end = end(rest)?;
    Ok(Loop {
        kernel,
        times,
        steps,
    })
}

/// What a text spells, read from left to right.
#[tactic(auto, unfolding(crate::specs::Reader::loop_from))]
fn read(alloc: Global, text: &[u8]) -> Result<Loop, KernelFault>
    ensures exact { Gives loop_of result (loop_from text.now) }
{
    if text.len() > 262_144 {
        return Err(KernelFault::TooLarge {
            place: Place { line: 1, column: 1 },
        });
    }
    looping(alloc, Lexer::new(text))
}

/// Reads the text of a loop: `loop name (parameters) times n step p S, .. { statements }`.
///
/// Where the text is none, the fault is the first that is met as it is read from left to right,
/// with the place of its token; of two faults at one token the one with the greater number.
/// `NoMovingStore` comes exactly where no store goes through a pointer with a step, at the brace
/// that closes the statements, before what stands after it. `TooLarge` comes exactly where the
/// text has more than 262,144 bytes, and `LoopHere` never. `Memory` says nothing of the text.
pub fn parse_loop(alloc: Global, text: &[u8]) -> Result<Loop, KernelFault>
    // What the reader answers, word by word: the loop, or the first fault and its place.
    ensures exact { Gives loop_of result (loop_from text.now) }
    // What is read keeps the rules.
    ensures is_loop { IfOk result (λ l. IsLoop (loop_of l)) }
{
    read(alloc, text)
}

/// The place of the word `loop` where a text of at most 262,144 bytes begins with it, white space
/// and comments aside, and so is read as a loop. Takes no memory.
pub fn loop_place(text: &[u8]) -> Option<Place>
    requires { length text.now ≤ 262144 }
    ensures place { result ≡ loop_place text.now }
{
    match Lexer::new(text).word() {
        Ok((word, _)) => {
            if is_text(word.bytes, b"loop") {
                Some(word.place)
            } else {
                None
            }
        }
        Err(_) => None,
    }
}
