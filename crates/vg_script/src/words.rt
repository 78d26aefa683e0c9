//! How words are made. Each call but those that take no allocator fails for want of memory alone.

ghost use Rattle.std.specs.Prelude.{◌≡◌, IfOk};
ghost use Rattle.vg_script.specs.Script.{absolute, block, held, one, sel, shift_left, shift_right, two, width_of};
ghost use Rattle.vg_script.specs.Views.{frame_of, low_of, word_of};

use crate::script::{Frame, Low, Word};
use std::alloc::{AllocError, Global};
use vg_terms::{OneOp, TwoOp};

/// An operation of terms on one word.
pub fn make_one(
    alloc: Global,
    op: OneOp,
    width: u32,
    amount: u32,
    x: Word,
) -> Result<Word, AllocError>
    ensures { IfOk result (λ word. word_of word ≡ one op width amount (word_of x)) }
{
    let x = Box::new(alloc, x)?;
    Ok(Word::One {
        op,
        width,
        amount,
        x,
    })
}

/// An operation of terms on two words.
pub fn make_two(alloc: Global, op: TwoOp, width: u32, x: Word, y: Word) -> Result<Word, AllocError>
    ensures { IfOk result (λ word. word_of word ≡ two op width (word_of x) (word_of y)) }
{
    let x = Box::new(alloc, x)?;
    let y = Box::new(alloc, y)?;
    Ok(Word::Two { op, width, x, y })
}

/// A selection: `x` where `c` is 1, else `y`.
pub fn make_sel(alloc: Global, width: u32, c: Word, x: Word, y: Word) -> Result<Word, AllocError>
    ensures { IfOk result (λ word. word_of word ≡ sel width (word_of c) (word_of x) (word_of y)) }
{
    let c = Box::new(alloc, c)?;
    let x = Box::new(alloc, x)?;
    let y = Box::new(alloc, y)?;
    Ok(Word::Sel { width, c, x, y })
}

/// The absolute value of a word of 128 bits.
pub fn make_absolute(alloc: Global, x: Word) -> Result<Word, AllocError>
    ensures { IfOk result (λ word. word_of word ≡ absolute (word_of x)) }
{
    let x = Box::new(alloc, x)?;
    Ok(Word::Absolute { x })
}

/// A word of 128 bits, shifted to the left by another.
pub fn make_shift_left(alloc: Global, x: Word, amount: Word) -> Result<Word, AllocError>
    ensures { IfOk result (λ word. word_of word ≡ shift_left (word_of x) (word_of amount)) }
{
    let x = Box::new(alloc, x)?;
    let amount = Box::new(alloc, amount)?;
    Ok(Word::ShiftLeft { x, amount })
}

/// A word of 128 bits, shifted to the right by another.
pub fn make_shift_right(alloc: Global, x: Word, amount: Word) -> Result<Word, AllocError>
    ensures { IfOk result (λ word. word_of word ≡ shift_right (word_of x) (word_of amount)) }
{
    let x = Box::new(alloc, x)?;
    let amount = Box::new(alloc, amount)?;
    Ok(Word::ShiftRight { x, amount })
}

/// What a call answers: a word over what its frame leaves.
pub fn make_block(alloc: Global, frame: Frame, answer: Word) -> Result<Word, AllocError>
    ensures { IfOk result (λ word. word_of word ≡ block (frame_of frame) (word_of answer)) }
{
    let frame = Box::new(alloc, frame)?;
    let answer = Box::new(alloc, answer)?;
    Ok(Word::Block { frame, answer })
}

/// The bit that a word of 128 bits says.
pub fn make_held(alloc: Global, word: Word) -> Result<Low, AllocError>
    ensures { IfOk result (λ low. low_of low ≡ held (word_of word)) }
{
    let word = Box::new(alloc, word)?;
    Ok(Low::Held { word })
}

impl Word {
    /// The width in bits. Walks along the answers of calls.
    pub fn width(&self) -> u32
        ensures { result ≡ width_of (word_of self.now) }
    {
        match self {
            Word::Constant { width, .. } => *width,
            Word::Slice { width, .. } => *width,
            Word::One { width, .. } => *width,
            Word::Two { width, .. } => *width,
            Word::Sel { width, .. } => *width,
            Word::Variable { .. } => 128,
            Word::Absolute { .. } => 128,
            Word::ShiftLeft { .. } => 128,
            Word::ShiftRight { .. } => 128,
            Word::Block { answer, .. } => answer.width(),
        }
    }
}
