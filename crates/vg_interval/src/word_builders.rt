//! The words that expressions become. Each call that takes an allocator fails for want of memory
//! alone.

ghost use Rattle.std.specs.Prelude.{◌≡◌, ◌≤◌, ◌<◌, ◌^◌, ℤ, pos, negsuc, false, IfOk};
ghost use Rattle.vg_base.specs.Width.{bits_of};
ghost use Rattle.vg_base.specs.Number.{residue};
ghost use Rattle.vg_script.specs.Views.{number_of, word_of};
ghost use Rattle.vg_interval.specs.Words.{binary_word, clamped_word, comparison, extended, is_set, left_by, low_extended, number, opposite, right_by, unary_word};
ghost use Rattle.vg_script.specs.Script.{constant};
ghost use Rattle.vg_terms.specs.declared.term.TwoOp.TheVariants as terms;
ghost use Rattle.vg_script.specs.Script as script;

use crate::span::Span;
use crate::spans::{signed_span, unsigned_span};
use std::alloc::{AllocError, Global};
use vg_base::number::unsigned;
use vg_pseudo::{BinaryOp, UnaryOp};
use vg_script::{Word, make_absolute, make_one, make_shift_left, make_shift_right, make_two};
use vg_terms::{OneOp, TwoOp};

/// A whole number.
pub fn number(z: i128) -> Word
    ensures { word_of result ≡ number z }
{
    Word::Constant {
        width: 128,
        value: unsigned(z, 128),
    }
}

/// A word of so many bits at 128 bits, read as signed or not.
pub fn extended(alloc: Global, is_signed: bool, width: u32, x: Word) -> Result<Word, AllocError>
    ensures { IfOk result (λ word. word_of word ≡ extended is_signed width (word_of x)) }
{
    if width == 128 {
        Ok(x)
    } else if is_signed {
        make_one(alloc, OneOp::Sext, 128, 0, x)
    } else {
        make_one(alloc, OneOp::Zext, 128, 0, x)
    }
}

/// The low bits of a word, read as signed or not, at 128 bits.
pub fn low_extended(alloc: Global, is_signed: bool, width: u32, x: Word) -> Result<Word, AllocError>
    ensures { IfOk result (λ word. word_of word ≡ low_extended is_signed width (word_of x)) }
{
    let low = make_one(alloc, OneOp::Trunc, width, 0, x)?;
    extended(alloc, is_signed, width, low)
}

fn clamped_word(alloc: Global, span: Span, x: Word) -> Result<Word, AllocError>
    ensures { IfOk result (λ word. word_of word ≡ clamped_word span.least span.greatest (word_of
        x)) }
{
    let above = make_two(alloc, TwoOp::Smax, 128, x, number(span.least))?;
    make_two(alloc, TwoOp::Smin, 128, above, number(span.greatest))
}

/// What an operator or a function makes of a word.
pub fn unary_word(alloc: Global, op: UnaryOp, x: Word) -> Result<Word, AllocError>
    ensures { IfOk result (λ word. word_of word ≡ unary_word op (word_of x)) }
{
    match op {
        UnaryOp::Not => make_two(alloc, TwoOp::Xor, 128, x, number(-1)),
        UnaryOp::Negate => make_two(alloc, TwoOp::Mul, 128, x, number(-1)),
        UnaryOp::Absolute => make_absolute(alloc, x),
        UnaryOp::Signed => Ok(x),
        UnaryOp::SignExtend(width) => low_extended(alloc, true, width.bits(), x),
        UnaryOp::ZeroExtend(width) => low_extended(alloc, false, width.bits(), x),
        UnaryOp::Saturate(width) => clamped_word(alloc, signed_span(width.bits()), x),
        UnaryOp::SaturateUnsigned(width) => clamped_word(alloc, unsigned_span(width.bits()), x),
        UnaryOp::Truncate(width) => low_extended(alloc, false, width.bits(), x),
    }
}

fn opposite(alloc: Global, x: Word) -> Result<Word, AllocError>
    ensures { IfOk result (λ word. word_of word ≡ opposite (word_of x)) }
{
    make_two(
        alloc,
        TwoOp::Xor,
        1,
        x,
        Word::Constant { width: 1, value: 1 },
    )
}

/// A comparison as one bit; 0 of an operator that compares nothing.
pub fn comparison(alloc: Global, op: BinaryOp, x: Word, y: Word) -> Result<Word, AllocError>
    ensures { IfOk result (λ word. word_of word ≡ comparison op (word_of x) (word_of y)) }
{
    match op {
        BinaryOp::Equal => make_two(alloc, TwoOp::Eq, 1, x, y),
        BinaryOp::NotEqual => opposite(alloc, make_two(alloc, TwoOp::Eq, 1, x, y)?),
        BinaryOp::Less => make_two(alloc, TwoOp::Slt, 1, x, y),
        BinaryOp::LessOrEqual => opposite(alloc, make_two(alloc, TwoOp::Slt, 1, y, x)?),
        BinaryOp::Greater => make_two(alloc, TwoOp::Slt, 1, y, x),
        BinaryOp::GreaterOrEqual => opposite(alloc, make_two(alloc, TwoOp::Slt, 1, x, y)?),
        _ => Ok(Word::Constant { width: 1, value: 0 }),
    }
}

fn difference(alloc: Global, x: Word, y: Word) -> Result<Word, AllocError>
    ensures { IfOk result (λ word. word_of word ≡ script.two terms.Add 128 (word_of x) (script.two
        terms.Mul 128 (word_of y) (number (negsuc 0)))) }
{
    let negative = make_two(alloc, TwoOp::Mul, 128, y, number(-1))?;
    make_two(alloc, TwoOp::Add, 128, x, negative)
}

fn truth(alloc: Global, op: BinaryOp, x: Word, y: Word) -> Result<Word, AllocError>
    ensures { IfOk result (λ word. word_of word ≡ extended false 1 (comparison op (word_of x)
        (word_of y))) }
{
    let bit = comparison(alloc, op, x, y)?;
    extended(alloc, false, 1, bit)
}

/// What an operator or a function makes of two words.
pub fn binary_word(alloc: Global, op: BinaryOp, x: Word, y: Word) -> Result<Word, AllocError>
    ensures { IfOk result (λ word. word_of word ≡ binary_word op (word_of x) (word_of y)) }
{
    match op {
        BinaryOp::Or => make_two(alloc, TwoOp::Or, 128, x, y),
        BinaryOp::Xor => make_two(alloc, TwoOp::Xor, 128, x, y),
        BinaryOp::And => make_two(alloc, TwoOp::And, 128, x, y),
        BinaryOp::Add => make_two(alloc, TwoOp::Add, 128, x, y),
        BinaryOp::Subtract => difference(alloc, x, y),
        BinaryOp::Multiply => make_two(alloc, TwoOp::Mul, 128, x, y),
        BinaryOp::Minimum => make_two(alloc, TwoOp::Smin, 128, x, y),
        BinaryOp::Maximum => make_two(alloc, TwoOp::Smax, 128, x, y),
        BinaryOp::ShiftLeft => make_shift_left(alloc, x, y),
        BinaryOp::ShiftRight => make_shift_right(alloc, x, y),
        _ => truth(alloc, op, x, y),
    }
}

/// A shift to the left by a constant number of up to 127 places.
pub fn left_by(alloc: Global, places: u32, x: Word) -> Result<Word, AllocError>
    requires { places ≤ 127 }
    ensures { IfOk result (λ word. word_of word ≡ left_by places (word_of x)) }
{
    let power = Word::Constant {
        width: 128,
        value: 1 << places,
    };
    make_two(alloc, TwoOp::Mul, 128, x, power)
}

/// A shift to the right by a constant number of places.
pub fn right_by(alloc: Global, places: u128, x: Word) -> Result<Word, AllocError>
    ensures { IfOk result (λ word. word_of word ≡ right_by places (word_of x)) }
{
    make_one(alloc, OneOp::Ashr, 128, places.min(127) as u32, x)
}

/// Whether a number is not 0, as one bit.
pub fn is_set(alloc: Global, x: Word) -> Result<Word, AllocError>
    ensures { IfOk result (λ word. word_of word ≡ is_set (word_of x)) }
{
    make_two(
        alloc,
        TwoOp::Ult,
        1,
        Word::Constant {
            width: 128,
            value: 0,
        },
        x,
    )
}
