//! The beginnings of lines, up to their operands.

ghost use Rattle.std.specs.Prelude.{◌≡◌};
ghost use Rattle.std.specs.List.{find};
ghost use Rattle.std.specs.Str.{bytes_eq};
ghost use Rattle.vg_program.specs.Tokens.{Gives};
ghost use Rattle.vg_program.specs.Grammar.{head_text, numbers, head_named, left_type_at, scalar_left_at, vector_left_at, left_at, head_at};

use crate::counts::Counts;
use crate::fault::Fault;
use crate::head::Head;
use crate::left::Left;
use crate::stop::ReadError;
use crate::tokens::{
    begins, behind_word, is_word, met, register_at, signs_at, skip, type_at, unfit, word_of,
};
use crate::words::head_text;
use vg_base::width::Width;
use vg_scalar::{Comparison, Resize, Shift, TwoOp};
use vg_text::byte::is_text;

/// The lines that define a scalar of this width.
fn numbers(width: Width) -> [Head; 19]
    ensures { result ≡ numbers width }
{
    [
        Head::Load(width),
        Head::Two(TwoOp::Add, width),
        Head::Two(TwoOp::Sub, width),
        Head::Two(TwoOp::Mul, width),
        Head::Two(TwoOp::And, width),
        Head::Two(TwoOp::Or, width),
        Head::Two(TwoOp::Xor, width),
        Head::Two(TwoOp::Smin, width),
        Head::Two(TwoOp::Smax, width),
        Head::Two(TwoOp::Umin, width),
        Head::Two(TwoOp::Umax, width),
        Head::Shift(Shift::Shl, width),
        Head::Shift(Shift::Lshr, width),
        Head::Shift(Shift::Ashr, width),
        Head::Resize(Resize::Sext, width),
        Head::Resize(Resize::Zext, width),
        Head::Resize(Resize::Trunc, width),
        Head::Select(width),
        Head::Extract(width),
    ]
}

/// The one of a word.
fn named(heads: &[Head], word: &[u8]) -> Option<Head>
    ensures { result ≡ find (λ h. bytes_eq word.now (head_text h)) heads.now }
{
    heads
        .iter()
        .find(|h| is_text(word, head_text(**h)))
        .copied()
}

#[tactic(auto, unfolding(crate::specs::Grammar::head_named))]
fn head_named(left: Left, word: &[u8]) -> Option<Head>
    ensures { result ≡ head_named left word.now }
{
    match left {
        Left::Nothing => named(&[Head::Store, Head::VectorStore], word),
        Left::Bit => named(
            &[
                Head::Compare(Comparison::Eq),
                Head::Compare(Comparison::Slt),
                Head::Compare(Comparison::Ult),
            ],
            word,
        ),
        Left::Number(width) => named(&numbers(width), word),
        Left::Vector => named(
            &[Head::VectorLoad, Head::Constant, Head::Insert, Head::Call],
            word,
        ),
    }
}

#[tactic(auto, unfolding(crate::specs::Grammar::left_type_at))]
fn left_type_at(text: &[u8]) -> Result<(Left, &[u8]), ReadError>
    ensures { Gives (λ x. (x.0, x.1.now)) result (left_type_at text.now) }
{
    if is_word(b"i1", text) {
        return Ok((Left::Bit, behind_word(text)));
    }
    let (width, rest) = type_at(text)?;
    Ok((Left::Number(width), rest))
}

#[tactic(auto, unfolding(crate::specs::Grammar::scalar_left_at))]
fn scalar_left_at(defined: u64, text: &[u8]) -> Result<(Left, &[u8]), ReadError>
    ensures { Gives (λ x. (x.0, x.1.now)) result (scalar_left_at defined text.now) }
{
    let (register, rest) = register_at(b's', text)?;
    if register != defined as u128 {
        return Err(ReadError::At(met(Fault::Shape, text)));
    }
    let rest = signs_at(b":", rest)?;
    let (left, rest) = left_type_at(rest)?;
    let rest = signs_at(b" = ", rest)?;
    Ok((left, rest))
}

#[tactic(auto, unfolding(crate::specs::Grammar::vector_left_at))]
fn vector_left_at(defined: u64, text: &[u8]) -> Result<(Left, &[u8]), ReadError>
    ensures { Gives (λ x. (x.0, x.1.now)) result (vector_left_at defined text.now) }
{
    let (register, rest) = register_at(b'v', text)?;
    if register != defined as u128 {
        return Err(ReadError::At(met(Fault::Shape, text)));
    }
    let rest = signs_at(b" = ", rest)?;
    Ok((Left::Vector, rest))
}

#[tactic(auto, unfolding(crate::specs::Grammar::left_at))]
fn left_at(counts: Counts, text: &[u8]) -> Result<(Left, &[u8]), ReadError>
    ensures { Gives (λ x. (x.0, x.1.now)) result (left_at counts text.now) }
{
    if !begins(b'%', text) {
        Ok((Left::Nothing, text))
    } else if begins(b'v', skip(text, 1)) {
        vector_left_at(counts.vectors, text)
    } else {
        scalar_left_at(counts.scalars, text)
    }
}

/// What stands in front of the operands of a line, where so many are defined before.
#[tactic(auto, unfolding(crate::specs::Grammar::head_at))]
pub(crate) fn head_at(counts: Counts, text: &[u8]) -> Result<(Head, &[u8]), ReadError>
    ensures { Gives (λ x. (x.0, x.1.now)) result (head_at counts text.now) }
{
    let (left, rest) = left_at(counts, text)?;
    match head_named(left, word_of(rest)) {
        None => Err(ReadError::At(unfit(rest))),
        Some(head) => {
            let rest = signs_at(b" ", behind_word(rest))?;
            Ok((head, rest))
        }
    }
}
