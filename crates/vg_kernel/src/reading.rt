//! Single words and places, read from left to right.

ghost use Rattle.std.specs.Prelude.{◌≡◌};
ghost use Rattle.vg_text.specs.Lexing.{reading, spelled_of};
ghost use Rattle.vg_kernel.specs.Gives.{Gives};
ghost use Rattle.vg_kernel.specs.Names.{AreFew};
ghost use Rattle.vg_kernel.specs.Reader.{next_at, expect_at, end_at, name_at, pointer_of, offset_at, address_at};

use crate::fault::KernelFault;
use crate::given::Given;
use crate::names::Names;
use crate::words::{is_free, offset_of};
use vg_base::Address;
use vg_text::byte::is_text;
use vg_text::lexer::Word;
use vg_text::number::decimal;
use vg_text::{Lexer, Place};

/// The next word, and the lexer after it; at the end of the text the word of the end. `Token` where
/// the text goes on with what is no word.
pub fn next<'a>(lexer: Lexer<'a>) -> Result<(Word<'a>, Lexer<'a>), KernelFault>
    ensures read { Gives (λ x. (spelled_of x.0, reading x.1)) result
        (next_at (reading lexer.entry)) }
{
    match lexer.word() {
        Ok(found) => Ok(found),
        Err(place) => Err(KernelFault::Token { place }),
    }
}

/// The lexer after the next word, which has to be this text; else `Shape` at it, or `Token`.
pub fn expect<'a>(text: &[u8], lexer: Lexer<'a>) -> Result<Lexer<'a>, KernelFault>
    ensures read { Gives reading result (expect_at text.now (reading lexer.entry)) }
{
    let (word, rest) = next(lexer)?;
    if is_text(word.bytes, text) {
        Ok(rest)
    } else {
        Err(KernelFault::Shape { place: word.place })
    }
}

/// The lexer at the end of the text, which has to be next; else `Shape` at what stands there, or
/// `Token`.
pub fn end<'a>(lexer: Lexer<'a>) -> Result<Lexer<'a>, KernelFault>
    ensures read { Gives reading result (end_at (reading lexer.entry)) }
{
    let (word, rest) = next(lexer)?;
    if word.is_end {
        Ok(rest)
    } else {
        Err(KernelFault::Shape { place: word.place })
    }
}

/// The next word, which has to be one that may be a name, and the lexer after it; else `Shape` at
/// it, or `Token`.
pub fn name<'a>(lexer: Lexer<'a>) -> Result<(Word<'a>, Lexer<'a>), KernelFault>
    ensures read { Gives (λ x. (spelled_of x.0, reading x.1)) result
        (name_at (reading lexer.entry)) }
{
    let (word, rest) = next(lexer)?;
    if is_free(word.bytes) {
        Ok((word, rest))
    } else {
        Err(KernelFault::Shape { place: word.place })
    }
}

/// The pointer that a name at this place stands for.
fn pointer_of(given: Option<Given>, place: Place) -> Result<u32, KernelFault>
    ensures { Gives (λ x. x) result (pointer_of given place) }
{
    match given {
        Some(Given::Pointer(pointer)) => Ok(pointer),
        Some(_) => Err(KernelFault::WidthMismatch { place }),
        None => Err(KernelFault::UnknownName { place }),
    }
}

/// The distance after `+` or `-`.
#[tactic(auto, unfolding(crate::specs::Reader::offset_at))]
fn offset<'a>(
    negative: bool,
    pointer: u32,
    lexer: Lexer<'a>,
) -> Result<(Address, Lexer<'a>), KernelFault>
    ensures read { Gives (λ x. (x.0, reading x.1)) result
        (offset_at negative pointer (reading lexer.entry)) }
{
    let (number, rest) = next(lexer)?;
    let place = number.place;
    let Some(distance) = decimal(number.bytes) else {
        return Err(KernelFault::Shape { place });
    };
    match offset_of(negative, distance) {
        Some(offset) => Ok((Address { pointer, offset }, rest)),
        None => Err(KernelFault::LiteralRange { place }),
    }
}

/// Where an access begins.
#[tactic(auto, unfolding(crate::specs::Reader::address_at))]
pub(crate) fn address<'a>(
    names: &Names,
    lexer: Lexer<'a>,
) -> Result<(Address, Lexer<'a>), KernelFault>
    requires { AreFew names.now }
    ensures read { Gives (λ x. (x.0, reading x.1)) result
        (address_at names.now (reading lexer.entry)) }
{
    let (name, rest) = name(lexer)?;
    let pointer = pointer_of(names.given_as(name.bytes), name.place)?;
    let (sign, behind) = next(rest)?;
    if is_text(sign.bytes, b"+") {
        offset(false, pointer, behind)
    } else if is_text(sign.bytes, b"-") {
        offset(true, pointer, behind)
    } else {
        Ok((Address { pointer, offset: 0 }, rest))
    }
}
