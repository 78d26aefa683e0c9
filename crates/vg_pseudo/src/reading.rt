//! Single words, read from left to right.

ghost use Rattle.std.specs.Prelude.{◌≡◌, ◌-◌, ◌≤◌, ◌<◌, true, OnOk, IfOk};
ghost use Rattle.vg_text.specs.Lexing.{reading, spelled_of};
ghost use Rattle.vg_pseudo.specs.Reads.{Reads};
ghost use Rattle.vg_pseudo.specs.Reader.{next_at, expect_at, accept_at, name_at, number_at, unread};

use crate::fault::PseudoFault;
use crate::words::{is_free, number_of};
use vg_text::Lexer;
use vg_text::byte::is_text;
use vg_text::lexer::Word;

/// The next word.
pub(crate) fn next<'a>(lexer: &mut Lexer<'a>) -> Result<Word<'a>, PseudoFault>
    ensures read { Reads spelled_of (reading lexer.new) result (next_at (reading lexer.old)) }
    ensures fewer { OnOk result (unread (reading lexer.new) ≡ unread (reading lexer.old) - 1) }
{
    match lexer.word() {
        Ok((word, behind)) => {
            *lexer = behind;
            Ok(word)
        }
        Err(place) => Err(PseudoFault::Token { place }),
    }
}

/// This very word.
pub(crate) fn expect<'a>(text: &[u8], lexer: &mut Lexer<'a>) -> Result<Word<'a>, PseudoFault>
    ensures read { Reads spelled_of (reading lexer.new) result (expect_at text.now (reading
        lexer.old)) }
    ensures fewer { OnOk result (unread (reading lexer.new) ≤ unread (reading lexer.old)) }
{
    let word = next(lexer)?;
    if is_text(word.bytes, text) {
        Ok(word)
    } else {
        Err(PseudoFault::Shape { place: word.place })
    }
}

/// Whether this very word comes next, which is taken then.
pub(crate) fn accept<'a>(text: &[u8], lexer: &mut Lexer<'a>) -> Result<bool, PseudoFault>
    ensures read { Reads (λ b. b) (reading lexer.new) result (accept_at text.now (reading
        lexer.old)) }
    ensures fewer { OnOk result (unread (reading lexer.new) ≤ unread (reading lexer.old)) }
{
    let mut ahead = *lexer;
    let word = next(&mut ahead)?;
    if is_text(word.bytes, text) {
        *lexer = ahead;
        Ok(true)
    } else {
        Ok(false)
    }
}

/// A word that may be a name.
pub(crate) fn name<'a>(lexer: &mut Lexer<'a>) -> Result<Word<'a>, PseudoFault>
    ensures read { Reads spelled_of (reading lexer.new) result (name_at (reading lexer.old)) }
    ensures fewer { OnOk result (unread (reading lexer.new) ≤ unread (reading lexer.old)) }
{
    let word = next(lexer)?;
    if is_free(word.bytes) {
        Ok(word)
    } else {
        Err(PseudoFault::Shape { place: word.place })
    }
}

/// A number.
pub(crate) fn number<'a>(lexer: &mut Lexer<'a>) -> Result<u128, PseudoFault>
    ensures read { Reads (λ n. n) (reading lexer.new) result (number_at (reading lexer.old)) }
    ensures fewer { OnOk result (unread (reading lexer.new) ≤ unread (reading lexer.old) - 1) }
{
    let word = next(lexer)?;
    match number_of(word.bytes) {
        Some(number) => Ok(number),
        None => Err(PseudoFault::Shape { place: word.place }),
    }
}
