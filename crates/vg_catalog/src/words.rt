//! What the words of headers are.

ghost use Rattle.std.specs.Prelude.{◌≡◌};
ghost use Rattle.std.specs.List.{list_all};
ghost use Rattle.vg_text.specs.Byte.{is_hex_digit};
ghost use Rattle.vg_text.specs.Token.{opens_comment};
ghost use Rattle.vg_text.specs.Cut.{is_hexadecimal};
ghost use Rattle.vg_catalog.specs.Words.{ends_word, is_number, number_in_word, between};
ghost use Rattle.vg_pseudo.specs.Words.{number_of};

use vg_pseudo::number_of;
use vg_text::byte::{is_hex_digit, is_text, is_white};
use vg_text::number::is_decimal;

/// Whether a comment begins here.
pub(crate) fn opens_comment(rest: &[u8]) -> bool
    ensures { result ≡ opens_comment rest.now }
{
    match rest {
        [b'/', b'/', ..] => true,
        _ => false,
    }
}

/// Whether no word goes on here: at white space, a comment or the end.
pub(crate) fn ends_word(rest: &[u8]) -> bool
    ensures { result ≡ ends_word rest.now }
{
    match rest.first() {
        Some(byte) => is_white(*byte) || opens_comment(rest),
        None => true,
    }
}

fn is_all_hexadecimal(text: &[u8]) -> bool
    ensures { result ≡ list_all is_hex_digit text.now }
{
    text.iter().all(|byte| is_hex_digit(*byte))
}

/// Whether a text is one or more hexadecimal digits.
fn is_hexadecimal(digits: &[u8]) -> bool
    ensures { result ≡ is_hexadecimal digits.now }
{
    !digits.is_empty() && is_all_hexadecimal(digits)
}

/// Whether a word is one number, decimal or hexadecimal.
fn is_number(bytes: &[u8]) -> bool
    ensures { result ≡ is_number bytes.now }
{
    let (front, digits) = bytes.split_at(bytes.len().min(2));
    is_decimal(bytes) || is_text(front, b"0x") && is_hexadecimal(digits)
}

/// The number that a word spells.
pub(crate) fn number_in_word(bytes: &[u8]) -> Option<u128>
    ensures { result ≡ number_in_word bytes.now }
{
    if is_number(bytes) {
        number_of(bytes)
    } else {
        None
    }
}

/// The number, where it is one from `low` to `high`.
pub(crate) fn between(low: u32, high: u32, number: Option<u128>) -> Option<u32>
    ensures { result ≡ between low high number }
{
    match number {
        Some(number) if u128::from(low) <= number && number <= u128::from(high) => {
            Some(number as u32)
        }
        _ => None,
    }
}
