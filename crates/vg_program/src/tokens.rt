//! The tokens of a program, read from the beginning of a text.

ghost use Rattle.std.specs.Prelude.{◌≡◌, ◌≤◌, ◌&&◌, ◌||◌, ◌^◌, ◌==◌, List, length, take, drop, nat_le, nat_lt, not, min};
ghost use Rattle.std.specs.List.{list_all, prefix_len, starts_with};
ghost use Rattle.vg_text.specs.Byte.{is_printable, is_digit, is_letter, is_name, is_name_text};
ghost use Rattle.vg_program.specs.Tokens.{Gives, met, word_length, word_of, behind_word, is_printed, begins_no_token, unfit, begins, signs_at, is_word, word_at, name_at, width_named, type_at, digits_length, is_numeral, value_behind, number_of, number_at, is_register, register_at};

use crate::fault::Fault;
use crate::stop::{ReadError, Stop};
use vg_base::width::Width;
use vg_text::byte::{is_digit, is_letter, is_name, is_name_text, is_printable, is_text};

fn is_printed(b: u8) -> bool
    ensures { result ≡ is_printed b }
{
    b == b'\n' || b == b' ' || is_printable(b)
}

/// The bytes from the n-th on.
pub(crate) fn skip(text: &[u8], n: usize) -> &[u8]
    ensures { result.now ≡ drop n text.now }
{
    if n <= text.len() { &text[n..] } else { b"" }
}

pub(crate) fn front(text: &[u8], n: usize) -> &[u8]
    ensures { result.now ≡ take n text.now }
{
    if n <= text.len() { &text[..n] } else { text }
}

fn word_length(text: &[u8]) -> usize
    ensures value { result ≡ word_length text.now }
    ensures within { result ≤ length text.now }
{
    text.iter().take_while(|b| is_name(**b)).count()
}

pub(crate) fn word_of(text: &[u8]) -> &[u8]
    ensures { result.now ≡ word_of text.now }
{
    front(text, word_length(text))
}

pub(crate) fn behind_word(text: &[u8]) -> &[u8]
    ensures { result.now ≡ behind_word text.now }
{
    skip(text, word_length(text))
}

fn digits_length(text: &[u8]) -> usize
    ensures value { result ≡ digits_length text.now }
    ensures within { result ≤ length text.now }
{
    text.iter().take_while(|b| is_digit(**b)).count()
}

#[tactic(auto, unfolding(crate::specs::Tokens::begins_no_token))]
fn begins_no_token(text: &[u8]) -> bool
    ensures { result ≡ begins_no_token text.now }
{
    match text {
        [] => false,
        [first, ..] => {
            if is_letter(*first) {
                word_length(text) > 64
            } else {
                !is_printed(*first)
            }
        }
    }
}

/// A fault that is met where these bytes of the text are left.
pub fn met(fault: Fault, text: &[u8]) -> Stop
    ensures { result ≡ met fault text.now }
{
    Stop {
        fault,
        left: text.len(),
    }
}

/// The fault where these bytes are left: `Shape` of a token that does not fit what stands before
/// it, `Token` of what is no token.
#[tactic(auto, unfolding(crate::specs::Tokens::unfit))]
pub fn unfit(text: &[u8]) -> Stop
    ensures { result ≡ unfit text.now }
{
    met(
        if begins_no_token(text) {
            Fault::Token
        } else {
            Fault::Shape
        },
        text,
    )
}

/// Whether a text begins with this byte.
pub fn begins(byte: u8, text: &[u8]) -> bool
    ensures { result ≡ begins byte text.now }
{
    match text {
        [] => false,
        [first, ..] => *first == byte,
    }
}

/// Reads these bytes, each of which is a token, and gives what stands after them. The error is the
/// first that differs.
#[tactic(auto, unfolding(crate::specs::Tokens::signs_at))]
pub fn signs_at<'a>(signs: &[u8], text: &'a [u8]) -> Result<&'a [u8], ReadError>
    ensures { Gives (λ rest. rest.now) result (signs_at signs.now text.now) }
{
    let mut left = signs;
    let mut rest = text;
    'signs: while let [sign, others @ ..] = left {
        match rest {
            [first, behind @ ..] if *first == *sign => rest = behind,
            _ => return Err(ReadError::At(unfit(rest))),
        }
        left = others;
    }
    Ok(rest)
}

/// Whether the letters, digits and `_` with which a text begins are this word.
#[tactic(auto, unfolding(crate::specs::Tokens::is_word))]
pub fn is_word(word: &[u8], text: &[u8]) -> bool
    ensures { result ≡ is_word word.now text.now }
{
    is_text(word_of(text), word)
}

/// Reads this word, and gives what stands after it. The error is what stands in its place.
#[tactic(auto, unfolding(crate::specs::Tokens::word_at))]
pub fn word_at<'a>(word: &[u8], text: &'a [u8]) -> Result<&'a [u8], ReadError>
    ensures { Gives (λ rest. rest.now) result (word_at word.now text.now) }
{
    if !is_word(word, text) {
        return Err(ReadError::At(unfit(text)));
    }
    Ok(behind_word(text))
}

/// Reads a name, and gives it with what stands after it. The error is what stands in its place.
#[tactic(auto, unfolding(crate::specs::Tokens::name_at))]
pub fn name_at(text: &[u8]) -> Result<(&[u8], &[u8]), ReadError>
    ensures { Gives (λ x. (x.0.now, x.1.now)) result (name_at text.now) }
{
    let name = word_of(text);
    if !is_name_text(name) {
        return Err(ReadError::At(unfit(text)));
    }
    Ok((name, behind_word(text)))
}

fn width_named(name: &[u8]) -> Option<Width>
    ensures { result ≡ width_named name.now }
{
    if is_text(name, b"i8") {
        Some(Width::W8)
    } else if is_text(name, b"i16") {
        Some(Width::W16)
    } else if is_text(name, b"i32") {
        Some(Width::W32)
    } else if is_text(name, b"i64") {
        Some(Width::W64)
    } else {
        None
    }
}

#[tactic(auto, unfolding(crate::specs::Tokens::type_at))]
pub(crate) fn type_at(text: &[u8]) -> Result<(Width, &[u8]), ReadError>
    ensures { Gives (λ x. (x.0, x.1.now)) result (type_at text.now) }
{
    match width_named(word_of(text)) {
        None => Err(ReadError::At(unfit(text))),
        Some(width) => Ok((width, behind_word(text))),
    }
}

fn is_numeral(digits: &[u8]) -> bool
    ensures { result ≡ is_numeral digits.now }
{
    match digits {
        [] => false,
        [_] => true,
        [first, ..] => *first != b'0',
    }
}

#[tactic(auto, unfolding(crate::specs::Tokens::number_of))]
fn number_of(digits: &[u8]) -> u128
    ensures value { result ≡ number_of digits.now }
    ensures capped { result ≤ 2 ^ 64 }
{
    let mut number: u128 = 0;
    let mut rest = digits;
    'digits: while let [first, others @ ..] = rest {
        number = (10 * number + (*first as u128).saturating_sub(48)).min(1 << 64);
        rest = others;
    }
    number
}

/// Reads a number without a leading zero, and gives it with what stands after it; from 2^64 on
/// every number is given as 2^64, which no range allows.
#[tactic(auto, unfolding(crate::specs::Tokens::number_at))]
pub fn number_at(text: &[u8]) -> Result<(u128, &[u8]), ReadError>
    ensures { Gives (λ x. (x.0, x.1.now)) result (number_at text.now) }
{
    let length = digits_length(text);
    let digits = front(text, length);
    if !is_numeral(digits) {
        return Err(ReadError::At(unfit(text)));
    }
    Ok((number_of(digits), skip(text, length)))
}

#[tactic(auto, unfolding(crate::specs::Tokens::register_at))]
pub(crate) fn register_at(letter: u8, text: &[u8]) -> Result<(u128, &[u8]), ReadError>
    ensures { Gives (λ x. (x.0, x.1.now)) result (register_at letter text.now) }
{
    let behind = skip(text, 2);
    let length = digits_length(behind);
    let digits = front(behind, length);
    if text.starts_with(&[b'%', letter]) && is_numeral(digits) {
        Ok((number_of(digits), skip(behind, length)))
    } else {
        Err(ReadError::At(unfit(text)))
    }
}
