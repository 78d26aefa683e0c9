//! What stands at the front of a text.

ghost use Rattle.std.specs.Prelude.{◌≡◌, ◌<◌, ◌≤◌, IsTrue, length, slice_index};
ghost use Rattle.std.specs.List.{prefix_len};
ghost use Rattle.vg_text.specs.Byte.{is_name, is_digit, is_hex_digit, in_comment};
ghost use Rattle.vg_text.specs.Token.{front_of, opens_comment, opens_hexadecimal, comment_front, name_front, number_front, hexadecimal_front, decimal_front, sign_front, IsWithin};

use crate::byte::{
    in_comment, is_digit, is_hex_digit, is_letter, is_name, is_pair, is_printable, is_white,
};
use crate::number::value_in;
use crate::token::TokenKind;

/// What stands at the front of a text.
#[derive(Clone, Copy)]
pub enum Front {
    /// So many bytes of white space or of a comment.
    Gap(usize),
    /// A token of so many bytes.
    Lexeme(TokenKind, usize),
    /// A byte, name or number that is no token.
    Bad,
}

/// The byte at an index, 0 past the end.
fn byte_at(text: &[u8], index: usize) -> u8
    ensures { result ≡ slice_index text.now index }
{
    match text.get(index) {
        Some(byte) => *byte,
        None => 0,
    }
}

fn opens_comment(text: &[u8]) -> bool
    ensures answer { result ≡ opens_comment text.now }
    ensures long { IsTrue result → 2 ≤ length text.now }
{
    match text {
        [b'/', b'/', ..] => true,
        _ => false,
    }
}

fn opens_hexadecimal(text: &[u8]) -> bool
    ensures answer { result ≡ opens_hexadecimal text.now }
    ensures long { IsTrue result → 3 ≤ length text.now }
{
    match text {
        [b'0', b'x', digit, ..] => is_hex_digit(*digit),
        _ => false,
    }
}

fn name_len(text: &[u8]) -> usize
    ensures len { result ≡ prefix_len is_name text.now }
    ensures inside { result ≤ length text.now }
{
    text.iter().take_while(|byte| is_name(**byte)).count()
}

fn comment_len(text: &[u8]) -> usize
    ensures len { result ≡ prefix_len in_comment text.now }
    ensures inside { result ≤ length text.now }
{
    text.iter().take_while(|byte| in_comment(**byte)).count()
}

fn decimal_len(text: &[u8]) -> usize
    ensures len { result ≡ prefix_len is_digit text.now }
    ensures inside { result ≤ length text.now }
{
    text.iter().take_while(|byte| is_digit(**byte)).count()
}

fn hexadecimal_len(text: &[u8]) -> usize
    ensures len { result ≡ prefix_len is_hex_digit text.now }
    ensures inside { result ≤ length text.now }
{
    text.iter().take_while(|byte| is_hex_digit(**byte)).count()
}

/// A comment, with what stands on its line after `//`.
fn comment_front(text: &[u8]) -> Front
    requires { 2 ≤ length text.now }
    ensures front { result ≡ comment_front text.now }
    ensures within { IsWithin result (length text.now) }
{
    Front::Gap(2 + comment_len(&text[2..]))
}

/// A name, whose first byte is known to begin one.
fn name_front(text: &[u8]) -> Front
    requires { 1 ≤ length text.now }
    ensures front { result ≡ name_front text.now }
    ensures within { IsWithin result (length text.now) }
{
    let len = 1 + name_len(&text[1..]);
    if len <= 64 {
        Front::Lexeme(TokenKind::Name, len)
    } else {
        Front::Bad
    }
}

/// A number of so many bytes, where its digits make one below 2^127.
fn number_front(base: u8, digits: &[u8], len: usize) -> Front
    requires base { 1 ≤ base }
    requires len { 1 ≤ len }
    ensures front { result ≡ number_front base digits.now len }
    ensures within { IsWithin result len }
{
    match value_in(base, digits) {
        Some(value) if value < 1 << 127 => Front::Lexeme(TokenKind::Number, len),
        _ => Front::Bad,
    }
}

/// A hexadecimal number, whose first digit is known to be one.
fn hexadecimal_front(text: &[u8]) -> Front
    requires { 3 ≤ length text.now }
    ensures front { result ≡ hexadecimal_front text.now }
    ensures within { IsWithin result (length text.now) }
{
    let len = 1 + hexadecimal_len(&text[3..]);
    number_front(16, &text[2..2 + len], 2 + len)
}

/// A decimal number, whose first digit is known to be one.
fn decimal_front(text: &[u8]) -> Front
    requires { 1 ≤ length text.now }
    ensures front { result ≡ decimal_front text.now }
    ensures within { IsWithin result (length text.now) }
{
    let len = 1 + decimal_len(&text[1..]);
    number_front(10, &text[..len], len)
}

/// What stands at the front of a text that is not empty.
#[tactic(auto, unfolding(crate::specs::Token::front_of))]
pub fn look_at(text: &[u8]) -> Front
    requires { 0 < length text.now }
    ensures front { result ≡ front_of text.now }
    ensures within { IsWithin result (length text.now) }
{
    if is_white(byte_at(text, 0)) {
        Front::Gap(1)
    } else if opens_comment(text) {
        comment_front(text)
    } else if is_letter(byte_at(text, 0)) {
        name_front(text)
    } else if opens_hexadecimal(text) {
        hexadecimal_front(text)
    } else if is_digit(byte_at(text, 0)) {
        decimal_front(text)
    } else {
        sign_front(text)
    }
}

/// A sign, or a byte that is none.
fn sign_front(text: &[u8]) -> Front
    requires { 1 ≤ length text.now }
    ensures front { result ≡ sign_front text.now }
    ensures within { IsWithin result (length text.now) }
{
    match text {
        [first, second, ..] if is_pair(*first, *second) => Front::Lexeme(TokenKind::Sign, 2),
        [first, ..] if is_printable(*first) => Front::Lexeme(TokenKind::Sign, 1),
        _ => Front::Bad,
    }
}
