//! Tokens.

ghost use Rattle.std.specs.Prelude.{◌≡◌};
ghost use Rattle.vg_text.specs.Words.{is_end};

use crate::place::Place;

/// What a token is.
#[derive(Clone, Copy, PartialEq, Eq)]
pub enum TokenKind {
    /// A letter or `_`, then letters, digits and `_`; at most 64 bytes.
    Name,
    /// Decimal digits, or `0x` and hexadecimal digits; below 2^127.
    Number,
    /// One of `:= == != <= >= << >>`, or one other byte of 0x21 to 0x7E.
    Sign,
    /// The end of the text.
    End,
}

impl TokenKind {
    /// Whether the text is at its end.
    pub fn is_end(self) -> bool
        ensures { result ≡ is_end self }
    {
        match self {
            TokenKind::End => true,
            TokenKind::Name | TokenKind::Number | TokenKind::Sign => false,
        }
    }
}

/// A token: the bytes from `start` up to `end`, and where the first of them stands.
#[derive(Clone, Copy, PartialEq, Eq)]
pub struct Token {
    pub kind: TokenKind,
    pub start: usize,
    pub end: usize,
    pub place: Place,
}
