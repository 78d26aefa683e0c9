//! The tokens of a text, one a call.

ghost use Rattle.std.specs.Prelude.{◌≡◌, ◌+◌, ◌<◌, ◌≤◌, ◌^◌, length, take, drop, IfOk, MatchResult, OnErr};
ghost use Rattle.vg_text.specs.Place.{place_after, first_place, end_place};

use crate::front::{Front, look_at};
use crate::place::{Place, end_place, place_after};
use crate::token::{Token, TokenKind};

/// Reads a text token by token. White space and comments stand between tokens and are passed over.
///
/// `new` says that the tokens which are left cut the whole text (`specs/Cut.antt`), and `next`
/// takes them one by one. So their spans are in order, each token's text is its slice, and before
/// and between them stand white space and comments alone. `End` comes exactly where these alone are
/// left, and `Err` exactly at the first byte, name or number that is no token; either is answered
/// again from then on.
#[derive(Clone, Copy)]
pub struct Lexer<'a> {
    text: &'a [u8],
    at: usize,
    place: Place,
    ghost small: { length text.now ≤ 2 ^ 31 },
    ghost inside: { at ≤ length text.now },
    ghost line_fits: { place.line ≤ at + 1 },
    ghost column_fits: { place.column ≤ at + 1 },
}

/// A token by its bytes. The end of the text has none.
#[derive(Clone, Copy)]
pub struct Word<'a> {
    pub bytes: &'a [u8],
    pub place: Place,
    pub is_end: bool,
}

impl<'a> Lexer<'a> {
    ghost use Rattle.vg_text.specs.Lexing.{left, source, reading, spelled_of};
    ghost use Rattle.vg_text.specs.Words.{word_at, reading_of};
    ghost use Rattle.vg_text.specs.Token.{Takes};
    ghost use Rattle.vg_text.specs.Cut.{Cuts, IsTokenOf};

    /// Begins at the front of a text of at most 2^31 bytes.
    #[tactic(auto, using(crate::proofs::Cutting::cuts))]
    pub fn new(text: &'a [u8]) -> Lexer<'a>
        requires { length text.now ≤ 2 ^ 31 }
        ensures reading { reading result ≡ reading_of text.now }
        ensures cut { Cuts (end_place text.now) 0 first_place text.now (left result) }
    {
        let place = Place { line: 1, column: 1 };
        Lexer { text, at: 0, place }
    }

    fn rest(&self) -> &'a [u8]
        ensures { result.now ≡ drop self.now.at self.now.text.now }
    {
        &self.text[self.at..]
    }

    /// The next token. At the end of the text it is of the kind `End` and empty, stands one column
    /// past the last byte, on that byte's line, and is answered again from then on. `Err` is the
    /// place of the first byte, name or number that is no token; then the lexer stands as it was, so
    /// that it is answered again. Takes no memory.
    pub fn next(&mut self) -> Result<Token, Place>
        ensures source { source self.new ≡ source self.old }
        ensures token { Takes (left self.old) result (left self.new) }
        ensures slice { IfOk result (λ t. IsTokenOf (source self.old) t) }
        ensures span { IfOk result (λ t. (t.start ≤ t.end) × (t.end ≤ length (source self.old))) }
        ensures refused { OnErr result (self.new ≡ self.old) }
    {
        let mut behind = *self;
        let token = behind.pass()?;
        *self = behind;
        Ok(token)
    }

    /// The same, but before a fault the white space and comments are passed over.
    fn pass(&mut self) -> Result<Token, Place>
        ensures source { source self.new ≡ source self.old }
        ensures token { Takes (left self.old) result (left self.new) }
        ensures slice { IfOk result (λ t. IsTokenOf (source self.old) t) }
        ensures span { IfOk result (λ t. (t.start ≤ t.end) × (t.end ≤ length (source self.old))) }
    {
        'gaps: while self.at < self.text.len() {
            match look_at(self.rest()) {
                Front::Gap(len) => self.advance(len),
                Front::Lexeme(kind, len) => return Ok(self.take(kind, len)),
                Front::Bad => return Err(self.place),
            }
        }
        Ok(self.end())
    }

    /// The next token with its bytes, and the lexer after it. Takes no memory.
    pub fn word(self) -> Result<(Word<'a>, Lexer<'a>), Place>
        ensures word { MatchResult result
            (λ x. word_at (reading self.entry) ≡ Ok (spelled_of x.0, reading x.1))
            (λ p. word_at (reading self.entry) ≡ Err p) }
    {
        let mut lexer = self;
        let token = lexer.next()?;
        let word = Word {
            bytes: &lexer.text[token.start..token.end],
            place: token.place,
            is_end: token.kind.is_end(),
        };
        Ok((word, lexer))
    }

    /// The token of so many bytes that stands here, which is passed over.
    fn take(&mut self, kind: TokenKind, len: usize) -> Token
        requires { self.old.at + len ≤ length self.old.text.now }
        ensures token { result ≡ record {
          kind = kind;
          start = self.old.at;
          end = self.old.at + len;
          place = self.old.place;
        } }
        ensures at { self.new.at ≡ self.old.at + len }
        ensures text { self.new.text.now ≡ self.old.text.now }
        ensures place { self.new.place ≡ place_after self.old.place
            (take len (drop self.old.at self.old.text.now)) }
    {
        let token = Token {
            kind,
            start: self.at,
            end: self.at + len,
            place: self.place,
        };
        self.advance(len);
        token
    }

    /// The empty token at the end of the text.
    fn end(&self) -> Token
        ensures { result ≡ record {
          kind = TokenKind.End;
          start = self.now.at;
          end = self.now.at;
          place = end_place self.now.text.now;
        } }
    {
        Token {
            kind: TokenKind::End,
            start: self.at,
            end: self.at,
            place: end_place(self.text),
        }
    }

    /// Passes over so many bytes.
    fn advance(&mut self, count: usize)
        requires { self.old.at + count ≤ length self.old.text.now }
        ensures at { self.new.at ≡ self.old.at + count }
        ensures text { self.new.text.now ≡ self.old.text.now }
        ensures place { self.new.place ≡ place_after self.old.place
            (take count (drop self.old.at self.old.text.now)) }
    {
        let passed = &self.rest()[..count];
        let place = place_after(self.place, passed);
        self.at += count;
        self.place = place;
    }
}
