//! Header words, read from left to right.

ghost use Rattle.std.specs.Prelude.{◌≡◌, ◌≤◌, ◌^◌, length, drop, slice_range, IfOk};
ghost use Rattle.vg_text.specs.Lexing.{source};

use crate::fault::CatalogFault;
use crate::words::{between, ends_word, number_in_word};
use vg_text::Lexer;
use vg_text::byte::is_text;
use vg_text::lexer::Word;

/// A file, and what is left of it.
#[derive(Clone, Copy)]
pub(crate) struct Reader<'a> {
    pub(crate) text: &'a [u8],
    pub(crate) lexer: Lexer<'a>,
    ghost same: { source lexer ≡ text.now },
}

impl<'a> Reader<'a> {
    ghost use Rattle.vg_text.specs.Lexing.{left, spelled_of};
    ghost use Rattle.vg_text.specs.Words.{reading_of};
    ghost use Rattle.vg_catalog.specs.Gives.{Reads, Gives};
    ghost use Rattle.vg_catalog.specs.Lexing.{left_of};
    ghost use Rattle.vg_catalog.specs.Words.{end_of_word, next_word, this_word, optional_word, number_word};

    /// At the beginning of a file.
    pub(crate) fn new(text: &'a [u8]) -> Reader<'a>
        requires { length text.now ≤ 2 ^ 31 }
        ensures { left_of result ≡ reading_of text.now }
    {
        Reader {
            text,
            lexer: Lexer::new(text),
        }
    }

    /// The text from this byte on.
    fn rest(&self, at: usize) -> &'a [u8]
        requires { at ≤ length self.now.text.now }
        ensures { result.now ≡ drop at self.now.text.now }
    {
        &self.text[at..]
    }

    /// The text between two bytes.
    fn part(&self, start: usize, end: usize) -> &'a [u8]
        requires { end ≤ length self.now.text.now }
        ensures { result.now ≡ slice_range self.now.text.now start end }
    {
        if start <= end {
            &self.text[start..end]
        } else {
            &[]
        }
    }

    /// Where the word ends that goes on up to the byte `end`, after which the reader stands.
    fn end_of_word(&mut self, end: usize) -> Result<usize, CatalogFault>
        requires { end ≤ length self.old.text.now }
        ensures read { Gives (λ e. (e, left self.new.lexer)) result
            (end_of_word self.old.text.now end (left self.old.lexer)) }
        ensures within { IfOk result (λ e. e ≤ length self.old.text.now) }
        ensures text { self.new.text.now ≡ self.old.text.now }
    {
        let mut end = end;
        'tokens: loop {
            if ends_word(self.rest(end)) {
                return Ok(end);
            }
            match self.lexer.next() {
                Ok(token) if token.kind.is_end() => return Ok(end),
                Ok(token) => end = token.end,
                Err(place) => return Err(CatalogFault::Token { place }),
            }
        }
    }

    /// The next word.
    pub(crate) fn next(&mut self) -> Result<Word<'a>, CatalogFault>
        ensures read { Reads spelled_of (left_of self.new) result (next_word (left_of self.old)) }
        ensures text { self.new.text.now ≡ self.old.text.now }
    {
        let token = match self.lexer.next() {
            Ok(token) => token,
            Err(place) => return Err(CatalogFault::Token { place }),
        };
        if token.kind.is_end() {
            return Ok(Word {
                bytes: &[],
                place: token.place,
                is_end: true,
            });
        }
        let end = self.end_of_word(token.end)?;
        Ok(Word {
            bytes: self.part(token.start, end),
            place: token.place,
            is_end: false,
        })
    }

    /// The next word, which has to be this one; else a fault at it.
    pub(crate) fn expect(&mut self, text: &[u8]) -> Result<Word<'a>, CatalogFault>
        ensures read { Reads spelled_of (left_of self.new) result
            (this_word text.now (left_of self.old)) }
        ensures text { self.new.text.now ≡ self.old.text.now }
    {
        let word = self.next()?;
        if is_text(word.bytes, text) {
            Ok(word)
        } else {
            Err(CatalogFault::Header { place: word.place })
        }
    }

    /// Whether this very word comes next, which is taken then.
    pub(crate) fn accept(&mut self, text: &[u8]) -> Result<bool, CatalogFault>
        ensures read { Reads (λ b. b) (left_of self.new) result
            (optional_word text.now (left_of self.old)) }
        ensures text { self.new.text.now ≡ self.old.text.now }
    {
        let mut ahead = *self;
        let word = ahead.next()?;
        if is_text(word.bytes, text) {
            *self = ahead;
            Ok(true)
        } else {
            Ok(false)
        }
    }

    /// A number from `low` to `high`.
    pub(crate) fn number(&mut self, low: u32, high: u32) -> Result<u32, CatalogFault>
        ensures read { Reads (λ n. n) (left_of self.new) result
            (number_word low high (left_of self.old)) }
        ensures text { self.new.text.now ≡ self.old.text.now }
    {
        let word = self.next()?;
        match between(low, high, number_in_word(word.bytes)) {
            Some(number) => Ok(number),
            None => Err(CatalogFault::Header { place: word.place }),
        }
    }
}
