//! The words after a command, part by part.

ghost use Rattle.std.specs.Prelude.{◌≡◌, ◌<◌, length, option_map, IfSome};
ghost use Rattle.vg_request.specs.Word.{plain_word};
ghost use Rattle.vg_request.specs.Parts.{part_of, part_seen, IsFirst, width, extension, word};

use crate::word::plain_word;
use vg_outside::Bytes;
use vg_text::byte::is_text;

/// An option without a value.
#[derive(Clone, Copy)]
pub(crate) enum Flag {
    /// `--guard`.
    Guard,
    /// `--more`.
    More,
}

/// An option, with its value where it has one, or a word that is no option.
#[derive(Clone, Copy)]
pub(crate) enum Part<'a> {
    /// The value of `--width`.
    Width(&'a str),
    /// The value of `--with`.
    Extension(&'a str),
    /// An option without a value.
    Flag(Flag),
    /// A word that is no option.
    Word(&'a str),
}

/// The first part of some words, and the words after it.
#[derive(Clone, Copy)]
pub(crate) struct Cut<'a> {
    pub(crate) part: Part<'a>,
    pub(crate) behind: &'a [Bytes],
}

fn width_part(value: &[u8]) -> Option<Part<'_>>
    ensures { option_map part_seen result ≡ option_map (λ v. width v) (plain_word value.now) }
{
    Some(Part::Width(plain_word(value)?))
}

fn extension_part(value: &[u8]) -> Option<Part<'_>>
    ensures { option_map part_seen result ≡ option_map (λ v. extension v) (plain_word value.now) }
{
    Some(Part::Extension(plain_word(value)?))
}

fn word_part(bytes: &[u8]) -> Option<Part<'_>>
    ensures { option_map part_seen result ≡ option_map (λ v. word v) (plain_word bytes.now) }
{
    Some(Part::Word(plain_word(bytes)?))
}

/// The part that a word is by itself.
fn part_of(bytes: &[u8]) -> Option<Part<'_>>
    ensures { option_map part_seen result ≡ part_of bytes.now }
{
    if let Some(value) = bytes.strip_prefix(b"--width=".as_slice()) {
        return width_part(value);
    }
    if let Some(value) = bytes.strip_prefix(b"--with=".as_slice()) {
        return extension_part(value);
    }
    if is_text(bytes, b"--guard") {
        return Some(Part::Flag(Flag::Guard));
    }
    if is_text(bytes, b"--more") {
        return Some(Part::Flag(Flag::More));
    }
    word_part(bytes)
}

/// The first part of the words. None where there is no word or no part begins them.
#[tactic(auto, unfolding(crate::specs::Parts::parts_of))]
pub(crate) fn first_part(words: &[Bytes]) -> Option<Cut<'_>>
    requires { 0 < length words.now }
    ensures first { IsFirst words.now result }
    ensures falls { IfSome result (λ cut. length cut.behind.now < length words.now) }
{
    match words {
        [word, value, behind @ ..] if is_text(word.as_slice(), b"--width") => {
            let part = width_part(value.as_slice())?;
            Some(Cut { part, behind })
        }
        [word, value, behind @ ..] if is_text(word.as_slice(), b"--with") => {
            let part = extension_part(value.as_slice())?;
            Some(Cut { part, behind })
        }
        [word, behind @ ..] => {
            let part = part_of(word.as_slice())?;
            Some(Cut { part, behind })
        }
        [] => None,
    }
}
