//! Whether a place stands in a comment.

ghost use Rattle.std.specs.Prelude.{◌≡◌, ◌-◌, take};
ghost use Rattle.vg_catalog.specs.Comments.{has_comment, is_in_comment, line_before, lines_behind};

use crate::words::opens_comment;
use vg_text::Place;

/// A text without its first lines, so many.
fn lines_behind(text: &[u8], count: u32) -> &[u8]
    ensures { result.now ≡ lines_behind count text.now }
{
    let mut rest = text;
    let mut left = count;
    'bytes: while left > 0 {
        let Some((byte, more)) = rest.split_first() else {
            return rest;
        };
        if *byte == b'\n' {
            left -= 1;
        }
        rest = more;
    }
    rest
}

/// The first bytes of a text, at most so many.
fn front(text: &[u8], count: usize) -> &[u8]
    ensures { result.now ≡ take count text.now }
{
    &text[..count.min(text.len())]
}

/// What stands before a place on its line.
fn line_before(text: &[u8], place: Place) -> &[u8]
    ensures { result.now ≡ line_before text.now place }
{
    let line = lines_behind(text, place.line.saturating_sub(1));
    front(line, place.column.saturating_sub(1) as usize)
}

fn has_comment(text: &[u8]) -> bool
    ensures { result ≡ has_comment text.now }
{
    let mut rest = text;
    'bytes: while let Some((_, more)) = rest.split_first() {
        if opens_comment(rest) {
            return true;
        }
        rest = more;
    }
    false
}

/// Whether a comment is open at a place of a text.
pub(crate) fn is_in_comment(text: &[u8], place: Place) -> bool
    ensures { result ≡ is_in_comment text.now place }
{
    has_comment(line_before(text, place))
}
