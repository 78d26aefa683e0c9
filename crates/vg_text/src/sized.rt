//! Words that end with a width.

ghost use Rattle.std.specs.Prelude.{◌≡◌};
ghost use Rattle.vg_text.specs.Sized.{width_of, width_behind};

use crate::byte::is_text;
use vg_base::Width;

/// The width that a word spells.
fn width_of(bytes: &[u8]) -> Option<Width>
    ensures { result ≡ width_of bytes.now }
{
    if is_text(bytes, b"8") {
        Some(Width::W8)
    } else if is_text(bytes, b"16") {
        Some(Width::W16)
    } else if is_text(bytes, b"32") {
        Some(Width::W32)
    } else if is_text(bytes, b"64") {
        Some(Width::W64)
    } else {
        None
    }
}

/// The width after a stem, as that of `load32` after `load`, where the word is the stem and a width.
pub fn width_behind(stem: &[u8], bytes: &[u8]) -> Option<Width>
    ensures { result ≡ width_behind stem.now bytes.now }
{
    let cut = stem.len().min(bytes.len());
    let (front, behind) = bytes.split_at(cut);
    if is_text(front, stem) {
        width_of(behind)
    } else {
        None
    }
}
