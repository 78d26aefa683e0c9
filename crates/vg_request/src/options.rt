//! What the options of a command say.

ghost use Rattle.std.specs.Prelude.{◌≡◌, option_map};
ghost use Rattle.vg_catalog.specs.Extensions.{bits_in};
ghost use Rattle.vg_request.specs.Options.{width_number, width_of, with_named, allowed_of};
ghost use Rattle.vg_request.specs.Texts.{texts_of};

use bitflags::Flags;
use vg_catalog::Extensions;
use vg_text::decimal;

/// What `--width`, `--with` and `--more` say.
#[derive(Clone, Copy)]
pub struct Options {
    /// The width of the search, 1 to 4096: how many plans it keeps of each size. 32 where the words
    /// give none.
    pub width: u32,
    /// The extensions whose entries may be called. All where the words name none.
    pub allowed: Extensions,
    /// Whether `--more` stands there: wide plans are searched too.
    pub more: bool,
}

/// The width of the search where the words give none.
const USUAL_WIDTH: u32 = 32;

/// The number of a width: decimal digits, 1 to 4096.
fn width_number(text: &str) -> Option<u32>
    ensures { result ≡ width_number text.now }
{
    let number = decimal(text.as_bytes())?;
    if 1 <= number && number <= 4096 {
        Some(number as u32)
    } else {
        None
    }
}

/// The width that the values of `--width` say. None after two.
pub(crate) fn width_of(widths: &[&str]) -> Option<u32>
    ensures { result ≡ width_of (texts_of widths.now) }
{
    match widths {
        [] => Some(USUAL_WIDTH),
        [width] => width_number(*width),
        _ => None,
    }
}

/// The extensions of these names together.
fn named(names: &[&str]) -> Option<Extensions>
    ensures { option_map bits_in result ≡ with_named 0 (texts_of names.now) }
{
    let mut set = Extensions::empty();
    let mut left = names;
    'names: while let [name, behind @ ..] = left {
        let one = Extensions::from_name(name.as_bytes())?;
        set = set.union(one);
        left = behind;
    }
    Some(set)
}

/// The extensions that the values of `--with` say. None where one is no name of an extension.
pub(crate) fn allowed_of(names: &[&str]) -> Option<Extensions>
    ensures { option_map bits_in result ≡ allowed_of (texts_of names.now) }
{
    match names {
        [] => Some(Extensions::every()),
        _ => named(names),
    }
}
