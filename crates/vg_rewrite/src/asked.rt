//! At which widths forms of values are asked for.

ghost use Rattle.std.specs.Prelude.{◌≡◌};
ghost use Rattle.vg_rewrite.specs.Narrowed.{and_asked, is_asked, unasked, with_bit};

use vg_base::Width;

/// The widths at which the form of a value is asked for, and of a comparison whether it is.
#[derive(Clone, Copy)]
pub struct Asked {
    pub bit: bool,
    pub at_8: bool,
    pub at_16: bool,
    pub at_32: bool,
    pub at_64: bool,
}

impl Asked {
    /// At no width.
    pub(crate) fn none() -> Asked
        ensures { result ≡ unasked }
    {
        Asked {
            bit: false,
            at_8: false,
            at_16: false,
            at_32: false,
            at_64: false,
        }
    }

    /// Whether it is asked for at a width.
    pub(crate) fn is_at(self, width: Width) -> bool
        ensures { result ≡ is_asked self width }
    {
        match width {
            Width::W8 => self.at_8,
            Width::W16 => self.at_16,
            Width::W32 => self.at_32,
            Width::W64 => self.at_64,
        }
    }

    /// At a width too.
    pub(crate) fn and_at(self, width: Width) -> Asked
        ensures { result ≡ and_asked width self }
    {
        let mut asked = self;
        match width {
            Width::W8 => asked.at_8 = true,
            Width::W16 => asked.at_16 = true,
            Width::W32 => asked.at_32 = true,
            Width::W64 => asked.at_64 = true,
        }
        asked
    }

    /// As a bit too.
    pub(crate) fn and_bit(self) -> Asked
        ensures { result ≡ with_bit self }
    {
        let mut asked = self;
        asked.bit = true;
        asked
    }
}
