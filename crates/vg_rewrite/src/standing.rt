//! What stands for forms of values.

ghost use Rattle.std.specs.Prelude.{◌≡◌};
ghost use Rattle.vg_rewrite.specs.Narrowed.{and_bit_made, and_made, made_at, nowhere};

use vg_base::Width;
use vg_shapes::Wanted;

/// What stands for the form of a value at each width, and for a comparison.
#[derive(Clone, Copy)]
pub struct Standing {
    pub bit: Wanted,
    pub at_8: Wanted,
    pub at_16: Wanted,
    pub at_32: Wanted,
    pub at_64: Wanted,
}

impl Standing {
    /// At no width.
    pub(crate) fn none() -> Standing
        ensures { result ≡ nowhere }
    {
        Standing {
            bit: Wanted::Nothing,
            at_8: Wanted::Nothing,
            at_16: Wanted::Nothing,
            at_32: Wanted::Nothing,
            at_64: Wanted::Nothing,
        }
    }

    /// What stands for the form at a width.
    pub(crate) fn at(self, width: Width) -> Wanted
        ensures { result ≡ made_at self width }
    {
        match width {
            Width::W8 => self.at_8,
            Width::W16 => self.at_16,
            Width::W32 => self.at_32,
            Width::W64 => self.at_64,
        }
    }

    /// With this for the form at a width.
    pub(crate) fn and_at(self, width: Width, x: Wanted) -> Standing
        ensures { result ≡ and_made width x self }
    {
        let mut standing = self;
        match width {
            Width::W8 => standing.at_8 = x,
            Width::W16 => standing.at_16 = x,
            Width::W32 => standing.at_32 = x,
            Width::W64 => standing.at_64 = x,
        }
        standing
    }

    /// With this for a comparison.
    pub(crate) fn and_bit(self, x: Wanted) -> Standing
        ensures { result ≡ and_bit_made x self }
    {
        let mut standing = self;
        standing.bit = x;
        standing
    }
}
