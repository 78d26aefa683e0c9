//! Where an expression stands.

ghost use Rattle.std.specs.Prelude.{◌≡◌};
ghost use Rattle.vg_pseudo.specs.Spots.{spot_at, around};

use vg_text::Place;

/// Where an expression stands in the text. The two places differ only where parentheses stand around it.
#[derive(Clone, Copy)]
pub struct Spot {
    /// Of its first token, the parentheses around it counted.
    pub outer: Place,
    /// Of its first token inside of them.
    pub inner: Place,
}

impl Spot {
    /// Without parentheses.
    pub(crate) fn at(place: Place) -> Spot
        ensures { result ≡ spot_at place }
    {
        Spot {
            outer: place,
            inner: place,
        }
    }

    /// The same in parentheses that begin at a place.
    pub(crate) fn around(self, place: Place) -> Spot
        ensures { result ≡ around place self }
    {
        Spot {
            outer: place,
            inner: self.inner,
        }
    }
}
