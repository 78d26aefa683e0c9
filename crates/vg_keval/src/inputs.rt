//! What a run is given beside the memory.

ghost use Rattle.std.specs.Prelude.{◌≡◌};
ghost use Rattle.vg_base.specs.Address.{place_of};

use std::marker::Model;
use vg_base::Address;
use vg_memory::place_of;

/// The places of the pointers and the numbers of the integer parameters, each kind in its order.
#[derive(Drop)]
pub(crate) struct Inputs<'a> {
    pub(crate) places: &'a [u64],
    pub(crate) args: &'a [u64],
}

impl<'a> Model for Inputs<'a> {
    ghost use Rattle.vg_kernel.specs.Meaning.{Inputs};

    ghost Value = { Inputs };

    ghost view = { λ i. record { places = i.places.now; args = i.args.now } };
}

impl Inputs<'_> {
    /// Where an access begins, exactly.
    pub(crate) fn address(&self, address: Address) -> i128
        ensures { result ≡ place_of self.now.places address }
    {
        place_of(self.places, address)
    }
}
