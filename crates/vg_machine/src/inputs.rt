//! What a run is given beside the memory, and what operands and addresses stand for.

ghost use Rattle.std.specs.Prelude.{◌≡◌};
ghost use Rattle.vg_base.specs.Address.{place_of};
ghost use Rattle.vg_program.specs.Meaning.{operand_number};

use std::marker::Model;
use vg_base::Address;
use vg_memory::{number_at, place_of};
use vg_program::operand::Operand;

/// The places of the pointers and the numbers of the integers, each kind in its order.
#[derive(Drop)]
pub(crate) struct Inputs<'a> {
    pub(crate) places: &'a [u64],
    pub(crate) args: &'a [u64],
}

impl<'a> Model for Inputs<'a> {
    ghost use Rattle.vg_program.specs.Meaning.{Inputs};

    ghost Value = { Inputs };

    ghost view = { λ i. record { places = i.places.now; args = i.args.now } };
}

impl Inputs<'_> {
    /// Where an access begins, exactly.
    pub(crate) fn address(&self, address: Address) -> i128
        ensures { result ≡ place_of self.now.places address }
    {
        place_of(self.places, address)
    }

    /// The number that an operand stands for among the scalars defined so far.
    pub(crate) fn number(&self, scalars: &[u64], operand: Operand) -> u64
        ensures { result ≡ operand_number self.now scalars.now operand }
    {
        match operand {
            Operand::Register(register) => number_at(scalars, register),
            Operand::Argument(argument) => number_at(self.args, argument),
            Operand::Literal { number, .. } => number,
        }
    }
}
