//! Sums with each coefficient changed.

ghost use Rattle.std.specs.Prelude.{◌≡◌, ◌≤◌, ◌<◌, ◌^◌, Some};
ghost use Rattle.vg_base.specs.Number.{residue};
ghost use Rattle.vg_sums.specs.Arithmetic.{changed};
ghost use Rattle.vg_sums.specs.Changes.{coefficient, places_of};
ghost use Rattle.vg_sums.specs.Gives.{Gives};
ghost use Rattle.vg_sums.specs.Sums.{polynomial};

use crate::lost::Lost;
use crate::sum::{Sum, make_joined, make_number};
use std::alloc::Global;
use vg_base::number::{signed, unsigned};

/// What becomes of each coefficient.
#[derive(Clone, Copy)]
pub enum Change {
    /// It is divided by a power of two and rounded down.
    Quotient { places: u32 },
    /// What is left of it then.
    Remainder { places: u32 },
    /// The number of so many bits in two's complement that it is modulo a power of two.
    Balanced { width: u32 },
}

fn residue_of(z: i128, width: u32) -> u128
    requires least { 1 ≤ width }
    requires most { width ≤ 126 }
    ensures is { result ≡ residue width z }
    ensures below { result < 2 ^ 127 }
{
    unsigned(z, width)
}

impl Change {
    /// What becomes of a number.
    fn apply(self, z: i128) -> i128
        requires least { 1 ≤ places_of self }
        requires most { places_of self ≤ 126 }
        ensures { result ≡ coefficient self z }
    {
        match self {
            Change::Quotient { places } => z >> places,
            Change::Remainder { places } => residue_of(z, places) as i128,
            Change::Balanced { width } => signed(unsigned(z, width), width),
        }
    }
}

/// A sum with each coefficient changed. Fails for want of memory alone.
pub(crate) fn changed(alloc: Global, change: Change, p: &Sum) -> Result<Sum, Lost>
    requires least { 1 ≤ places_of change }
    requires most { places_of change ≤ 126 }
    ensures { Gives result (Some (changed (coefficient change) (polynomial p.now))) }
{
    match p {
        Sum::Number(z) => Ok(make_number(change.apply(*z))),
        Sum::Plus {
            kind,
            of,
            factor,
            rest,
        } => {
            let factor = changed(alloc, change, factor)?;
            let rest = changed(alloc, change, rest)?;
            let of = of.copy(alloc)?;
            make_joined(alloc, *kind, of, factor, rest)
        }
    }
}
