//! The kinds of atoms.

ghost use Rattle.std.specs.Prelude.{◌≡◌};
ghost use Rattle.vg_sums.specs.Atoms.{amount_of, is_truth, key_of, kind_tag, no_key};

use vg_terms::{LeafKey, TwoOp};

/// What an atom is of its sum. A leaf is of no sum.
#[derive(Clone, Copy)]
pub enum Kind {
    /// The number of a leaf, read unsigned.
    Leaf { width: u32, key: LeafKey },
    /// The sum over a power of two, rounded down.
    Floor { places: u32 },
    /// The greater of the sum and 0.
    Positive,
    /// 1 where the sum is below 0, else 0.
    Negative,
    /// 1 where the sum is 0, else 0.
    Zero,
    /// An operation on the bits of the two halves of the sum, each of this width.
    Bitwise { op: TwoOp, width: u32 },
}

impl Kind {
    /// The place of the kind in the order of atoms.
    pub(crate) fn tag(self) -> u32
        ensures { result ≡ kind_tag self }
    {
        match self {
            Kind::Leaf { .. } => 0,
            Kind::Floor { .. } => 1,
            Kind::Positive => 2,
            Kind::Negative => 3,
            Kind::Zero => 4,
            Kind::Bitwise { op, .. } => op.tag(),
        }
    }

    /// The width or the places, else 0.
    pub(crate) fn amount(self) -> u32
        ensures { result ≡ amount_of self }
    {
        match self {
            Kind::Leaf { width, .. } => width,
            Kind::Floor { places } => places,
            Kind::Positive => 0,
            Kind::Negative => 0,
            Kind::Zero => 0,
            Kind::Bitwise { width, .. } => width,
        }
    }

    /// The key of a leaf, else that of no leaf.
    pub(crate) fn key(self) -> LeafKey
        ensures { result ≡ key_of self }
    {
        match self {
            Kind::Leaf { key, .. } => key,
            _ => no_key(),
        }
    }

    /// Whether the atom is only ever 0 or 1.
    pub(crate) fn is_truth(self) -> bool
        ensures { result ≡ is_truth self }
    {
        match self {
            Kind::Negative => true,
            Kind::Zero => true,
            _ => false,
        }
    }
}

fn no_key() -> LeafKey
    ensures { result ≡ no_key }
{
    LeafKey {
        kind: 0,
        first: 0,
        second: 0,
        third: 0,
    }
}
