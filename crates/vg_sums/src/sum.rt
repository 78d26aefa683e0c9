//! Sums, and how they are built.

ghost use Rattle.std.specs.Prelude.{◌≡◌, ◌^◌, ◌-◌, min, pos, Some, None};
ghost use Rattle.vg_sums.specs.Arithmetic.{bounded, is_nothing, joined};
ghost use Rattle.vg_sums.specs.Choices.{atom};
ghost use Rattle.vg_sums.specs.Gives.{Gives};
ghost use Rattle.vg_sums.specs.Sums.{number, plus, polynomial, size};

use crate::kind::Kind;
use crate::lost::Lost;
use std::alloc::Global;

/// The most numbers and atoms of the sum of a term.
const MOST_NODES: u64 = 512;

/// A whole number; or an atom times a sum, with another sum added. Contracts see it as its polynomial.
#[derive(Drop)]
pub(crate) enum Sum {
    Number(i128),
    Plus {
        kind: Kind,
        of: Box<Sum>,
        factor: Box<Sum>,
        rest: Box<Sum>,
    },
}

impl Sum {
    /// The same sum a second time. Fails for want of memory alone.
    pub(crate) fn copy(&self, alloc: Global) -> Result<Sum, Lost>
        ensures { Gives result (Some (polynomial self.now)) }
    {
        match self {
            Sum::Number(z) => Ok(make_number(*z)),
            Sum::Plus {
                kind,
                of,
                factor,
                rest,
            } => {
                let of = of.copy(alloc)?;
                let factor = factor.copy(alloc)?;
                let rest = rest.copy(alloc)?;
                make_plus(alloc, *kind, of, factor, rest)
            }
        }
    }

    /// The numbers and atoms, those in atoms among them, or the greatest `u64` where there are more.
    pub(crate) fn size(&self) -> u64
        ensures { result ≡ min (size (polynomial self.now)) (2 ^ 64 - 1) }
    {
        match self {
            Sum::Number(_) => 1,
            Sum::Plus {
                of,
                factor,
                rest,
                ..
            } => {
                let below = of.size().saturating_add(factor.size());
                below.saturating_add(rest.size()).saturating_add(1)
            }
        }
    }

    /// Whether it is the number 0.
    pub(crate) fn is_nothing(&self) -> bool
        ensures { result ≡ is_nothing (polynomial self.now) }
    {
        match self {
            Sum::Number(z) => *z == 0,
            Sum::Plus { .. } => false,
        }
    }
}

/// A whole number as a sum.
pub(crate) fn make_number(z: i128) -> Sum
    ensures { polynomial result ≡ number z }
{
    Sum::Number(z)
}

/// An atom times a sum, with another added. Fails for want of memory alone.
pub(crate) fn make_plus(
    alloc: Global,
    kind: Kind,
    of: Sum,
    factor: Sum,
    rest: Sum,
) -> Result<Sum, Lost>
    ensures { Gives result (Some (plus kind (polynomial of) (polynomial factor) (polynomial rest))) }
{
    let of = Box::new(alloc, of)?;
    let factor = Box::new(alloc, factor)?;
    let rest = Box::new(alloc, rest)?;
    Ok(Sum::Plus {
        kind,
        of,
        factor,
        rest,
    })
}

/// The same, without the atom where the factor is 0.
pub(crate) fn make_joined(
    alloc: Global,
    kind: Kind,
    of: Sum,
    factor: Sum,
    rest: Sum,
) -> Result<Sum, Lost>
    ensures { Gives result (Some (joined kind (polynomial of) (polynomial factor) (polynomial rest))) }
{
    if factor.is_nothing() {
        Ok(rest)
    } else {
        make_plus(alloc, kind, of, factor, rest)
    }
}

/// An atom as a sum. Fails for want of memory alone.
pub(crate) fn make_atom(alloc: Global, kind: Kind, of: Sum) -> Result<Sum, Lost>
    ensures { Gives result (Some (atom kind (polynomial of))) }
{
    make_plus(alloc, kind, of, make_number(1), make_number(0))
}

/// The sum, unless it is too large.
pub(crate) fn bounded(sum: Sum) -> Result<Sum, Lost>
    ensures { Gives result (bounded (polynomial sum)) }
{
    if sum.size() <= MOST_NODES {
        Ok(sum)
    } else {
        Err(Lost::Past)
    }
}
