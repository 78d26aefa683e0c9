//! Units that are numbered one after the other.

ghost use Rattle.std.specs.Prelude.{◌≡◌, [], ◌∷◌, IfOk};
ghost use Rattle.vg_ssa.specs.Built.{CanTake, built, next, with_units};

use std::alloc::{AllocError, Global};
use vg_shapes::{SsaUnit, Wanted};

/// The units so far, and what stands for the names that statements gave.
#[derive(Drop)]
pub(crate) struct Values {
    /// The number of the first unit.
    pub(crate) first: usize,
    pub(crate) units: Vec<SsaUnit>,
    pub(crate) names: Vec<Wanted>,
}

impl Values {
    /// Before the first unit, which has this number.
    pub(crate) fn new(alloc: Global, first: usize) -> Values
        ensures { built result ≡ record { first = first; units = []; names = [] } }
    {
        Values {
            first,
            units: Vec::new(alloc),
            names: Vec::new(alloc),
        }
    }

    /// One unit more. Gives its value.
    pub(crate) fn push(&mut self, unit: SsaUnit) -> Result<Wanted, AllocError>
        requires { CanTake (built self.old) (unit ∷ []) }
        ensures built { IfOk result
            (λ x. built self.new ≡ with_units (built self.old) (unit ∷ [])) }
        ensures value { IfOk result (λ x. x ≡ Wanted.Value (next (built self.old))) }
    {
        let number = (self.first + self.units.len()) as u32;
        self.units.push(unit)?;
        Ok(Wanted::Value(number))
    }
}
