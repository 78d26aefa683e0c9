//! The first name that cannot be resolved.

ghost use Rattle.std.specs.Prelude.{◌≡◌, alloc_error};
ghost use Rattle.vg_names.specs.declared.name_fault.NameFault.TheVariants.{Memory};

use std::alloc::{AllocError, AllocFailed};
use vg_text::Place;

/// The first name that cannot be resolved, and why.
#[derive(Drop)]
pub enum NameFault {
    /// A name that is read or called and is not known there, or is assigned and may not be.
    UnknownName { place: Place },
    /// A bare name of a register that means no bits.
    BareRegister { place: Place },
    /// There was no memory, which says nothing of the operation.
    Memory(AllocError),
}

impl From<AllocError> for NameFault {
    ghost from_gives = { λ x e. e ≡ Memory x };

    fn from(error: AllocError) -> NameFault {
        NameFault::Memory(error)
    }
}

impl<T: Drop> From<AllocFailed<T>> for NameFault {
    ghost from_gives = { λ _ e. e ≡ Memory alloc_error };

    fn from(_failed: AllocFailed<T>) -> NameFault {
        NameFault::Memory(AllocError)
    }
}
