//! Why there is no sum.

ghost use Rattle.std.specs.Prelude.{◌≡◌, alloc_error};
ghost use Rattle.vg_sums.specs.declared.lost.Lost.TheVariants.{Memory};

use std::alloc::{AllocError, AllocFailed};

/// Why a sum was not made.
#[derive(Debug, Drop)]
pub(crate) enum Lost {
    /// A bound is passed.
    Past,
    /// No memory is left.
    Memory(AllocError),
}

impl From<AllocError> for Lost {
    ghost from_gives = { λ x e. e ≡ Memory x };

    fn from(error: AllocError) -> Lost {
        Lost::Memory(error)
    }
}

impl<T: Drop> From<AllocFailed<T>> for Lost {
    ghost from_gives = { λ _ e. e ≡ Memory alloc_error };

    fn from(_failed: AllocFailed<T>) -> Lost {
        Lost::Memory(AllocError)
    }
}
