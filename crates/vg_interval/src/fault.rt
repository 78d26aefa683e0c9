//! Why an operation is refused.

ghost use Rattle.std.specs.Prelude.{◌≡◌};
ghost use Rattle.vg_interval.specs.declared.fault.RangeFault.TheVariants.{Memory};
ghost use Rattle.std.specs.Prelude.{alloc_error};

use std::alloc::{AllocError, AllocFailed};
use thiserror::Error;
use vg_text::Place;

/// Why an operation is refused: the first fault that is met, names being judged before all else and then the instances by
/// rising immediate.
#[derive(Debug, Drop, Error)]
pub enum RangeFault {
    /// A name that is read or called and is not known there, or is assigned and may not be.
    #[error("4 UnknownName at {}:{}", .place.line, .place.column)]
    UnknownName { place: Place },
    /// A slice whose bits do not all lie in its register.
    #[error("5 IndexOutside at {}:{}", .place.line, .place.column)]
    IndexOutside { place: Place },
    /// An index or a bound of a FOR that is not constant where it has to be.
    #[error("6 DynamicIndex at {}:{}", .place.line, .place.column)]
    DynamicIndex { place: Place },
    /// A number that may lie outside of -2^127..2^127-1, or more than 128 bits that are no move.
    #[error("8 TooWide at {}:{}", .place.line, .place.column)]
    TooWide { place: Place },
    /// More than 4,096 assignments, turns of FORs and calls in one instance.
    #[error("9 TooLong at {}:{}", .place.line, .place.column)]
    TooLong { place: Place },
    /// An extension of a slice that is wider than its result.
    #[error("10 BadExtend at {}:{}", .place.line, .place.column)]
    BadExtend { place: Place },
    /// A bare name of a register that means no bits.
    #[error("11 BareRegister at {}:{}", .place.line, .place.column)]
    BareRegister { place: Place },
    /// There was no memory, which says nothing of the operation.
    #[error("no memory")]
    Memory(AllocError),
}

impl From<AllocError> for RangeFault {
    ghost from_gives = { λ x e. e ≡ Memory x };

    fn from(error: AllocError) -> RangeFault {
        RangeFault::Memory(error)
    }
}

impl<T: Drop> From<AllocFailed<T>> for RangeFault {
    ghost from_gives = { λ _ e. e ≡ Memory alloc_error };

    fn from(_failed: AllocFailed<T>) -> RangeFault {
        RangeFault::Memory(AllocError)
    }
}
