//! Why a text is no operation.

ghost use Rattle.std.specs.Prelude.{◌≡◌};
ghost use Rattle.vg_pseudo.specs.declared.fault.PseudoFault.TheVariants.{Memory};
ghost use Rattle.std.specs.Prelude.{alloc_error};

use std::alloc::{AllocError, AllocFailed};
use thiserror::Error;
use vg_text::Place;

/// Why a text is no operation: the first fault that is met as it is read from left to right.
#[derive(Debug, Drop, Error)]
pub enum PseudoFault {
    /// A byte that may stand nowhere, a name of more than 64 bytes, or a number of 2^127 or more.
    #[error("{} at {}:{}", self.name(), .place.line, .place.column)]
    Token { place: Place },
    /// A token that does not fit what stands before it. A function or a DEFINE that is given another number of arguments
    /// than it takes is refused at its name, when the parenthesis after them has been read.
    #[error("{} at {}:{}", self.name(), .place.line, .place.column)]
    Shape { place: Place },
    /// An expression of more than 64 nodes one below the other, parentheses counted, at its first token; a statement
    /// inside 64 others, at its first token; or in a DEFINE a call of a DEFINE of depth 64, at its name.
    #[error("{} at {}:{}", self.name(), .place.line, .place.column)]
    NestingTooDeep { place: Place },
    /// There was no memory, which says nothing of the text.
    #[error("{}", self.name())]
    Memory(AllocError),
}

impl PseudoFault {
    ghost use Rattle.vg_pseudo.specs.Faults.{number_of_fault, name_of_fault, place_of_fault};

    /// The number of the refusal, from 1 to 3. Want of memory has none.
    pub fn number(&self) -> Option<u32>
        ensures { result ≡ number_of_fault self.now }
    {
        match self {
            PseudoFault::Token { .. } => Some(1),
            PseudoFault::Shape { .. } => Some(2),
            PseudoFault::NestingTooDeep { .. } => Some(3),
            PseudoFault::Memory(_) => None,
        }
    }

    /// The number and the name of the refusal, as `2 Shape`. Want of memory is `memory`.
    pub fn name(&self) -> &'static str
        ensures { result.now ≡ name_of_fault self.now }
    {
        match self {
            PseudoFault::Token { .. } => "1 Token",
            PseudoFault::Shape { .. } => "2 Shape",
            PseudoFault::NestingTooDeep { .. } => "3 NestingTooDeep",
            PseudoFault::Memory(_) => "memory",
        }
    }

    /// The place of the refusal. Want of memory has none.
    pub fn place(&self) -> Option<Place>
        ensures { result ≡ place_of_fault self.now }
    {
        match *self {
            PseudoFault::Token { place } => Some(place),
            PseudoFault::Shape { place } => Some(place),
            PseudoFault::NestingTooDeep { place } => Some(place),
            PseudoFault::Memory(_) => None,
        }
    }
}

impl From<AllocError> for PseudoFault {
    ghost from_gives = { λ x e. e ≡ Memory x };

    fn from(error: AllocError) -> PseudoFault {
        PseudoFault::Memory(error)
    }
}

impl<T: Drop> From<AllocFailed<T>> for PseudoFault {
    ghost from_gives = { λ _ e. e ≡ Memory alloc_error };

    fn from(_failed: AllocFailed<T>) -> PseudoFault {
        PseudoFault::Memory(AllocError)
    }
}
