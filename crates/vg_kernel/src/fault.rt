//! Why a text is no kernel.

ghost use Rattle.std.specs.Prelude.{◌≡◌};
ghost use Rattle.vg_kernel.specs.declared.fault.KernelFault.TheVariants.{Memory};
ghost use Rattle.std.specs.Prelude.{alloc_error};

use std::alloc::{AllocError, AllocFailed};
use thiserror::Error;
use vg_text::Place;

/// Why a text is no kernel: the first fault that is met as it is read from left to right. Where one
/// token has two, the one of the greater number is named.
#[derive(Debug, Drop, Error)]
pub enum KernelFault {
    /// A byte that may stand nowhere, a name of more than 64 bytes, or a number of 2^127 or more.
    #[error("{} at {}:{}", self.name(), .place.line, .place.column)]
    Token { place: Place },
    /// A token that does not fit what stands before it.
    #[error("{} at {}:{}", self.name(), .place.line, .place.column)]
    Shape { place: Place },
    /// A name that was not given before.
    #[error("{} at {}:{}", self.name(), .place.line, .place.column)]
    UnknownName { place: Place },
    /// A name of a parameter or of a statement that is given a second time.
    #[error("{} at {}:{}", self.name(), .place.line, .place.column)]
    DuplicateName { place: Place },
    /// Widths that do not fit an operator or a function; a pointer as a value, or an integer as a
    /// place.
    #[error("{} at {}:{}", self.name(), .place.line, .place.column)]
    WidthMismatch { place: Place },
    /// A literal outside -2^(W-1)..2^W-1, or an offset outside -2^31..2^31-1.
    #[error("{} at {}:{}", self.name(), .place.line, .place.column)]
    LiteralRange { place: Place },
    /// A shift by as many places as there are bits, or more.
    #[error("{} at {}:{}", self.name(), .place.line, .place.column)]
    ShiftRange { place: Place },
    /// The 4,097th statement, the 8,193rd load or operation, or the 17th parameter.
    #[error("{} at {}:{}", self.name(), .place.line, .place.column)]
    TooMany { place: Place },
    /// A text of more than 262,144 bytes, at 1:1, before anything else.
    #[error("{} at {}:{}", self.name(), .place.line, .place.column)]
    TooLarge { place: Place },
    /// An expression of more than 256 nodes one below the other, parentheses counted, at the token
    /// that makes it so deep.
    #[error("{} at {}:{}", self.name(), .place.line, .place.column)]
    NestingTooDeep { place: Place },
    /// A loop in which no store goes through a pointer that has a step, at the brace that closes it.
    /// No kernel has this fault.
    #[error("{} at {}:{}", self.name(), .place.line, .place.column)]
    NoMovingStore { place: Place },
    /// A loop where a kernel alone may stand, at its first word. No kernel has this fault.
    #[error("{} at {}:{}", self.name(), .place.line, .place.column)]
    LoopHere { place: Place },
    /// There was no memory, which says nothing of the text.
    #[error("{}", self.name())]
    Memory(AllocError),
}

impl KernelFault {
    ghost use Rattle.vg_kernel.specs.FaultName.{name_of_fault};
    ghost use Rattle.vg_kernel.specs.Faults.{number_of_fault, place_of_fault};

    /// The number of the refusal, from 1 to 12. Want of memory has none.
    pub fn number(&self) -> Option<u32>
        ensures { result ≡ number_of_fault self.now }
    {
        match self {
            KernelFault::Token { .. } => Some(1),
            KernelFault::Shape { .. } => Some(2),
            KernelFault::UnknownName { .. } => Some(3),
            KernelFault::DuplicateName { .. } => Some(4),
            KernelFault::WidthMismatch { .. } => Some(5),
            KernelFault::LiteralRange { .. } => Some(6),
            KernelFault::ShiftRange { .. } => Some(7),
            KernelFault::TooMany { .. } => Some(8),
            KernelFault::TooLarge { .. } => Some(9),
            KernelFault::NestingTooDeep { .. } => Some(10),
            KernelFault::NoMovingStore { .. } => Some(11),
            KernelFault::LoopHere { .. } => Some(12),
            KernelFault::Memory(_) => None,
        }
    }

    /// The number and the name of the refusal, as `2 Shape`. Want of memory is `memory`.
    pub fn name(&self) -> &'static str
        ensures { result.now ≡ name_of_fault self.now }
    {
        match self {
            KernelFault::Token { .. } => "1 Token",
            KernelFault::Shape { .. } => "2 Shape",
            KernelFault::UnknownName { .. } => "3 UnknownName",
            KernelFault::DuplicateName { .. } => "4 DuplicateName",
            KernelFault::WidthMismatch { .. } => "5 WidthMismatch",
            KernelFault::LiteralRange { .. } => "6 LiteralRange",
            KernelFault::ShiftRange { .. } => "7 ShiftRange",
            KernelFault::TooMany { .. } => "8 TooMany",
            KernelFault::TooLarge { .. } => "9 TooLarge",
            KernelFault::NestingTooDeep { .. } => "10 NestingTooDeep",
            KernelFault::NoMovingStore { .. } => "11 NoMovingStore",
            KernelFault::LoopHere { .. } => "12 LoopHere",
            KernelFault::Memory(_) => "memory",
        }
    }

    /// The place of the refusal. Want of memory has none.
    pub fn place(&self) -> Option<Place>
        ensures { result ≡ place_of_fault self.now }
    {
        match *self {
            KernelFault::Token { place } => Some(place),
            KernelFault::Shape { place } => Some(place),
            KernelFault::UnknownName { place } => Some(place),
            KernelFault::DuplicateName { place } => Some(place),
            KernelFault::WidthMismatch { place } => Some(place),
            KernelFault::LiteralRange { place } => Some(place),
            KernelFault::ShiftRange { place } => Some(place),
            KernelFault::TooMany { place } => Some(place),
            KernelFault::TooLarge { place } => Some(place),
            KernelFault::NestingTooDeep { place } => Some(place),
            KernelFault::NoMovingStore { place } => Some(place),
            KernelFault::LoopHere { place } => Some(place),
            KernelFault::Memory(_) => None,
        }
    }
}

impl From<AllocError> for KernelFault {
    ghost from_gives = { λ x e. e ≡ Memory x };

    fn from(error: AllocError) -> KernelFault {
        KernelFault::Memory(error)
    }
}

impl<T: Drop> From<AllocFailed<T>> for KernelFault {
    ghost from_gives = { λ _ e. e ≡ Memory alloc_error };

    fn from(_failed: AllocFailed<T>) -> KernelFault {
        KernelFault::Memory(AllocError)
    }
}
