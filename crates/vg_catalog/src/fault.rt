//! Why a file is refused.

ghost use Rattle.std.specs.Prelude.{◌≡◌, alloc_error};
ghost use Rattle.vg_catalog.specs.Faults.{text_fault, range_fault};
ghost use Rattle.vg_catalog.specs.declared.fault.CatalogFault.TheVariants.{Memory};

use std::alloc::{AllocError, AllocFailed};
use thiserror::Error;
use vg_pseudo::PseudoFault;
use vg_range::RangeFault;
use vg_text::Place;

/// Why a file is refused: the first fault that is met. Entries are judged one after the other: the
/// header, the number of instances, the text of the operation, its names, and its instances.
#[derive(Debug, Drop, Error)]
pub enum CatalogFault {
    /// A byte that may stand nowhere, a name of more than 64 bytes, or a number of 2^127 or more.
    #[error("{} at {}:{}", self.name(), .place.line, .place.column)]
    Token { place: Place },
    /// A token of an operation that does not fit what stands before it, or a call with a wrong
    /// number of arguments.
    #[error("{} at {}:{}", self.name(), .place.line, .place.column)]
    Shape { place: Place },
    /// Expressions, statements or calls of DEFINEs that are nested more than 64 deep.
    #[error("{} at {}:{}", self.name(), .place.line, .place.column)]
    NestingTooDeep { place: Place },
    /// A name that is read or called and is not known there, or is assigned and may not be.
    #[error("{} at {}:{}", self.name(), .place.line, .place.column)]
    UnknownName { place: Place },
    /// A slice whose bits do not all lie in its register.
    #[error("{} at {}:{}", self.name(), .place.line, .place.column)]
    IndexOutside { place: Place },
    /// An index or a bound of a FOR that is not constant where it has to be.
    #[error("{} at {}:{}", self.name(), .place.line, .place.column)]
    DynamicIndex { place: Place },
    /// A number that may lie outside of -2^127..2^127-1, or more than 128 bits that are no move.
    #[error("{} at {}:{}", self.name(), .place.line, .place.column)]
    TooWide { place: Place },
    /// More than 4,096 assignments, turns of FORs and calls in one instance.
    #[error("{} at {}:{}", self.name(), .place.line, .place.column)]
    TooLong { place: Place },
    /// An extension of a slice that is wider than its result.
    #[error("{} at {}:{}", self.name(), .place.line, .place.column)]
    BadExtend { place: Place },
    /// A bare name of a register that means no bits.
    #[error("{} at {}:{}", self.name(), .place.line, .place.column)]
    BareRegister { place: Place },
    /// A word of a header that is not the required one, or is out of its range.
    #[error("{} at {}:{}", self.name(), .place.line, .place.column)]
    Header { place: Place },
    /// The name of an entry that stands before.
    #[error("{} at {}:{}", self.name(), .place.line, .place.column)]
    DuplicateName { place: Place },
    /// The first word of the 1,025th entry, or of the entry that brings the 4,097th instance.
    #[error("{} at {}:{}", self.name(), .place.line, .place.column)]
    TooMany { place: Place },
    /// A word that names no extension.
    #[error("{} at {}:{}", self.name(), .place.line, .place.column)]
    ExtensionUnknown { place: Place },
    /// A file of more than 1,048,576 bytes, at 1:1, before anything else.
    #[error("{} at {}:{}", self.name(), .place.line, .place.column)]
    TooLarge { place: Place },
    /// There was no memory, which says nothing of the file.
    #[error("{}", self.name())]
    Memory(AllocError),
}

impl CatalogFault {
    ghost use Rattle.vg_catalog.specs.Faults.{number_of_fault, name_of_fault, place_of_fault};

    /// The number of the refusal, from 1 to 16 without 7. Want of memory has none.
    pub fn number(&self) -> Option<u32>
        ensures { result ≡ number_of_fault self.now }
    {
        match self {
            CatalogFault::Token { .. } => Some(1),
            CatalogFault::Shape { .. } => Some(2),
            CatalogFault::NestingTooDeep { .. } => Some(3),
            CatalogFault::UnknownName { .. } => Some(4),
            CatalogFault::IndexOutside { .. } => Some(5),
            CatalogFault::DynamicIndex { .. } => Some(6),
            CatalogFault::TooWide { .. } => Some(8),
            CatalogFault::TooLong { .. } => Some(9),
            CatalogFault::BadExtend { .. } => Some(10),
            CatalogFault::BareRegister { .. } => Some(11),
            CatalogFault::Header { .. } => Some(12),
            CatalogFault::DuplicateName { .. } => Some(13),
            CatalogFault::TooMany { .. } => Some(14),
            CatalogFault::ExtensionUnknown { .. } => Some(15),
            CatalogFault::TooLarge { .. } => Some(16),
            CatalogFault::Memory(_) => None,
        }
    }

    /// The number and the name of the refusal, as `12 Header`. Want of memory is `memory`.
    pub fn name(&self) -> &'static str
        ensures { result.now ≡ name_of_fault self.now }
    {
        match self {
            CatalogFault::Token { .. } => "1 Token",
            CatalogFault::Shape { .. } => "2 Shape",
            CatalogFault::NestingTooDeep { .. } => "3 NestingTooDeep",
            CatalogFault::UnknownName { .. } => "4 UnknownName",
            CatalogFault::IndexOutside { .. } => "5 IndexOutside",
            CatalogFault::DynamicIndex { .. } => "6 DynamicIndex",
            CatalogFault::TooWide { .. } => "8 TooWide",
            CatalogFault::TooLong { .. } => "9 TooLong",
            CatalogFault::BadExtend { .. } => "10 BadExtend",
            CatalogFault::BareRegister { .. } => "11 BareRegister",
            CatalogFault::Header { .. } => "12 Header",
            CatalogFault::DuplicateName { .. } => "13 DuplicateName",
            CatalogFault::TooMany { .. } => "14 TooMany",
            CatalogFault::ExtensionUnknown { .. } => "15 ExtensionUnknown",
            CatalogFault::TooLarge { .. } => "16 TooLarge",
            CatalogFault::Memory(_) => "memory",
        }
    }

    /// The place of the refusal. Want of memory has none.
    pub fn place(&self) -> Option<Place>
        ensures { result ≡ place_of_fault self.now }
    {
        match *self {
            CatalogFault::Token { place } => Some(place),
            CatalogFault::Shape { place } => Some(place),
            CatalogFault::NestingTooDeep { place } => Some(place),
            CatalogFault::UnknownName { place } => Some(place),
            CatalogFault::IndexOutside { place } => Some(place),
            CatalogFault::DynamicIndex { place } => Some(place),
            CatalogFault::TooWide { place } => Some(place),
            CatalogFault::TooLong { place } => Some(place),
            CatalogFault::BadExtend { place } => Some(place),
            CatalogFault::BareRegister { place } => Some(place),
            CatalogFault::Header { place } => Some(place),
            CatalogFault::DuplicateName { place } => Some(place),
            CatalogFault::TooMany { place } => Some(place),
            CatalogFault::ExtensionUnknown { place } => Some(place),
            CatalogFault::TooLarge { place } => Some(place),
            CatalogFault::Memory(_) => None,
        }
    }
}

impl From<AllocError> for CatalogFault {
    ghost from_gives = { λ x e. e ≡ Memory x };

    fn from(error: AllocError) -> CatalogFault {
        CatalogFault::Memory(error)
    }
}

impl<T: Drop> From<AllocFailed<T>> for CatalogFault {
    ghost from_gives = { λ _ e. e ≡ Memory alloc_error };

    fn from(_failed: AllocFailed<T>) -> CatalogFault {
        CatalogFault::Memory(AllocError)
    }
}

impl From<PseudoFault> for CatalogFault {
    ghost from_gives = { λ x e. e ≡ text_fault x };

    fn from(fault: PseudoFault) -> CatalogFault {
        match fault {
            PseudoFault::Token { place } => CatalogFault::Token { place },
            PseudoFault::Shape { place } => CatalogFault::Shape { place },
            PseudoFault::NestingTooDeep { place } => CatalogFault::NestingTooDeep { place },
            PseudoFault::Memory(error) => CatalogFault::Memory(error),
        }
    }
}

impl From<RangeFault> for CatalogFault {
    ghost from_gives = { λ x e. e ≡ range_fault x };

    fn from(fault: RangeFault) -> CatalogFault {
        match fault {
            RangeFault::UnknownName { place } => CatalogFault::UnknownName { place },
            RangeFault::IndexOutside { place } => CatalogFault::IndexOutside { place },
            RangeFault::DynamicIndex { place } => CatalogFault::DynamicIndex { place },
            RangeFault::TooWide { place } => CatalogFault::TooWide { place },
            RangeFault::TooLong { place } => CatalogFault::TooLong { place },
            RangeFault::BadExtend { place } => CatalogFault::BadExtend { place },
            RangeFault::BareRegister { place } => CatalogFault::BareRegister { place },
            RangeFault::Memory(error) => CatalogFault::Memory(error),
        }
    }
}
