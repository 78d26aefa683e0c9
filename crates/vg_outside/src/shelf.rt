//! Shelves: where files are read from, by their names.

ghost use Rattle.std.specs.Prelude.{◌≡◌, ◌≤◌, List, ℕ, IfOk, IsErrOf, Option};
ghost use Rattle.vg_outside.specs.declared.shelf.ShelfFault.TheVariants.{Memory};
ghost use Rattle.vg_outside.specs.Shelf.{Held, IsFrontOf, IsNotHeld, CountsRead, CountsAbsence, CountsFault};

use std::alloc::{AllocError, Global};
use thiserror::Error;

/// Why a read gave no bytes.
#[derive(Debug, Drop, Error)]
pub enum ShelfFault {
    /// The shelf has no file of that name.
    #[error("no such file")]
    Absent,
    /// The shelf failed.
    #[error("the file cannot be read")]
    Failed,
    /// There was no memory for the bytes.
    #[error("out of memory")]
    Memory(AllocError),
}

impl From<AllocError> for ShelfFault {
    ghost from_gives = { λ error fault. fault ≡ Memory error };

    fn from(error: AllocError) -> Self {
        ShelfFault::Memory(error)
    }
}

/// Files by their names. What a shelf holds, and how often it was read, is told or not; the counts
/// of absences and of faults are always there, and never fall. A count that stands at 2^64 - 1, its
/// last value, is taken as risen.
pub trait Shelf {
    /// The bytes of each name that it has, where it tells.
    ghost holds: { Self → Option Held };

    /// How often it was read, where it tells.
    ghost reads: { Self → Option ℕ };

    /// How often it had no file of the name.
    ghost absents: { Self → ℕ };

    /// How often it failed.
    ghost faults: { Self → ℕ };

    /// Reads the file of this name: the whole of it, or its first `limit + 1` bytes where it has
    /// more. `Absent` where the shelf has no such name, `Failed` where the shelf failed.
    fn read(&mut self, alloc: Global, name: &str, limit: u64) -> Result<Vec<u8>, ShelfFault>
        ensures keeps { holds self.new ≡ holds self.old }
        ensures front { IfOk result (λ bytes.
            IsFrontOf (holds self.old) name.now limit bytes.items) }
        ensures absent { IsErrOf result ShelfFault.Absent → IsNotHeld (holds self.old) name.now }
        ensures counted { CountsRead (reads self.old) (reads self.new) }
        ensures absence { CountsAbsence (absents self.old) (absents self.new) result }
        ensures fault { CountsFault (faults self.old) (faults self.new) result }
        ensures absents_never_fall { absents self.old ≤ absents self.new }
        ensures faults_never_fall { faults self.old ≤ faults self.new };
}
