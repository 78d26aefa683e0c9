//! Reads the files of a request.

ghost use Rattle.std.specs.Prelude.{◌≤◌, IfSome, IfOk, vec_len};
ghost use Rattle.vg_top.specs.Files.{file_of, Tells, AreBytes};
ghost use Rattle.vg_top.specs.Works.{ReadsFile, ending_of};

use crate::ending::{Ending, FileNumber};
use std::alloc::Global;
use vg_outside::{Shelf, ShelfFault};

/// The most bytes of an instruction file.
pub const INSTRUCTIONS_LIMIT: u64 = 1_048_576;

/// The most bytes of a kernel file.
pub const KERNEL_LIMIT: u64 = 262_144;

/// The most bytes of a program file.
pub const PROGRAM_LIMIT: u64 = 4_194_304;

/// The most bytes of a memory file.
pub const MEMORY_LIMIT: u64 = 16_777_216;

/// The whole of the file of this name, which is the request's file of this number and has at most
/// `limit` bytes. `TooLarge` (status 11) where it has more, `Absent` (6) where the shelf has no such
/// name, `ReadFault` (7) where the shelf failed, `Memory` (12) where there was none for it.
pub fn fetch<S: Shelf>(
    alloc: Global,
    shelf: &mut S,
    number: FileNumber,
    name: &str,
    limit: u64,
) -> Result<Vec<u8>, Ending>
    ensures told { IfSome (S.holds shelf.old) (λ held.
        Tells AreBytes result (file_of held number name.now limit)) }
    ensures small { IfOk result (λ bytes. vec_len bytes ≤ limit) }
    ensures shelf { ReadsFile S.Shelf number shelf.old shelf.new (ending_of result) }
{
    match shelf.read(alloc, name, limit) {
        Ok(bytes) => {
            if bytes.len() as u64 <= limit {
                Ok(bytes)
            } else {
                Err(Ending::TooLarge(number))
            }
        }
        Err(ShelfFault::Absent) => Err(Ending::Absent(number)),
        Err(ShelfFault::Failed) => Err(Ending::ReadFault(number)),
        Err(ShelfFault::Memory(_)) => Err(Ending::Memory),
    }
}
