//! Files by their paths. What a real file holds is trusted, and not told.

ghost use Rattle.std.specs.Prelude.{◌≡◌, ◌≤◌, ◌+◌, take, IfOk, IfSome, None};

use std::alloc::{AllocError, Global};
use std::fs;
use std::io::{ErrorKind, Read};
use std::rt::Files;
use vg_outside::{Shelf, ShelfFault};

/// The files of the system.
pub struct FileShelf<'a, R> {
    rt: &'a R,
    absents: u64,
    faults: u64,
}

impl<R> Drop for FileShelf<'_, R> {
    fn drop(self) {
        let FileShelf {
            rt: _,
            absents: _,
            faults: _,
        } = self;
    }
}

impl<'a, R: Files> FileShelf<'a, R> {
    /// The files that this runtime opens, with no absence and no fault counted.
    pub fn new(rt: &'a R) -> FileShelf<'a, R>
        ensures absents { result.absents ≡ 0 }
        ensures faults { result.faults ≡ 0 }
    {
        FileShelf {
            rt,
            absents: 0,
            faults: 0,
        }
    }
}

/// Why a file was not read to its end.
enum Stop {
    Failed,
    Memory(AllocError),
}

/// The first `limit + 1` bytes, or all where there are fewer.
fn read_front<F: Read>(alloc: Global, file: &mut F, limit: u64) -> Result<Vec<u8>, Stop>
    ensures { IfOk result (λ bytes. IfSome (F.remaining file.old) (λ all.
        bytes.items ≡ take (limit + 1) all)) }
{
    let mut bytes = Vec::new(alloc);
    let mut buffer = [0u8; 4096];
    'pieces: for _ in 0..u64::MAX {
        let left = limit.saturating_sub(bytes.len() as u64);
        let most = left.min(4095) as usize + 1;
        match file.read(&mut buffer[..most]) {
            Ok(0) => return Ok(bytes),
            Ok(count) => {
                if bytes.extend_from_slice(&buffer[..count]).is_err() {
                    return Err(Stop::Memory(AllocError));
                }
                if bytes.len() as u64 > limit {
                    return Ok(bytes);
                }
            }
            Err(error) => {
                if error.kind() != ErrorKind::Interrupted {
                    return Err(Stop::Failed);
                }
            }
        }
    }
    Err(Stop::Failed)
}

impl<R: Files> Shelf for FileShelf<'_, R> {
    ghost holds = { λ _. None };

    ghost reads = { λ _. None };

    ghost absents = { λ s. s.absents };

    ghost faults = { λ s. s.faults };

    fn read(&mut self, alloc: Global, name: &str, limit: u64) -> Result<Vec<u8>, ShelfFault> {
        let mut file = match fs::open(self.rt, name) {
            Ok(file) => file,
            Err(error) => {
                if error.kind() == ErrorKind::NotFound {
                    self.absents = self.absents.saturating_add(1);
                    return Err(ShelfFault::Absent);
                }
                self.faults = self.faults.saturating_add(1);
                return Err(ShelfFault::Failed);
            }
        };
        match read_front(alloc, &mut file, limit) {
            Ok(bytes) => Ok(bytes),
            Err(Stop::Memory(error)) => Err(ShelfFault::Memory(error)),
            Err(Stop::Failed) => {
                self.faults = self.faults.saturating_add(1);
                Err(ShelfFault::Failed)
            }
        }
    }
}

#[cfg(test)]
mod tests {
    use super::*;
    use std::io;
    use std::test::Fail;

    /// Gives one byte a call, and is interrupted before each call that gives something.
    #[derive(Drop)]
    struct Halting {
        bytes: Vec<u8>,
        given: usize,
        halted: bool,
    }

    impl Read for Halting {
        fn read(&mut self, buf: &mut [u8]) -> io::Result<usize> {
            self.halted = !self.halted;
            if self.halted {
                return Err(io::Error::from(ErrorKind::Interrupted));
            }
            if self.given < self.bytes.len() && !buf.is_empty() {
                buf[0] = self.bytes[self.given];
                self.given += 1;
                return Ok(1);
            }
            Ok(0)
        }
    }

    /// What is read up to a limit of nine bytes that come one by one.
    fn read_one_by_one(alloc: Global, limit: u64) -> Result<Vec<u8>, Fail> {
        let mut bytes = Vec::new(alloc);
        bytes.extend_from_slice(b"123456789")?;
        let mut slow = Halting {
            bytes,
            given: 0,
            halted: false,
        };
        match read_front(alloc, &mut slow, limit) {
            Ok(front) => Ok(front),
            Err(Stop::Memory(error)) => Err(Fail::from(error)),
            Err(Stop::Failed) => Err(Fail::from(AllocError)),
        }
    }

    /// So many bytes, each unlike the 250 before it.
    fn many_bytes(alloc: Global, count: usize) -> Result<Vec<u8>, AllocError> {
        let mut bytes = Vec::with_capacity(alloc, count)?;
        for i in 0..count {
            bytes.push((i % 251) as u8)?;
        }
        Ok(bytes)
    }

    #[test]
    fn a_large_file_is_read_piece_by_piece(rt: HostRuntime) -> Result<(), Fail> {
        let bytes = many_bytes(rt.alloc(), 5_000_001)?;
        fs::write(&rt, "large", bytes.as_slice())?;
        let mut shelf = FileShelf::new(&rt);
        assert!(rt; shelf.read(rt.alloc(), "large", 16_777_216)? == bytes);
        assert!(rt; shelf.read(rt.alloc(), "large", 5_000_001)? == bytes);
        let front = many_bytes(rt.alloc(), 5_000_000)?;
        assert!(rt; shelf.read(rt.alloc(), "large", 4_999_999)? == front);
        assert_eq!(rt; shelf.faults, 0);
        Ok(())
    }

    #[test]
    fn bytes_that_come_one_by_one_are_all_read(rt: HostRuntime) -> Result<(), Fail> {
        let all = read_one_by_one(rt.alloc(), 9)?;
        assert_eq!(rt; all.as_slice(), b"123456789".as_slice());
        let front = read_one_by_one(rt.alloc(), 4)?;
        assert_eq!(rt; front.as_slice(), b"12345".as_slice());
        Ok(())
    }

    #[test]
    fn files_are_read_up_to_the_limit_and_absences_counted(rt: HostRuntime) -> Result<(), Fail> {
        fs::write(&rt, "five", b"12345")?;
        let mut shelf = FileShelf::new(&rt);
        assert_eq!(rt;
            shelf.read(rt.alloc(), "five", 9)?.as_slice(),
            b"12345".as_slice()
        );
        assert_eq!(rt;
            shelf.read(rt.alloc(), "five", 2)?.as_slice(),
            b"123".as_slice()
        );
        let absent = shelf.read(rt.alloc(), "six", 2);
        assert!(rt; matches!(&absent, Err(ShelfFault::Absent)));
        let folder = shelf.read(rt.alloc(), ".", 2);
        assert!(rt; matches!(&folder, Err(ShelfFault::Failed)));
        assert_eq!(rt; shelf.absents, 1);
        assert_eq!(rt; shelf.faults, 1);
        Ok(())
    }
}
