//! A shelf, two sinks and words in memory.

use std::alloc::Global;
use std::process::Abort;
use std::test::Fail;
use vg_outside::{MemShelf, MemSink, Words};
use vg_top::{Status, vegen};

/// What a run is given, and what it left.
pub struct Desk {
    pub alloc: Global,
    pub shelf: MemShelf,
    pub out: MemSink,
    pub err: MemSink,
}

impl Drop for Desk {
    fn drop(self) {
        let Desk {
            alloc: _,
            shelf: _,
            out: _,
            err: _,
        } = self;
    }
}

impl Desk {
    pub fn new(alloc: Global, room: usize) -> Result<Desk, Fail> {
        Ok(Desk {
            alloc,
            shelf: MemShelf::new(alloc),
            out: MemSink::new(alloc, room)?,
            err: MemSink::new(alloc, 1000)?,
        })
    }

    /// A desk with these files, each a name and its bytes.
    pub fn holding(alloc: Global, files: &[(&str, &[u8])]) -> Result<Desk, Fail> {
        let mut desk = Desk::new(alloc, 1000)?;
        for (name, bytes) in files {
            desk.shelf.put(name, bytes)?;
        }
        Ok(desk)
    }

    pub fn run(&mut self, words: &[&str]) -> Result<Status, Fail> {
        let mut all = Words::new(self.alloc);
        for word in words {
            all.push(word.as_bytes())?;
        }
        Ok(vegen(
            self.alloc,
            &all,
            &mut self.shelf,
            &mut self.out,
            &mut self.err,
        ))
    }

    /// Runs, and asserts how it ended and what was written.
    pub fn expect(
        &mut self,
        rt: &impl Abort,
        words: &[&str],
        status: Status,
        out: &[u8],
        err: &[u8],
    ) -> Result<(), Fail> {
        let ended = self.run(words)?;
        assert!(rt; ended == status);
        assert!(rt; self.out.written() == out);
        assert!(rt; self.err.written() == err);
        Ok(())
    }
}

/// Bytes, each part so often.
pub fn repeated(alloc: Global, parts: &[(&[u8], u32)]) -> Result<Vec<u8>, Fail> {
    let mut all = Vec::new(alloc);
    for (bytes, count) in parts {
        append(&mut all, bytes, *count)?;
    }
    Ok(all)
}

fn append(to: &mut Vec<u8>, bytes: &[u8], count: u32) -> Result<(), Fail> {
    for _ in 0..count {
        to.extend_from_slice(bytes)?;
    }
    Ok(())
}
