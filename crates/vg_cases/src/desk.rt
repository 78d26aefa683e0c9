//! A shelf, two sinks and words in memory.

use crate::memories::{bytes_of, cut, cut_line, said};
use std::alloc::Global;
use std::process::Abort;
use std::test::Fail;
use vg_outside::{MemShelf, MemSink, Words};
use vg_top::{Status, vegen};

/// What a run is given, and what it left.
pub struct Desk {
    pub alloc: Global,
    pub shelf: MemShelf,
    pub out: MemSink,
    pub err: MemSink,
}

impl Drop for Desk {
    fn drop(self) {
        let Desk {
            alloc: _,
            shelf: _,
            out: _,
            err: _,
        } = self;
    }
}

impl Desk {
    pub fn new(alloc: Global, room: usize) -> Result<Desk, Fail> {
        Ok(Desk {
            alloc,
            shelf: MemShelf::new(alloc),
            out: MemSink::new(alloc, room)?,
            err: MemSink::new(alloc, 1000)?,
        })
    }

    /// Puts each file, a name and its bytes, on the shelf.
    pub fn put_all(&mut self, files: &[(&str, &[u8])]) -> Result<(), Fail> {
        for (name, bytes) in files {
            self.shelf.put(name, bytes)?;
        }
        Ok(())
    }

    /// A desk with these files.
    pub fn holding(alloc: Global, room: usize, files: &[(&str, &[u8])]) -> Result<Desk, Fail> {
        let mut desk = Desk::new(alloc, room)?;
        desk.put_all(files)?;
        Ok(desk)
    }

    /// A desk with no instructions and this kernel.
    pub fn with_kernel(alloc: Global, kernel: &[u8]) -> Result<Desk, Fail> {
        Desk::holding(alloc, 1 << 20, &[("i", b""), ("k", kernel)])
    }

    /// Runs on these words.
    pub fn run_on(&mut self, words: &Words) -> Status {
        vegen(
            self.alloc,
            words,
            &mut self.shelf,
            &mut self.out,
            &mut self.err,
        )
    }

    /// Runs on the words of a line.
    pub fn run(&mut self, line: &str) -> Result<Status, Fail> {
        let mut words = Words::new(self.alloc);
        for word in line.split_whitespace() {
            words.push(word.as_bytes())?;
        }
        Ok(self.run_on(&words))
    }

    /// Runs on the words of a line, and asserts how it ended and what was written.
    pub fn expect(
        &mut self,
        rt: &impl Abort,
        line: &str,
        status: Status,
        out: &[u8],
        err: &[u8],
    ) -> Result<(), Fail> {
        let ended = self.run(line)?;
        assert!(rt; ended == status, "{line}");
        assert!(rt; self.out.written() == out, "{line}");
        assert!(rt; self.err.written() == err, "{line}");
        Ok(())
    }

    /// Runs on the words of a line, and asserts that nothing was written, and its ending: a status,
    /// an arrow, and the line on it.
    pub fn expect_ending(&mut self, rt: &impl Abort, line: &str, ending: &str) -> Result<(), Fail> {
        let (status, text) = cut(ending)?;
        let err = said(self.alloc, text)?;
        self.expect(rt, line, status_of(status), b"", err.as_bytes())
    }

    /// Asserts how many files were read.
    pub fn expect_reads(&self, rt: &impl Abort, reads: u64) {
        assert!(rt; self.shelf.reads() == reads, "{reads} files");
    }
}

/// Asserts what a line leaves of a memory `m` beside these files, and how many files are read. The
/// memories are words, with an arrow between them.
pub fn expect_left(
    rt: &impl Abort,
    alloc: Global,
    files: &[(&str, &[u8])],
    line: &str,
    memories: &str,
    reads: u64,
) -> Result<(), Fail> {
    let (memory, left) = cut(memories)?;
    let left = bytes_of(alloc, left)?;
    let mut desk = desk_with_memory(alloc, files, memory)?;
    desk.expect(rt, line, Status::Ok, left.as_slice(), b"")?;
    desk.expect_reads(rt, reads);
    Ok(())
}

/// A desk with these files and a memory `m` of words.
fn desk_with_memory(alloc: Global, files: &[(&str, &[u8])], memory: &str) -> Result<Desk, Fail> {
    let memory = bytes_of(alloc, memory)?;
    let mut desk = Desk::holding(alloc, 1000, files)?;
    desk.shelf.put("m", memory.as_slice())?;
    Ok(desk)
}

/// Asserts that a line with these files writes nothing, how many files are read, and its ending: a
/// number, an arrow, a status, an arrow, and the line on it.
pub fn expect_ended(
    rt: &impl Abort,
    alloc: Global,
    files: &[(&str, &[u8])],
    line: &str,
    row: &str,
) -> Result<(), Fail> {
    let (reads, ending) = cut(row)?;
    let reads = reads.parse::<u64>()?;
    let mut desk = Desk::holding(alloc, 1000, files)?;
    desk.expect_ending(rt, line, ending)?;
    desk.expect_reads(rt, reads);
    Ok(())
}

/// Asserts of each of these lines that it ends so.
pub fn expect_each(
    rt: &impl Abort,
    alloc: Global,
    files: &[(&str, &[u8])],
    row: &str,
    lines: &str,
) -> Result<(), Fail> {
    for line in lines.trim().lines() {
        expect_ended(rt, alloc, files, line.trim(), row)?;
    }
    Ok(())
}

/// Asserts the same of rows, each a line, an arrow, and how it ends.
pub fn expect_endings(
    rt: &impl Abort,
    alloc: Global,
    files: &[(&str, &[u8])],
    rows: &str,
) -> Result<(), Fail> {
    for row in rows.trim().lines() {
        let (line, row) = cut_line(row)?;
        expect_ended(rt, alloc, files, line, row)?;
    }
    Ok(())
}

/// How words end that are no request.
pub const USAGE: &str = "0 => Usage => usage";

/// The status that has this name.
pub fn status_of(word: &str) -> Status {
    match word {
        "Usage" => Status::Usage,
        "InputAbsent" => Status::InputAbsent,
        "InstructionsRefused" => Status::InstructionsRefused,
        "KernelRefused" => Status::KernelRefused,
        "ProgramRefused" => Status::ProgramRefused,
        "BindingsRefused" => Status::BindingsRefused,
        "Trap" => Status::Trap,
        "TooLarge" => Status::TooLarge,
        "Differs" => Status::Differs,
        _ => Status::Ok,
    }
}
