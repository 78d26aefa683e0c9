//! A shelf in memory.

ghost use Rattle.std.specs.Prelude.{◌≡◌, ◌∷◌, ◌++◌, ◌+◌, ◌≤◌, [], take, OnOk, OnErr, IfOk, Some};
ghost use Rattle.std.specs.FinMap.{insert};
ghost use Rattle.vg_outside.specs.MemShelf.{new_shelf, answer_of, Answers, after_read};

use crate::bytes::Bytes;
use crate::{Shelf, ShelfFault};
use std::alloc::{AllocError, Global};
use std::collections::BTreeMap;
use std::marker::Model;

/// Files in memory. Contracts see the files, the numbers of the reads that are to fail, and the
/// counts of reads, absences and faults.
#[derive(Drop)]
pub struct MemShelf {
    alloc: Global,
    files: BTreeMap<String, Bytes>,
    failing: Vec<u64>,
    reads: u64,
    absents: u64,
    faults: u64,
}

impl Model for MemShelf {
    ghost use Rattle.vg_outside.specs.MemShelf.{ShelfState, state_code};
    ghost use Rattle.vg_outside.specs.Held.{held_by};

    ghost Value = { ShelfState };

    ghost coded = { state_code };

    ghost view = { λ s. record {
      held = held_by s.files.entries;
      failing = s.failing.items;
      reads = s.reads;
      absents = s.absents;
      faults = s.faults;
    } };
}

impl MemShelf {
    /// A shelf that holds nothing. The allocator is kept for what comes.
    pub fn new(alloc: Global) -> MemShelf
        ensures { result ≡ new_shelf }
    {
        MemShelf {
            alloc,
            files: BTreeMap::new(alloc),
            failing: Vec::new(alloc),
            reads: 0,
            absents: 0,
            faults: 0,
        }
    }

    /// Puts a copy of the bytes under the name, in place of any that it had. On `Err`, for want of
    /// memory, nothing changes.
    pub fn put(&mut self, name: &str, bytes: &[u8]) -> Result<(), AllocError>
        ensures held { OnOk result
            (self.new ≡ record self.old { held = insert self.old.held name.now bytes.now }) }
        ensures unchanged { OnErr result (self.new ≡ self.old) }
    {
        let name = String::from_str(self.alloc, name)?;
        let bytes = Bytes::new(self.alloc, bytes)?;
        self.files.insert(name, bytes)?;
        Ok(())
    }

    /// Makes the read of this number fail, counted from 0. On `Err`, for want of memory, nothing
    /// changes.
    pub fn fail_read(&mut self, call: u64) -> Result<(), AllocError>
        ensures named { OnOk result
            (self.new ≡ record self.old { failing = self.old.failing ++ call ∷ [] }) }
        ensures unchanged { OnErr result (self.new ≡ self.old) }
    {
        self.failing.push(call)?;
        Ok(())
    }

    /// How often it was read. The count stands still at 2^64 - 1.
    pub fn reads(&self) -> u64
        ensures { result ≡ self.now.reads }
    {
        self.reads
    }
}

// The first bytes, one more than the limit at most.
fn first_bytes(alloc: Global, bytes: &[u8], limit: u64) -> Result<Vec<u8>, AllocError>
    ensures { IfOk result (λ first. first.items ≡ take (limit + 1) bytes.now) }
{
    let len = bytes.len() as u64;
    if len <= limit {
        Vec::from_slice(alloc, bytes)
    } else {
        Vec::from_slice(alloc, &bytes[..limit as usize + 1])
    }
}

impl Shelf for MemShelf {
    ghost holds = { λ s. Some s.held };

    ghost reads = { λ s. Some s.reads };

    ghost absents = { λ s. s.absents };

    ghost faults = { λ s. s.faults };

    fn read(&mut self, alloc: Global, name: &str, limit: u64) -> Result<Vec<u8>, ShelfFault>
        ensures answer { Answers (answer_of self.old name.now limit) result }
        ensures after { self.new ≡ after_read self.old result }
        ensures absents_never_fall { self.old.absents ≤ self.new.absents }
        ensures faults_never_fall { self.old.faults ≤ self.new.faults }
    {
        let number = self.reads;
        self.reads = number.saturating_add(1);
        if self.failing.contains(&number) {
            self.faults = self.faults.saturating_add(1);
            return Err(ShelfFault::Failed);
        }
        match self.files.get(name) {
            None => {
                self.absents = self.absents.saturating_add(1);
                Err(ShelfFault::Absent)
            }
            Some(bytes) => Ok(first_bytes(alloc, bytes.as_slice(), limit)?),
        }
    }
}
