//! The words of a command line.

ghost use Rattle.std.specs.Prelude.{◌≡◌, ◌<◌, ◌≤◌, [], ◌∷◌, ◌++◌, drop, length, slice_get, Some, OnOk, OnErr};

use crate::bytes::Bytes;
use std::alloc::{AllocError, Global};
use std::marker::Model;

/// A list of words, each a list of bytes. Contracts see it as that list of lists.
#[derive(Drop)]
pub struct Words {
    alloc: Global,
    words: Vec<Bytes>,
}

impl Model for Words {
    ghost use Rattle.std.specs.Prelude.{List, ℕ};

    ghost Value = { List (List ℕ) };

    ghost view = { λ s. s.words.items };
}

impl Words {
    /// No words. The allocator is kept for those to come.
    pub fn new(alloc: Global) -> Words
        ensures { result ≡ [] }
    {
        Words {
            alloc,
            words: Vec::new(alloc),
        }
    }

    /// Adds a copy of the word after the others. On `Err`, for want of memory, nothing changes.
    pub fn push(&mut self, word: &[u8]) -> Result<(), AllocError>
        ensures added { OnOk result (self.new ≡ self.old ++ word.now ∷ []) }
        ensures unchanged { OnErr result (self.new ≡ self.old) }
    {
        let word = Bytes::new(self.alloc, word)?;
        self.words.push(word)?;
        Ok(())
    }

    /// How many words there are.
    pub fn len(&self) -> usize
        ensures { result ≡ length self.now }
    {
        self.words.len()
    }

    /// The words after the first so many.
    pub fn behind(&self, count: usize) -> &[Bytes]
        requires { count ≤ length self.now }
        ensures { result.now ≡ drop count self.now }
    {
        &self.words[count..]
    }

    /// The word of this number, counted from 0.
    pub fn get(&self, i: usize) -> &[u8]
        requires { i < length self.now }
        ensures { slice_get self.now i ≡ Some result.now }
    {
        self.words[i].as_slice()
    }
}
