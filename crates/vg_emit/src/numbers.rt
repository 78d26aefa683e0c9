//! Numbers that stand for things.

ghost use Rattle.std.specs.Prelude.{◌≡◌, IfOk, None, Some, replicate, slice_set};
ghost use Rattle.vg_emission.specs.Draft.{found};

use std::alloc::{AllocError, Global};
use std::marker::Model;

/// By the numbers of things from 0 on the number that stands for each, if any does. Contracts see
/// them as a list.
#[derive(Drop)]
pub(crate) struct Numbers {
    all: Vec<Option<u32>>,
}

impl Model for Numbers {
    ghost use Rattle.std.specs.Prelude.{List, Option, ℕ};

    ghost Value = { List (Option ℕ) };

    ghost view = { λ s. s.all.items };
}

impl Numbers {
    /// Places for so many, of which none is set.
    pub(crate) fn new(alloc: Global, count: usize) -> Result<Numbers, AllocError>
        ensures { IfOk result (λ numbers. numbers ≡ replicate count None) }
    {
        let all = vec![in alloc; None; count]?;
        Ok(Numbers { all })
    }

    /// What stands for a thing, if anything does.
    pub(crate) fn get(&self, place: usize) -> Option<u32>
        ensures { result ≡ found self.now place }
    {
        match self.all.as_slice().get(place) {
            Some(number) => *number,
            None => None,
        }
    }

    /// Lets a number stand for a thing, if there is a place for it.
    pub(crate) fn set(&mut self, place: usize, number: u32)
        ensures { self.new ≡ slice_set self.old place (Some number) }
    {
        if place < self.all.len() {
            self.all[place] = Some(number);
        }
    }
}
