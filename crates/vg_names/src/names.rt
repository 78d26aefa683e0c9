//! Names, each once.

ghost use Rattle.std.specs.Prelude.{◌≡◌, [], length, map, vec_items, OnOk};
ghost use Rattle.vg_pseudo.specs.Names.{has_name};
ghost use Rattle.vg_names.specs.Distinct.{AreDistinct, with_name, place_of};

use indexmap::IndexSet;
use std::alloc::{AllocError, Global};
use std::marker::Model;

/// Names in the order in which they came, each once.
#[derive(Drop)]
pub(crate) struct Names {
    all: IndexSet<Vec<u8>>,
}

impl Model for Names {
    ghost use Rattle.std.specs.Prelude.{List, ℕ, map, vec_items};
    ghost use Rattle.vg_names.specs.Distinct.{AreDistinct};

    ghost Value = { List (List ℕ) };

    ghost view = { λ n. map vec_items n.all.keys };

    ghost invariant = { λ n. AreDistinct (map vec_items n.all.keys) };
}

impl Names {
    pub(crate) fn new(alloc: Global) -> Names
        ensures { result ≡ [] }
    {
        Names {
            all: IndexSet::new(alloc),
        }
    }

    /// This name too, last where it is new.
    pub(crate) fn add(&mut self, alloc: Global, name: &[u8]) -> Result<(), AllocError>
        ensures { OnOk result (self.new ≡ with_name self.old name.now) }
    {
        let name = Vec::from_slice(alloc, name)?;
        self.all.insert(name)?;
        Ok(())
    }

    /// The number of a name.
    pub(crate) fn place(&self, name: &[u8]) -> Option<usize>
        ensures { result ≡ place_of self.now name.now }
    {
        self.all.get_index_of(name)
    }

    /// Whether a name is among them.
    pub(crate) fn has(&self, name: &[u8]) -> bool
        ensures { result ≡ has_name self.now name.now }
    {
        self.all.contains(name)
    }

    /// How many there are. Each stands once.
    pub(crate) fn count(&self) -> usize
        ensures length { result ≡ length self.now }
        ensures distinct { AreDistinct self.now }
    {
        self.all.len()
    }

    /// All of them in their order.
    pub(crate) fn as_slice(&self) -> &[Vec<u8>]
        ensures { map vec_items result.now ≡ self.now }
    {
        self.all.as_slice()
    }
}
