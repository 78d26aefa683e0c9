//! The plans of a level that were met.

ghost use Rattle.std.specs.Prelude.{◌≡◌, ◌++◌, ◌∷◌, [], ℕ, ◌||◌, List, OnOk, bytes_eq};
ghost use Rattle.vg_beam.specs.Key.{has_key};
ghost use Rattle.vg_beam.specs.MetPlans.{is_known};

use crate::candidate::Candidate;
use indexmap::IndexSet;
use std::alloc::{AllocError, Global};

/// Plans of one size that were met, no two of the same packs, and the keys of all of them.
#[derive(Drop)]
pub(crate) struct MetPlans {
    keys: IndexSet<Vec<u32>>,
    pub(crate) candidates: Vec<Candidate>,
}

/// Adds a key to those that are known.
fn note(keys: &mut IndexSet<Vec<u32>>, key: Vec<u32>) -> Result<(), AllocError>
    ensures { OnOk result ((q : List ℕ) → has_key (λ k. k.items) keys.new.keys q ≡ (bytes_eq q
        key.items || has_key (λ k. k.items) keys.old.keys q)) }
{
    match keys.insert(key) {
        Ok(_) => Ok(()),
        Err(e) => Err(e.into()),
    }
}

impl MetPlans {
    /// No plan is met yet.
    pub(crate) fn new(alloc: Global) -> MetPlans
        ensures candidates { result.candidates.items ≡ [] }
        ensures keys { result.keys.keys ≡ [] }
    {
        MetPlans {
            keys: IndexSet::new(alloc),
            candidates: Vec::new(alloc),
        }
    }

    /// Whether a plan with this key was met.
    pub(crate) fn has(&self, key: &[u32]) -> bool
        ensures { result ≡ is_known self.now key.now }
    {
        self.keys.contains(key)
    }

    /// Adds a plan with its key.
    pub(crate) fn add(&mut self, key: Vec<u32>, candidate: Candidate) -> Result<(), AllocError>
        ensures candidates { OnOk result (self.new.candidates.items ≡ self.old.candidates.items ++
            candidate ∷ []) }
        ensures known { OnOk result ((q : List ℕ) → is_known self.new q ≡ (bytes_eq q key.items ||
            is_known self.old q)) }
    {
        note(&mut self.keys, key)?;
        self.candidates.push(candidate)?;
        Ok(())
    }
}
