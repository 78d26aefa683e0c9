//! The shuffles among descriptions.

ghost use Rattle.std.specs.Prelude.{◌≡◌, IfOk, length, map};
ghost use Rattle.std.specs.List.{list_all};
ghost use Rattle.vg_cost.specs.Shuffling.{AreShuffles, is_tight, is_tight_lane, shuffles_from};
ghost use Rattle.vg_shapes.specs.Description.{description_of};
ghost use Rattle.vg_terms.specs.Term.{tree};

use std::alloc::{AllocError, Global};
use vg_kernel_plans::shuffles::is_shuffle;
use vg_shapes::Description;
use vg_terms::Term;

/// Which descriptions are shuffles.
#[derive(Drop)]
pub(crate) struct Shuffles {
    /// Their indices among the descriptions, rising.
    pub(crate) numbers: Vec<usize>,
    /// Whether the lanes of all of them are of parameters that they have.
    pub(crate) are_tight: bool,
}

/// Whether a lane is no leaf, or one of so many parameters.
fn is_tight_lane(params: usize, lane: &Term) -> bool
    ensures { result ≡ is_tight_lane params (tree lane.now) }
{
    match lane {
        Term::Leaf { key, .. } => (key.first as usize) < params,
        Term::Const { .. } => true,
        Term::One { .. } => true,
        Term::Two { .. } => true,
        Term::Sel { .. } => true,
    }
}

fn are_tight_lanes(params: usize, lanes: &[Term]) -> bool
    ensures { result ≡ list_all (λ t. is_tight_lane params (tree t)) lanes.now }
{
    lanes.iter().all(|lane| is_tight_lane(params, lane))
}

#[tactic(auto, using(crate::proofs::Scanned::tight_lanes))]
fn has_tight_lanes(description: &Description) -> bool
    ensures { result ≡ list_all (is_tight_lane (length description.now.params))
        (map tree description.now.lanes) }
{
    let params = description.params.as_slice();
    are_tight_lanes(params.len(), description.lanes.as_slice())
}

/// Whether a description is no shuffle, or has only lanes of parameters that it has.
fn is_tight(description: &Description) -> bool
    ensures { result ≡ is_tight (description_of description.now) }
{
    if is_shuffle(description) {
        has_tight_lanes(description)
    } else {
        true
    }
}

fn are_tight(descriptions: &[Description]) -> bool
    ensures { result ≡ list_all (λ d. is_tight (description_of d)) descriptions.now }
{
    descriptions.iter().all(|d| is_tight(d))
}

/// The numbers of the descriptions that are shuffles.
fn shuffle_numbers(alloc: Global, descriptions: &[Description]) -> Result<Vec<usize>, AllocError>
    ensures { IfOk result (λ numbers. numbers.items ≡ shuffles_from 0
        (map description_of descriptions.now)) }
{
    let mut numbers = Vec::new(alloc);
    let mut number = 0;
    'descriptions: for description in descriptions {
        if is_shuffle(description) {
            numbers.push(number)?;
        }
        number += 1;
    }
    Ok(numbers)
}

impl Shuffles {
    /// The shuffles among descriptions, by their indices. Fails for want of memory alone.
    pub(crate) fn new(alloc: Global, descriptions: &[Description]) -> Result<Shuffles, AllocError>
        ensures { IfOk result (AreShuffles (map description_of descriptions.now)) }
    {
        Ok(Shuffles {
            numbers: shuffle_numbers(alloc, descriptions)?,
            are_tight: are_tight(descriptions),
        })
    }

    /// A copy. Fails for want of memory alone.
    pub(crate) fn copy(&self, alloc: Global) -> Result<Shuffles, AllocError>
        ensures numbers { IfOk result (λ s. s.numbers.items ≡ self.now.numbers.items) }
        ensures tight { IfOk result (λ s. s.are_tight ≡ self.now.are_tight) }
    {
        Ok(Shuffles {
            numbers: self.numbers.as_slice().to_vec(alloc)?,
            are_tight: self.are_tight,
        })
    }
}
