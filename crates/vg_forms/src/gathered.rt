//! The terms of bits of registers.

ghost use Rattle.std.specs.Prelude.{◌≡◌, ◌++◌, IfOk, OnOk, map, unwrap_or};
ghost use Rattle.vg_canon.specs.Canonical.{canonical};
ghost use Rattle.vg_forms.specs.Runs.{bits_in, cut_run};
ghost use Rattle.vg_known.specs.Cuts.{built, cut_bits, gathered};
ghost use Rattle.vg_lift.specs.Gather.{gather};
ghost use Rattle.vg_terms.specs.Term.{Tree, tree};

use crate::classes::Classes;
use crate::form::Form;
use crate::gather::{merged, stacked, stacked_size};
use crate::maker::{MOST_BUILT, Maker};
use crate::run::Run;
use std::alloc::{AllocError, Global};
use vg_terms::Term;

impl Classes {
    /// A run of the cut term.
    fn cut_run(&self, alloc: Global, run: &Run) -> Result<Run, AllocError>
        ensures { IfOk result (λ r. r ≡ cut_run self.now run.now) }
    {
        match run {
            Run::Zeros { count } => Ok(Run::Zeros { count: *count }),
            Run::Bits { form, low, count } => {
                let form = self.cut(alloc, form)?;
                Ok(Run::Bits {
                    form,
                    low: *low,
                    count: *count,
                })
            }
        }
    }

    /// Runs of the cut terms. Fails as `cut` does.
    pub(crate) fn cut_runs(&self, alloc: Global, runs: &[Run]) -> Result<Vec<Run>, AllocError>
        ensures { IfOk result (λ v. bits_in v.items ≡ cut_bits self.now (bits_in runs.now)) }
    {
        let mut all = Vec::with_capacity(alloc, runs.len())?;
        self.push_cut(alloc, &mut all, runs)?;
        Ok(all)
    }

    // Appends runs of the cut terms.
    fn push_cut(&self, alloc: Global, to: &mut Vec<Run>, runs: &[Run]) -> Result<(), AllocError>
        ensures { OnOk result (to.new.items ≡ to.old.items ++ map (cut_run self.now) runs.now) }
    {
        match runs {
            [] => Ok(()),
            [run, behind @ ..] => {
                let cut = self.cut_run(alloc, run)?;
                to.push(cut)?;
                self.push_cut(alloc, to, behind)
            }
        }
    }
}

impl Maker {
    /// The term of bits. Fails as `settle` does.
    pub fn gathered(&mut self, alloc: Global, runs: &[Run]) -> Result<Form, AllocError>
        ensures form { IfOk result (λ f. f ≡ gathered self.old.classes (bits_in runs.now)) }
        ensures classes { self.new.classes ≡ self.old.classes }
    {
        match self.gathered_whole(alloc, runs)? {
            Some(form) => Ok(form),
            None => self.gathered_of_parts(alloc, runs),
        }
    }

    // The canonical form of what bits of cut terms gather.
    fn gathered_of_parts(&mut self, alloc: Global, runs: &[Run]) -> Result<Form, AllocError>
        ensures form { IfOk result
            (λ f. f ≡ canonical (gather (cut_bits self.old.classes (bits_in runs.now)))) }
        ensures classes { self.new.classes ≡ self.old.classes }
    {
        let parts = self.classes.cut_runs(alloc, runs)?;
        let parts = gathered_term(alloc, &parts)?;
        self.settle(alloc, parts)
    }

    // The canonical form of what bits of whole terms gather, if that is the term of the bits.
    #[tactic(auto, using(crate::proofs::Gathering::gather_merged, crate::proofs::Cutting::too_large))]
    fn gathered_whole(&mut self, alloc: Global, runs: &[Run]) -> Result<Option<Form>, AllocError>
        ensures form { IfOk result (λ f. (parts : Tree) → built (gather (bits_in runs.now)) parts ≡
            unwrap_or f (canonical parts)) }
        ensures classes { self.new.classes ≡ self.old.classes }
    {
        let runs = merged(alloc, runs)?;
        if stacked_size(&runs) > MOST_BUILT {
            return Ok(None);
        }
        let whole = stacked(alloc, &runs)?;
        self.settle_whole(alloc, whole)
    }
}

/// The term that bits gather. Fails for want of memory, also past the most nodes of a term that is made
/// canonical.
#[tactic(auto, using(crate::proofs::Gathering::gather_merged))]
pub(crate) fn gathered_term(alloc: Global, runs: &[Run]) -> Result<Term, AllocError>
    ensures { IfOk result (λ t. tree t ≡ gather (bits_in runs.now)) }
{
    let runs = merged(alloc, runs)?;
    if stacked_size(&runs) > MOST_BUILT {
        return Err(AllocError);
    }
    stacked(alloc, &runs)
}
