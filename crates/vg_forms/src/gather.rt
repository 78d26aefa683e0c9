//! The terms that runs of bits gather.

ghost use Rattle.std.specs.Prelude.{◌≡◌, ◌-◌, ◌++◌, ◌^◌, IfOk, OnOk, min};
ghost use Rattle.vg_forms.specs.Gathered.{merged, merged_on, stacked, stacked_on};
ghost use Rattle.vg_terms.specs.Term.{node_count, tree};

use crate::run::Run;
use std::alloc::{AllocError, Global};
use vg_terms::{Term, TwoOp, make_const, make_two};

// Appends a run and those after it, as few as there can be.
fn push_merged(to: &mut Vec<Run>, run: Run, rest: &[Run]) -> Result<(), AllocError>
    ensures { OnOk result (to.new.items ≡ to.old.items ++ merged_on run rest.now) }
{
    match rest {
        [] => {
            to.push(run)?;
            Ok(())
        }
        [next, behind @ ..] => {
            let many = next.size();
            if many == 0 {
                return push_merged(to, run, behind);
            }
            if run.joins(next) {
                let longer = run.longer(many)?;
                return push_merged(to, longer, behind);
            }
            to.push(run)?;
            let next = next.share()?;
            push_merged(to, next, behind)
        }
    }
}

/// Runs, as few as there can be. Fails for want of memory alone.
pub(crate) fn merged(alloc: Global, runs: &[Run]) -> Result<Vec<Run>, AllocError>
    ensures { IfOk result (λ v. v.items ≡ merged runs.now) }
{
    match runs {
        [] => Ok(Vec::new(alloc)),
        [first, rest @ ..] => {
            if first.size() == 0 {
                return merged(alloc, rest);
            }
            let mut all = Vec::new(alloc);
            let first = first.share()?;
            push_merged(&mut all, first, rest)?;
            Ok(all)
        }
    }
}

// The term of a run with those after it above.
fn stacked_on(alloc: Global, run: &Run, rest: &[Run]) -> Result<Term, AllocError>
    ensures { IfOk result (λ t. tree t ≡ stacked_on run.now rest.now) }
{
    match rest {
        [] => run.term(alloc),
        [next, behind @ ..] => {
            let above = stacked_on(alloc, next, behind)?;
            let below = run.term(alloc)?;
            match run.size().checked_add(above.width()) {
                Some(width) => make_two(alloc, TwoOp::Cat, width, above, below),
                None => Err(AllocError),
            }
        }
    }
}

/// The terms of runs, one above the other. Fails for want of memory alone.
pub(crate) fn stacked(alloc: Global, runs: &[Run]) -> Result<Term, AllocError>
    ensures { IfOk result (λ t. tree t ≡ stacked runs.now) }
{
    match runs {
        [] => Ok(make_const(0, 0)),
        [first, rest @ ..] => stacked_on(alloc, first, rest),
    }
}

// The number of nodes of the term of a run with those after it above.
fn stacked_on_size(run: &Run, rest: &[Run]) -> u64
    ensures { result ≡ min (node_count (stacked_on run.now rest.now)) (2 ^ 64 - 1) }
{
    match rest {
        [] => run.term_size(),
        [next, behind @ ..] => {
            let above = stacked_on_size(next, behind);
            let below = run.term_size();
            above.saturating_add(below).saturating_add(1)
        }
    }
}

/// The number of nodes of the terms of runs, one above the other, or the greatest `u64` where there are more.
pub(crate) fn stacked_size(runs: &[Run]) -> u64
    ensures { result ≡ min (node_count (stacked runs.now)) (2 ^ 64 - 1) }
{
    match runs {
        [] => 1,
        [first, rest @ ..] => stacked_on_size(first, rest),
    }
}
