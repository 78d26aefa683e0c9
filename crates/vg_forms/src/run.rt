//! Bits of registers in runs.

ghost use Rattle.std.specs.Prelude.{◌≡◌, ◌+◌, ◌-◌, ◌++◌, ◌≤◌, ◌^◌, IfOk, OnOk, min};
ghost use Rattle.vg_forms.specs.Gathered.{joins, longer_by, run_term};
ghost use Rattle.vg_forms.specs.Runs.{part_of, run_size, runs_range};
ghost use Rattle.vg_lift.specs.Gather.{shifted};
ghost use Rattle.vg_terms.specs.Resize.{low};
ghost use Rattle.vg_terms.specs.Term.{node_count, tree};

use crate::form::Form;
use std::alloc::{AllocError, Global};
use vg_terms::{OneOp, Term, low_part, make_const, make_one};

/// Bits of a register that stand beside one another.
#[derive(Drop)]
pub enum Run {
    /// So many bits that are 0.
    Zeros { count: u32 },
    /// So many bits of a term, from a bit on.
    Bits { form: Form, low: u32, count: u32 },
}

impl Run {
    /// How many bits it has.
    pub fn size(&self) -> u32
        ensures { result ≡ run_size self.now }
    {
        match self {
            Run::Zeros { count } => *count,
            Run::Bits { count, .. } => *count,
        }
    }

    /// The same bits a second time. Fails for want of memory alone.
    pub fn share(&self) -> Result<Run, AllocError>
        ensures { IfOk result (λ r. r ≡ self.now) }
    {
        match self {
            Run::Zeros { count } => Ok(Run::Zeros { count: *count }),
            Run::Bits { form, low, count } => {
                let form = form.share()?;
                Ok(Run::Bits {
                    form,
                    low: *low,
                    count: *count,
                })
            }
        }
    }

    /// So many of its bits from a bit on. Fails for want of memory, also past bit 2^32.
    pub fn part(&self, first: u32, many: u32) -> Result<Run, AllocError>
        ensures { IfOk result (λ r. r ≡ part_of self.now first many) }
    {
        match self {
            Run::Zeros { .. } => Ok(Run::Zeros { count: many }),
            Run::Bits { form, low, .. } => {
                let low = sum(*low, first)?;
                let form = form.share()?;
                Ok(Run::Bits {
                    form,
                    low,
                    count: many,
                })
            }
        }
    }

    /// Whether another run goes on with this one.
    pub(crate) fn joins(&self, next: &Run) -> bool
        ensures { result ≡ joins self.now next.now }
    {
        match (self, next) {
            (Run::Zeros { .. }, Run::Zeros { .. }) => true,
            (
                Run::Bits { form, low, count },
                Run::Bits {
                    form: other,
                    low: first,
                    ..
                },
            ) => {
                let end = u64::from(*low) + u64::from(*count);
                u64::from(*first) == end && form.term().is_same(other.term())
            }
            _ => false,
        }
    }

    /// The run with so many bits more. Fails for want of memory, also past 2^32 bits.
    pub(crate) fn longer(self, many: u32) -> Result<Run, AllocError>
        ensures { IfOk result (λ r. r ≡ longer_by self many) }
    {
        match self {
            Run::Zeros { count } => {
                let count = sum(count, many)?;
                Ok(Run::Zeros { count })
            }
            Run::Bits { form, low, count } => {
                let count = sum(count, many)?;
                Ok(Run::Bits { form, low, count })
            }
        }
    }

    /// Its term. Fails for want of memory alone.
    pub(crate) fn term(&self, alloc: Global) -> Result<Term, AllocError>
        ensures { IfOk result (λ t. tree t ≡ run_term self.now) }
    {
        match self {
            Run::Zeros { count } => Ok(make_const(*count, 0)),
            Run::Bits { form, low, count } => {
                let t = form.term().copy(alloc)?;
                let t = shifted(alloc, *low, t)?;
                low_part(alloc, *count, t)
            }
        }
    }

    /// The number of nodes of its term, or the greatest `u64` where there are more.
    pub(crate) fn term_size(&self) -> u64
        ensures { result ≡ min (node_count (run_term self.now)) (2 ^ 64 - 1) }
    {
        match self {
            Run::Zeros { .. } => 1,
            Run::Bits { form, low, count } => {
                let shift = u64::from(*low != 0);
                let cut = u64::from(form.width() != *count);
                form.size().saturating_add(shift).saturating_add(cut)
            }
        }
    }
}

/// A sum, or want of memory past 2^32.
fn sum(a: u32, b: u32) -> Result<u32, AllocError>
    ensures { IfOk result (λ n. n ≡ a + b) }
{
    match a.checked_add(b) {
        Some(n) => Ok(n),
        None => Err(AllocError),
    }
}

/// A term without its lowest bits, at its width. Fails for want of memory alone.
fn shifted(alloc: Global, low: u32, t: Term) -> Result<Term, AllocError>
    ensures { IfOk result (λ s. tree s ≡ shifted low (tree t)) }
{
    if low == 0 {
        return Ok(t);
    }
    let width = t.width();
    make_one(alloc, OneOp::Lshr, width, low, t)
}

/// Appends so many bits of runs from a bit on. Fails for want of memory, also past bit 2^32 of a term.
pub fn push_range(to: &mut Vec<Run>, runs: &[Run], low: u32, count: u32) -> Result<(), AllocError>
    ensures { OnOk result (to.new.items ≡ to.old.items ++ runs_range runs.now low count) }
{
    match runs {
        [] => Ok(()),
        [run, behind @ ..] => {
            if count == 0 {
                return Ok(());
            }
            let size = run.size();
            if size <= low {
                return push_range(to, behind, low - size, count);
            }
            let taken = count.min(size - low);
            let part = run.part(low, taken)?;
            to.push(part)?;
            push_range(to, behind, 0, count - taken)
        }
    }
}
