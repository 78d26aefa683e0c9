//! The bits of events, and where those of an event are found.

ghost use Rattle.std.specs.Prelude.{◌≡◌, ℕ, ◌++◌, ◌∷◌, [], List, IfOk, OnOk};
ghost use Rattle.vg_forms.specs.Runs.{bits_in};
ghost use Rattle.vg_lift.specs.Gather.{Bit};
ghost use Rattle.vg_known.specs.Kernels.{bits_at, pairs_of};
ghost use Rattle.vg_known.specs.Known.{event_bits};
ghost use Rattle.vg_verify.specs.Finding.{HasFirst};
ghost use Rattle.vg_verify.specs.Views.{pair_of, pairs_in, runs_for};

use indexmap::IndexMap;
use std::alloc::{AllocError, Global};
use vg_base::Items;
use vg_forms::{Run, push_range};

// Appends eight bits of runs for each event, from a bit on.
fn push_events(
    alloc: Global,
    to: &mut Vec<(usize, Items<Run>)>,
    events: &[usize],
    runs: &[Run],
    low: u32,
) -> Result<(), AllocError>
    ensures { OnOk result (to.new.items ≡ to.old.items ++ runs_for events.now runs.now low) }
{
    match events {
        [] => Ok(()),
        [event, behind @ ..] => {
            let mut byte = Vec::new(alloc);
            push_range(&mut byte, runs, low, 8)?;
            to.push((*event, Items::from_vec(byte)))?;
            match low.checked_add(8) {
                Some(next) => push_events(alloc, to, behind, runs, next),
                None => Err(AllocError),
            }
        }
    }
}

/// Appends eight bits of runs for each event. Fails for want of memory alone.
#[tactic(auto, using(crate::proofs::Events::events_given))]
pub(crate) fn give_events(
    alloc: Global,
    to: &mut Vec<(usize, Items<Run>)>,
    events: &[usize],
    runs: &[Run],
) -> Result<(), AllocError>
    ensures { OnOk result (pairs_in to.new.items
        ≡ pairs_in to.old.items ++ pairs_of events.now (bits_in runs.now)) }
{
    push_events(alloc, to, events, runs, 0)
}

/// The bits of events; an event has those that it was given first.
#[derive(Drop)]
pub(crate) struct EventBits {
    pub table: IndexMap<usize, Items<Run>>,
}

impl EventBits {
    /// The bits of events of these pairs. Fails for want of memory alone.
    #[tactic(auto, using(crate::proofs::Finding::noting_none, crate::proofs::Finding::noting_all))]
    pub(crate) fn new(alloc: Global, pairs: &[(usize, Items<Run>)]) -> Result<EventBits, AllocError>
        ensures { IfOk result (λ b. HasFirst b.table.entries (pairs_in pairs.now)) }
    {
        let mut table = IndexMap::new(alloc);
        let mut rest = pairs;
        'pairs: while let [pair, behind @ ..] = rest {
            note_pair(alloc, &mut table, pair)?;
            rest = behind;
        }
        Ok(EventBits { table })
    }

    /// The bits of an event, none where it has none.
    #[tactic(auto, using(crate::proofs::Finding::at_some, crate::proofs::Finding::at_none))]
    pub(crate) fn at(&self, event: usize) -> &[Run]
        ensures { bits_in result.now ≡ bits_at (pairs_in self.now.table.entries) event }
    {
        match self.table.get(&event) {
            Some(runs) => runs.as_slice(),
            None => &[],
        }
    }

    /// The bits of events, one after the other. Fails for want of memory alone.
    pub(crate) fn read(&self, alloc: Global, events: &[usize]) -> Result<Vec<Run>, AllocError>
        ensures { IfOk result (λ v. bits_in v.items
            ≡ event_bits (bits_at (pairs_in self.now.table.entries)) events.now) }
    {
        let mut runs = Vec::new(alloc);
        self.push_read(&mut runs, events)?;
        Ok(runs)
    }

    // Appends the bits of events.
    fn push_read(&self, to: &mut Vec<Run>, events: &[usize]) -> Result<(), AllocError>
        ensures { OnOk result (bits_in to.new.items ≡ bits_in to.old.items ++ event_bits (bits_at
            (pairs_in self.now.table.entries)) events.now) }
    {
        match events {
            [] => Ok(()),
            [event, behind @ ..] => {
                push_all(to, self.at(*event))?;
                self.push_read(to, behind)?;
                Ok(())
            }
        }
    }
}

// Notes an event with its bits.
fn note_pair(
    alloc: Global,
    table: &mut IndexMap<usize, Items<Run>>,
    pair: &(usize, Items<Run>),
) -> Result<(), AllocError>
    ensures { OnOk result ((pairs : List (ℕ × List Bit)) → HasFirst table.old.entries pairs
        → HasFirst table.new.entries (pairs ++ pair_of pair.now ∷ [])) }
{
    note(alloc, table, pair.0, pair.1.as_slice())
}

// Notes the bits of an event, where it has none yet.
#[tactic(auto, using(crate::proofs::Finding::first_kept, crate::proofs::Finding::first_new))]
fn note(
    alloc: Global,
    table: &mut IndexMap<usize, Items<Run>>,
    event: usize,
    runs: &[Run],
) -> Result<(), AllocError>
    ensures { OnOk result ((pairs : List (ℕ × List Bit)) → HasFirst table.old.entries pairs
        → HasFirst table.new.entries (pairs ++ (event, bits_in runs.now) ∷ [])) }
{
    if table.contains_key(&event) {
        return Ok(());
    }
    let mut copied = Vec::with_capacity(alloc, runs.len())?;
    push_all(&mut copied, runs)?;
    table.insert(event, Items::from_vec(copied))?;
    Ok(())
}

// Appends runs.
fn push_all(to: &mut Vec<Run>, runs: &[Run]) -> Result<(), AllocError>
    ensures { OnOk result (to.new.items ≡ to.old.items ++ runs.now) }
{
    match runs {
        [] => Ok(()),
        [run, behind @ ..] => {
            let run = run.share()?;
            to.push(run)?;
            push_all(to, behind)
        }
    }
}
