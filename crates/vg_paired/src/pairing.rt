//! The events of lines as events of the kernel.

ghost use Rattle.std.specs.Prelude.{◌≡◌, ◌<◌, [], ◌∷◌, IfOk, length, map, slice_index, unwrap_or};
ghost use Rattle.vg_paired.specs.ByteLabels.{label_of};
ghost use Rattle.vg_known.specs.Difference.{lines_by_rank};
ghost use Rattle.vg_events.specs.Events.{kernel_labels, labels, labels_in, labels_of};
ghost use Rattle.vg_paired.specs.Heads.{AreHeads, Pairs, PairsAll};
ghost use Rattle.vg_paired.specs.Noted.{noted};
ghost use Rattle.vg_events.specs.Ranks.{by_rank};

use crate::accesses::{byte_labels, line_accesses, unit_accesses};
use crate::byte_label::ByteLabel;
use crate::label_numbers::LabelNumbers;
use std::alloc::{AllocError, Global};
use vg_base::Items;
use vg_program::Program;
use vg_shapes::{Access, Ssa};

/// For each label the first event of the kernel that is not taken yet, and for each event the next one of
/// its label. The number of all events stands for none.
#[derive(Drop)]
struct Heads {
    first: LabelNumbers,
    next: Vec<usize>,
}

/// For each line of a program the numbers of its events in the kernel: the event of a label that has so
/// many of that label before it on one side is the one that has so many before it on the other. Where
/// lines have more events of a label than the kernel, these have the number of all its events; so ask
/// where no label is uneven. Fails for want of memory alone.
pub fn lines_by_rank(
    alloc: Global,
    ssa: &Ssa,
    program: &Program,
) -> Result<Items<Items<usize>>, AllocError>
    ensures { IfOk result (λ lines. lines ≡ lines_by_rank ssa.now program.now) }
{
    let kernel = unit_accesses(alloc, ssa.units.as_slice())?;
    let lines = line_accesses(alloc, program.lines.as_slice())?;
    let labels = byte_labels(alloc, &kernel)?;
    let pairs = by_rank(alloc, &labels, &lines)?;
    Ok(Items::from_vec(pairs))
}

// The same of the labels of the kernel, and of what lines access.
fn by_rank(
    alloc: Global,
    labels: &[ByteLabel],
    lines: &[Option<Access>],
) -> Result<Vec<Items<usize>>, AllocError>
    ensures { IfOk result (λ pairs. pairs.items ≡ by_rank (map label_of labels.now) lines.now) }
{
    let mut heads = Heads::new(alloc, labels)?;
    let pairs = heads.take_all(alloc, lines)?;
    Ok(pairs)
}

fn event_at(events: &[usize], at: usize) -> usize
    requires { at < length events.now }
    ensures { result ≡ slice_index events.now at }
{
    events[at]
}

fn no_events(alloc: Global) -> Items<usize>
    ensures { result ≡ [] }
{
    Items::from_vec(Vec::new(alloc))
}

/// The number that is noted for a label, or this one.
fn number_or(numbers: &LabelNumbers, label: ByteLabel, none: usize) -> usize
    ensures { result ≡ unwrap_or (noted numbers.now (label_of label)) none }
{
    numbers.get(label).unwrap_or(none)
}

impl Heads {
    /// With no event taken.
    fn new(alloc: Global, labels: &[ByteLabel]) -> Result<Heads, AllocError>
        ensures { IfOk result (AreHeads (map label_of labels.now) []) }
    {
        let count = labels.len();
        let mut first = LabelNumbers::new(alloc);
        let mut next = vec![in alloc; count; count]?;
        let mut left = count;
        'events: while left > 0 {
            left -= 1;
            let label = labels[left];
            next[left] = number_or(&first, label, count);
            first.set(label, left)?;
        }
        Ok(Heads { first, next })
    }

    /// Takes the next event of a label.
    fn take(&mut self, label: ByteLabel) -> Result<usize, AllocError>
        ensures { IfOk result (λ event. Pairs self.old self.new (label_of label ∷ []) (event ∷
            [])) }
    {
        let all = self.next.as_slice();
        let count = all.len();
        let event = number_or(&self.first, label, count);
        if event >= count {
            return Ok(event);
        }
        let next = event_at(all, event);
        self.first.set(label, next)?;
        Ok(event)
    }

    /// Takes the events of an access.
    fn take_access(&mut self, alloc: Global, access: Access) -> Result<Items<usize>, AllocError>
        ensures { IfOk result (λ events. Pairs self.old self.new (labels_of access) events) }
    {
        let mut events = Vec::new(alloc);
        'bytes: for byte in 0..access.size {
            let event = self.take(ByteLabel::of(access, byte))?;
            events.push(event)?;
        }
        Ok(Items::from_vec(events))
    }

    /// Takes the events of an access, if there is one.
    fn take_any(
        &mut self,
        alloc: Global,
        access: Option<Access>,
    ) -> Result<Items<usize>, AllocError>
        ensures { IfOk result (λ events. Pairs self.old self.new (labels_in access) events) }
    {
        match access {
            None => Ok(no_events(alloc)),
            Some(access) => self.take_access(alloc, access),
        }
    }

    /// Takes the events of accesses.
    fn take_all(
        &mut self,
        alloc: Global,
        accesses: &[Option<Access>],
    ) -> Result<Vec<Items<usize>>, AllocError>
        ensures { IfOk result (λ pairs. PairsAll self.old self.new accesses.now pairs.items) }
    {
        let mut pairs = Vec::new(alloc);
        'accesses: for access in accesses {
            let events = self.take_any(alloc, *access)?;
            pairs.push(events)?;
        }
        Ok(pairs)
    }
}
