//! How the events of lines balance those of a kernel.

ghost use Rattle.std.specs.Prelude.{◌≡◌, [], ◌∷◌, IfOk, OnOk, Some, if◌then◌else◌, map, nat_lt};
ghost use Rattle.vg_paired.specs.Balances.{IsBalance, number_of, Takes, WithLeft};
ghost use Rattle.vg_paired.specs.ByteLabels.{label_of};
ghost use Rattle.std.specs.Option.{option_map};
ghost use Rattle.vg_known.specs.Labels.{lesser};
ghost use Rattle.vg_events.specs.Events.{Label, labels, labels_in, labels_of};
ghost use Rattle.vg_events.specs.Ranks.{count_label};

use crate::byte_label::ByteLabel;
use crate::label_numbers::LabelNumbers;
use std::alloc::{AllocError, Global};
use vg_shapes::Access;

/// For each label how many events of a kernel are left after those that lines have, and the least label
/// of which they have more than the kernel.
#[derive(Drop)]
pub(crate) struct Balance {
    left: LabelNumbers,
    least: Option<ByteLabel>,
}

/// The lesser of two labels.
fn lesser(least: Option<ByteLabel>, label: ByteLabel) -> ByteLabel
    ensures { label_of result ≡ lesser (label_of label) (option_map label_of least) }
{
    match least {
        None => label,
        Some(other) => { if other.is_before(label) { other } else { label } }
    }
}

/// The number of a label; 0 where none is noted.
fn number_of(numbers: &LabelNumbers, label: ByteLabel) -> usize
    ensures { result ≡ number_of numbers.now (label_of label) }
{
    numbers.get(label).unwrap_or(0)
}

/// The lesser of two labels where some are left of the second, else the first.
fn with_left(least: Option<ByteLabel>, left: usize, label: ByteLabel) -> Option<ByteLabel>
    ensures { option_map label_of result
        ≡ (if nat_lt 0 left then Some (lesser (label_of label) (option_map label_of least))
        else option_map label_of least) }
{
    if left > 0 {
        Some(lesser(least, label))
    } else {
        least
    }
}

/// How many events each label has.
fn tally(alloc: Global, labels: &[ByteLabel]) -> Result<LabelNumbers, AllocError>
    ensures { IfOk result (λ n. (l : Label) → number_of n l ≡ count_label l (map label_of
        labels.now)) }
{
    let mut counts = LabelNumbers::new(alloc);
    'labels: for label in labels {
        let count = number_of(&counts, *label);
        counts.set(*label, count + 1)?;
    }
    Ok(counts)
}

impl Balance {
    /// With no event of lines yet.
    pub(crate) fn new(alloc: Global, labels: &[ByteLabel]) -> Result<Balance, AllocError>
        ensures { IfOk result (IsBalance (map label_of labels.now) []) }
    {
        let left = tally(alloc, labels)?;
        Ok(Balance { left, least: None })
    }

    /// Takes an event.
    fn take(&mut self, label: ByteLabel) -> Result<(), AllocError>
        ensures { OnOk result (Takes self.old self.new (label_of label ∷ [])) }
    {
        let left = number_of(&self.left, label);
        if left > 0 {
            self.left.set(label, left - 1)?;
        } else {
            self.least = Some(lesser(self.least, label));
        }
        Ok(())
    }

    /// Takes the events of an access.
    fn take_access(&mut self, access: Access) -> Result<(), AllocError>
        ensures { OnOk result (Takes self.old self.new (labels_of access)) }
    {
        'bytes: for byte in 0..access.size {
            self.take(ByteLabel::of(access, byte))?;
        }
        Ok(())
    }

    /// Takes the events of an access, if there is one.
    fn take_any(&mut self, access: Option<Access>) -> Result<(), AllocError>
        ensures { OnOk result (Takes self.old self.new (labels_in access)) }
    {
        match access {
            None => Ok(()),
            Some(access) => self.take_access(access),
        }
    }

    /// Takes the events of accesses.
    pub(crate) fn take_all(&mut self, accesses: &[Option<Access>]) -> Result<(), AllocError>
        ensures { OnOk result (Takes self.old self.new (labels accesses.now)) }
    {
        'accesses: for access in accesses {
            self.take_any(*access)?;
        }
        Ok(())
    }

    /// The least label of which there are more on one side, where these are the labels of the kernel.
    pub(crate) fn least(&self, labels: &[ByteLabel]) -> Option<ByteLabel>
        ensures { WithLeft self.now.left (map label_of labels.now) (option_map label_of
            self.now.least) (option_map label_of result) }
    {
        let mut least = self.least;
        'labels: for label in labels {
            let left = number_of(&self.left, *label);
            least = with_left(least, left, *label);
        }
        least
    }
}
