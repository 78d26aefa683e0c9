//! How many events each label has.

ghost use Rattle.std.specs.Prelude.{◌≡◌, [], ◌∷◌, OnOk};
ghost use Rattle.vg_paired.specs.Balances.{number_of};
ghost use Rattle.vg_paired.specs.ByteLabels.{label_of};
ghost use Rattle.vg_paired.specs.Tallies.{Adds, Counts, count_in};
ghost use Rattle.vg_events.specs.Events.{labels, labels_in, labels_of};

use crate::byte_label::ByteLabel;
use crate::label_numbers::LabelNumbers;
use std::alloc::{AllocError, Global};
use vg_shapes::Access;

/// How many events each label has.
#[derive(Drop)]
pub struct Tally {
    numbers: LabelNumbers,
}

impl Tally {
    /// Of no events.
    pub fn new(alloc: Global) -> Tally
        ensures { Counts [] result }
    {
        Tally {
            numbers: LabelNumbers::new(alloc),
        }
    }

    /// How many events have a label.
    pub fn count(&self, label: ByteLabel) -> usize
        ensures { result ≡ count_in self.now (label_of label) }
    {
        self.numbers.get(label).unwrap_or(0)
    }

    /// Adds an event. Fails for want of memory alone.
    pub fn add(&mut self, label: ByteLabel) -> Result<(), AllocError>
        ensures { OnOk result (Adds self.old self.new (label_of label ∷ [])) }
    {
        let count = self.count(label);
        if count == usize::MAX {
            return Err(AllocError);
        }
        self.numbers.set(label, count + 1)?;
        Ok(())
    }

    /// Adds the events of an access. Fails for want of memory alone.
    pub fn add_access(&mut self, access: Access) -> Result<(), AllocError>
        ensures { OnOk result (Adds self.old self.new (labels_of access)) }
    {
        'bytes: for byte in 0..access.size {
            self.add(ByteLabel::of(access, byte))?;
        }
        Ok(())
    }

    /// Adds the events of an access, if there is one. Fails for want of memory alone.
    pub fn add_any(&mut self, access: Option<Access>) -> Result<(), AllocError>
        ensures { OnOk result (Adds self.old self.new (labels_in access)) }
    {
        match access {
            None => Ok(()),
            Some(access) => self.add_access(access),
        }
    }

    /// Adds the events of accesses. Fails for want of memory alone.
    pub fn add_all(&mut self, accesses: &[Option<Access>]) -> Result<(), AllocError>
        ensures { OnOk result (Adds self.old self.new (labels accesses.now)) }
    {
        'accesses: for access in accesses {
            self.add_any(*access)?;
        }
        Ok(())
    }
}
