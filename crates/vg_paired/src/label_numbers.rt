//! Numbers by label.

ghost use Rattle.std.specs.Prelude.{◌≡◌, None, OnOk};
ghost use Rattle.vg_paired.specs.ByteLabels.{label_of};
ghost use Rattle.vg_events.specs.Events.{Label};
ghost use Rattle.vg_paired.specs.Noted.{noted, Notes};

use crate::byte_label::ByteLabel;
use indexmap::IndexMap;
use std::alloc::{AllocError, Global};

/// For some labels a number.
#[derive(Drop)]
pub(crate) struct LabelNumbers {
    numbers: IndexMap<ByteLabel, usize>,
}

impl LabelNumbers {
    /// No numbers.
    pub(crate) fn new(alloc: Global) -> LabelNumbers
        ensures { (l : Label) → noted result l ≡ None }
    {
        LabelNumbers {
            numbers: IndexMap::new(alloc),
        }
    }

    /// The number that is noted for a label.
    pub(crate) fn get(&self, label: ByteLabel) -> Option<usize>
        ensures { result ≡ noted self.now (label_of label) }
    {
        self.numbers.get(&label).copied()
    }

    /// Notes a number for a label, in the place of the one before.
    pub(crate) fn set(&mut self, label: ByteLabel, number: usize) -> Result<(), AllocError>
        ensures { OnOk result (Notes self.old self.new (label_of label) number) }
    {
        self.numbers.insert(label, number)?;
        Ok(())
    }
}
