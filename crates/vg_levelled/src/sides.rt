//! How often both sides access each byte.

ghost use Rattle.std.specs.Prelude.{◌≡◌, ◌-◌, ◌&&◌};
ghost use Rattle.std.specs.List.{list_all};
ghost use Rattle.vg_events.specs.Events.{labels_of};
ghost use Rattle.vg_paired.specs.ByteLabels.{label_of};
ghost use Rattle.vg_paired.specs.Tallies.{count_in};
ghost use Rattle.vg_levelled.specs.Levelled.{copies_for, copies_of, is_common, is_missing, is_touched, most_lacking, store_at};

use vg_paired::{ByteLabel, Tally};
use vg_shapes::{Access, SsaUnit};

/// Of each pointer whether stores of the kernel may write any of its bytes, and how many events each label has
/// on both sides so far.
#[derive(Drop)]
pub(crate) struct Sides {
    pub(crate) met: Vec<bool>,
    pub(crate) kernel: Tally,
    pub(crate) program: Tally,
}

/// The same byte, written.
fn written(label: ByteLabel) -> ByteLabel
    ensures { label_of result ≡ store_at (label_of label).address }
{
    ByteLabel {
        writes: true,
        pointer: label.pointer,
        offset: label.offset,
    }
}

fn both(a: bool, b: bool) -> bool
    ensures { result ≡ (a && b) }
{
    a && b
}

impl Sides {
    fn is_touched(&self, label: ByteLabel) -> bool
        ensures { result ≡ is_touched self.now.met.items (count_in self.now.kernel) (label_of label).address }
    {
        let met = self.met.get(label.pointer as usize).copied();
        met.unwrap_or(true) || self.kernel.count(written(label)) > 0
    }

    /// Whether no store touches a byte, and the program loads it.
    fn is_common(&self, label: ByteLabel) -> bool
        ensures { result ≡ is_common self.now.met.items (count_in self.now.kernel)
            (count_in self.now.program) (label_of label) }
    {
        !self.is_touched(label) && self.program.count(label) > 0
    }

    /// Whether the kernel loads such a byte more often.
    pub(crate) fn is_missing(&self, label: ByteLabel) -> bool
        ensures { result ≡ is_missing self.now.met.items (count_in self.now.kernel)
            (count_in self.now.program) (label_of label) }
    {
        !label.writes
            && (self.is_common(label) && self.program.count(label) < self.kernel.count(label))
    }

    /// Whether all bytes of an access are such.
    fn are_common(&self, access: Access) -> bool
        ensures { result ≡ list_all (is_common self.now.met.items (count_in self.now.kernel)
            (count_in self.now.program)) (labels_of access) }
    {
        let mut all = true;
        'bytes: for byte in 0..access.size {
            all = both(all, self.is_common(ByteLabel::of(access, byte)));
        }
        all
    }

    /// By how many loads the program has more of a byte.
    fn lacking(&self, label: ByteLabel) -> usize
        ensures { result ≡ count_in self.now.program (label_of label) - count_in self.now.kernel (label_of label) }
    {
        self.program
            .count(label)
            .saturating_sub(self.kernel.count(label))
    }

    /// The most that a byte of an access lacks.
    fn most_lacking(&self, access: Access) -> usize
        ensures { result ≡ most_lacking (count_in self.now.kernel) (count_in self.now.program) (labels_of access) }
    {
        let mut most = 0;
        'bytes: for byte in 0..access.size {
            most = self.lacking(ByteLabel::of(access, byte)).max(most);
        }
        most
    }

    /// How often an access is made once more.
    fn copies_for(&self, access: Access) -> usize
        ensures { result ≡ copies_for self.now.met.items (count_in self.now.kernel)
            (count_in self.now.program) access }
    {
        if !access.writes && self.are_common(access) {
            self.most_lacking(access)
        } else {
            0
        }
    }

    /// How often a unit is made once more.
    pub(crate) fn copies_of(&self, unit: &SsaUnit) -> usize
        ensures { result ≡ copies_of self.now.met.items (count_in self.now.kernel)
            (count_in self.now.program) unit.now }
    {
        match unit.access() {
            None => 0,
            Some(access) => self.copies_for(access),
        }
    }
}
