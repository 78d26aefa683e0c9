//! Labels of byte events.

ghost use Rattle.std.specs.Prelude.{◌≡◌, ◌+ℤ◌, pos};
ghost use Rattle.vg_paired.specs.ByteLabels.{is_below, label_of};
ghost use Rattle.vg_known.specs.Labels.{is_before};

use vg_shapes::Access;

/// What a byte event does, and to which byte.
#[derive(Clone, Copy, PartialEq, Eq, Hash)]
pub struct ByteLabel {
    /// Whether it writes the byte.
    pub writes: bool,
    /// The number of the pointer among the pointer parameters, from 0.
    pub pointer: u32,
    /// From the place of the pointer, in bytes.
    pub offset: i64,
}

impl ByteLabel {
    /// Of a byte of what is accessed: that of this number, from 0.
    pub fn of(access: Access, byte: u32) -> ByteLabel
        ensures { result ≡ record {
          writes = access.writes;
          pointer = access.address.pointer;
          offset = access.address.offset +ℤ pos byte;
        } }
    {
        ByteLabel {
            writes: access.writes,
            pointer: access.address.pointer,
            offset: access.address.offset as i64 + byte as i64,
        }
    }

    /// Whether it comes before another one: loads before stores, then by pointer, then by offset.
    pub(crate) fn is_before(self, other: ByteLabel) -> bool
        ensures { result ≡ is_before (label_of self) (label_of other) }
    {
        (!self.writes && other.writes) || (self.writes == other.writes && self.is_below(other))
    }

    fn is_below(self, other: ByteLabel) -> bool
        ensures { result ≡ is_below (label_of self).address (label_of other).address }
    {
        self.pointer < other.pointer
            || (self.pointer == other.pointer && self.offset < other.offset)
    }
}
