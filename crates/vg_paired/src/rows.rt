//! The least lines of events.

ghost use Rattle.std.specs.Prelude.{◌≡◌, ◌∷◌, ℕ, List, [], length, OnOk};
ghost use Rattle.vg_events.specs.Events.{Label, label_at};
ghost use Rattle.vg_paired.specs.ByteLabels.{label_of};
ghost use Rattle.vg_paired.specs.Noted.{noted};
ghost use Rattle.vg_paired.specs.Rows.{any_below, AreRows, by_pointer, is_early_by, is_free, is_noted, is_noted_through, Lowers, Puts, within};

use crate::byte_label::ByteLabel;
use crate::label_numbers::LabelNumbers;
use std::alloc::{AllocError, Global};

/// The least lines of the events that were put in: of each label, and of each pointer the loads and the
/// stores, which are noted at its byte 0.
#[derive(Drop)]
pub(crate) struct Rows {
    bytes: LabelNumbers,
    pointers: LabelNumbers,
}

/// Whether the line that is noted for a label is no later than this one.
fn is_within(row: &LabelNumbers, label: ByteLabel, line: usize) -> bool
    ensures { result ≡ within (noted row.now (label_of label)) line }
{
    match row.get(label) {
        None => false,
        Some(least) => least <= line,
    }
}

/// Notes a line for a label where none before it is noted.
fn lower(row: &mut LabelNumbers, label: ByteLabel, line: usize) -> Result<(), AllocError>
    ensures { OnOk result (Lowers row.old row.new (label_of label) line) }
{
    if is_within(row, label, line) {
        return Ok(());
    }
    row.set(label, line)?;
    Ok(())
}

/// Whether a store is noted by this line, or a load where the other event writes.
fn is_noted(row: &LabelNumbers, byte: ByteLabel, writes: bool, line: usize) -> bool
    ensures { result ≡ is_noted row.now (label_of byte).address writes line }
{
    let store = ByteLabel {
        writes: true,
        pointer: byte.pointer,
        offset: byte.offset,
    };
    let load = ByteLabel {
        writes: false,
        pointer: byte.pointer,
        offset: byte.offset,
    };
    is_within(row, store, line) || (writes && is_within(row, load, line))
}

/// The label under which the events of a pointer are noted.
fn by_pointer(label: ByteLabel) -> ByteLabel
    ensures { label_of result ≡ by_pointer (label_of label) }
{
    ByteLabel {
        writes: label.writes,
        pointer: label.pointer,
        offset: 0,
    }
}

/// Whether a pointer is not noalias.
fn is_free(flags: &[bool], pointer: usize) -> bool
    ensures { result ≡ is_free flags.now pointer }
{
    !flags.get(pointer).copied().unwrap_or(false)
}

/// Whether an event through this pointer is noted, which has to be another one and not noalias.
fn is_noted_through(
    flags: &[bool],
    row: &LabelNumbers,
    label: ByteLabel,
    line: usize,
    pointer: u32,
) -> bool
    ensures { result ≡ is_noted_through flags.now row.now (label_of label) line pointer }
{
    let byte = ByteLabel {
        writes: false,
        pointer,
        offset: 0,
    };
    pointer != label.pointer
        && (is_free(flags, pointer as usize) && is_noted(row, byte, label.writes, line))
}

/// Whether an event through any other pointer is noted.
fn is_noted_through_any(
    flags: &[bool],
    row: &LabelNumbers,
    label: ByteLabel,
    line: usize,
    pointers: u32,
) -> bool
    ensures { result ≡ any_below pointers (is_noted_through flags.now row.now (label_of label)
        line) }
{
    let mut left = pointers;
    'pointers: while left > 0 {
        left -= 1;
        if is_noted_through(flags, row, label, line, left) {
            return true;
        }
    }
    false
}

impl Rows {
    /// Without events.
    pub(crate) fn new(alloc: Global) -> Rows
        ensures { (ls : List Label) (line : ℕ → ℕ) → AreRows ls line [] result }
    {
        Rows {
            bytes: LabelNumbers::new(alloc),
            pointers: LabelNumbers::new(alloc),
        }
    }

    /// Puts in an event with this label and this line.
    pub(crate) fn put(&mut self, label: ByteLabel, line: usize) -> Result<(), AllocError>
        ensures { OnOk result (Puts self.old self.new (label_of label) line) }
    {
        lower(&mut self.bytes, label, line)?;
        let pointer = by_pointer(label);
        lower(&mut self.pointers, pointer, line)?;
        Ok(())
    }

    /// Whether an event that was put in has to follow one with this label, and does not stand on a later
    /// line than this.
    pub(crate) fn is_early(
        &self,
        flags: &[bool],
        pointers: u32,
        label: ByteLabel,
        line: usize,
    ) -> bool
        ensures { result ≡ is_early_by flags.now pointers self.now (label_of label) line }
    {
        is_noted(&self.bytes, label, label.writes, line)
            || (is_free(flags, label.pointer as usize)
                && is_noted_through_any(flags, &self.pointers, label, line, pointers))
    }
}
