//! What units and lines access, and the labels of their events.

ghost use Rattle.std.specs.Prelude.{◌≡◌, ◌&&◌, ◌++◌, filter, IfOk, length, map, OnOk, Some};
ghost use Rattle.vg_paired.specs.ByteLabels.{label_of};
ghost use Rattle.vg_events.specs.Events.{labels, labels_in, labels_of};
ghost use Rattle.vg_paired.specs.Holding.{has_label, lies_within};
ghost use Rattle.vg_events.specs.Lines.{line_access};
ghost use Rattle.vg_events.specs.Ranks.{count_label};
ghost use Rattle.vg_shapes.specs.Layout.{access_of};

use crate::byte_label::ByteLabel;
use std::alloc::{AllocError, Global};
use vg_base::Address;
use vg_program::Line;
use vg_shapes::{Access, SsaUnit};

/// What units access, in their order. Fails for want of memory alone.
pub fn unit_accesses(alloc: Global, units: &[SsaUnit]) -> Result<Vec<Option<Access>>, AllocError>
    ensures { IfOk result (λ xs. xs.items ≡ map access_of units.now) }
{
    units.iter().map(|unit| unit.access()).collect(alloc)
}

/// What lines access, in their order. Fails for want of memory alone.
pub fn line_accesses(alloc: Global, lines: &[Line]) -> Result<Vec<Option<Access>>, AllocError>
    ensures { IfOk result (λ xs. xs.items ≡ map line_access lines.now) }
{
    let mut accesses = Vec::new(alloc);
    'lines: for line in lines {
        accesses.push(line_access(line))?;
    }
    Ok(accesses)
}

/// What a line reads or writes.
fn line_access(line: &Line) -> Option<Access>
    ensures { result ≡ line_access line.now }
{
    match line {
        Line::Load { width, address } => access(*address, width.size(), false),
        Line::Store { width, address, .. } => access(*address, width.size(), true),
        Line::VectorLoad { size, address } => access(*address, size.bytes(), false),
        Line::VectorStore { size, address, .. } => access(*address, size.bytes(), true),
        Line::Two { .. }
        | Line::Shift { .. }
        | Line::Resize { .. }
        | Line::Compare { .. }
        | Line::Select { .. }
        | Line::Constant { .. }
        | Line::Insert { .. }
        | Line::Extract { .. }
        | Line::Call { .. } => None,
    }
}

fn access(address: Address, size: u32, writes: bool) -> Option<Access>
    ensures { result ≡ Some (record { address = address; size = size; writes = writes }) }
{
    Some(Access {
        address,
        size,
        writes,
    })
}

/// The labels of the events of accesses.
pub(crate) fn byte_labels(
    alloc: Global,
    accesses: &[Option<Access>],
) -> Result<Vec<ByteLabel>, AllocError>
    ensures { IfOk result (λ ls. map label_of ls.items ≡ labels accesses.now) }
{
    let mut all = Vec::new(alloc);
    'accesses: for access in accesses {
        push_any(&mut all, *access)?;
    }
    Ok(all)
}

pub(crate) fn push_any(all: &mut Vec<ByteLabel>, access: Option<Access>) -> Result<(), AllocError>
    ensures { OnOk result (map label_of all.new.items ≡ map label_of all.old.items ++ labels_in
        access) }
{
    match access {
        None => Ok(()),
        Some(access) => push_labels(all, access),
    }
}

fn push_labels(all: &mut Vec<ByteLabel>, access: Access) -> Result<(), AllocError>
    ensures { OnOk result (map label_of all.new.items ≡ map label_of all.old.items ++ labels_of
        access) }
{
    'bytes: for byte in 0..access.size {
        all.push(ByteLabel::of(access, byte))?;
    }
    Ok(())
}

/// How many events of accesses have a label.
pub(crate) fn count_label(accesses: &[Option<Access>], label: ByteLabel) -> usize
    ensures { result ≡ count_label (label_of label) (labels accesses.now) }
{
    count_having(accesses, label)
}

/// How many accesses have an event of a label.
fn count_having(accesses: &[Option<Access>], label: ByteLabel) -> usize
    ensures { result ≡ length (filter (has_label (label_of label)) accesses.now) }
{
    accesses
        .iter()
        .filter(|access| has_label(**access, label))
        .count()
}

fn has_label(access: Option<Access>, label: ByteLabel) -> bool
    ensures { result ≡ has_label (label_of label) access }
{
    match access {
        None => false,
        Some(access) => {
            label.writes == access.writes
                && (label.pointer == access.address.pointer && lies_within(label, access))
        }
    }
}

fn lies_within(label: ByteLabel, access: Access) -> bool
    ensures { result ≡ lies_within (label_of label) access }
{
    let begin = access.address.offset as i64;
    let end = begin + access.size as i64;
    !(label.offset < begin) && label.offset < end
}
