//! The lines on the instances of entries.

ghost use Rattle.std.specs.Prelude.{◌≡◌, ◌++◌, ◌<◌, ◌≤◌, ◌-◌, ℕ, IfOk, OnOk, map};
ghost use Rattle.std.specs.List.{flat_map};
ghost use Rattle.vg_catalog.specs.Catalogs.{entries_in};
ghost use Rattle.vg_catalog.specs.Entries.{entry_of};
ghost use Rattle.vg_catalog.specs.Written.{AllWritten};
ghost use Rattle.vg_entry_lanes.specs.Laws.{HaveLanes};
ghost use Rattle.vg_lift.specs.Instances.{HasInstance, HasLanes};
ghost use Rattle.vg_lift_text.specs.Listed.{entries_text, entry_text, lines_of};
ghost use Rattle.vg_names.specs.Written.{IsWritten};
ghost use Rattle.vg_range.specs.Checks.{header_in, operation_in};
ghost use Rattle.vg_shapes.specs.Order.{numbers_from};

use std::alloc::{AllocError, Global};
use vg_catalog::Catalog;
use vg_lanes::list_instance;
use vg_lift::lanes_of;
use vg_pool::Pool;
use vg_range::Checked;

/// Appends the lines on one instance of an entry.
#[tactic(auto, using(vg_entry_lanes::proofs::Lanes::are_lanes))]
fn list_lanes(
    pool: &mut Pool,
    alloc: Global,
    entry: &Checked,
    imm: u8,
    to: &mut Vec<u8>,
) -> Result<(), AllocError>
    requires written { IsWritten (header_in entry.now) (operation_in entry.now) }
    requires range { HasInstance (header_in entry.now) imm }
    requires lanes { HasLanes (header_in entry.now) }
    ensures { OnOk result (to.new.items ≡ to.old.items ++ lines_of (header_in entry.now)
        (operation_in entry.now) imm) }
{
    let lanes = lanes_of(pool, alloc, entry, imm)?;
    list_instance(alloc, entry.header(), imm, lanes, to)
}

/// Appends the lines on the instances of an entry for these immediates, the last one left out.
fn list_range(
    alloc: Global,
    entry: &Checked,
    first: u32,
    end: u32,
    to: &mut Vec<u8>,
) -> Result<(), AllocError>
    requires written { IsWritten (header_in entry.now) (operation_in entry.now) }
    requires range { (imm : ℕ) → first ≤ imm → imm < end → HasInstance (header_in entry.now) imm }
    requires lanes { HasLanes (header_in entry.now) }
    requires bytes { end ≤ 256 }
    ensures { OnOk result (to.new.items ≡ to.old.items ++ flat_map (lines_of (header_in entry.now)
        (operation_in entry.now)) (numbers_from first (end - first))) }
{
    let mut pool = Pool::new(alloc);
    'immediates: for imm in first..end {
        list_lanes(&mut pool, alloc, entry, imm as u8, to)?;
    }
    Ok(())
}

/// Appends the lines on all instances of an entry, by rising immediate. They share the nodes of
/// their terms.
fn list_entry(alloc: Global, entry: &Checked, to: &mut Vec<u8>) -> Result<(), AllocError>
    requires written { IsWritten (header_in entry.now) (operation_in entry.now) }
    requires lanes { HasLanes (header_in entry.now) }
    ensures { OnOk result (to.new.items ≡ to.old.items ++ entry_text (entry_of entry.now)) }
{
    match &entry.header().imm {
        None => list_range(alloc, entry, 0, 1, to),
        Some(range) => list_range(
            alloc,
            entry,
            u32::from(range.lo),
            u32::from(range.hi) + 1,
            to,
        ),
    }
}

// The lines on all instances of entries, one entry after the other.
fn list_all(alloc: Global, entries: &[Checked]) -> Result<Vec<u8>, AllocError>
    requires written { AllWritten (map entry_of entries.now) }
    requires lanes { HaveLanes (map entry_of entries.now) }
    ensures { IfOk result (λ bytes. bytes.items ≡ entries_text (map entry_of entries.now)) }
{
    let mut to = Vec::new(alloc);
    let mut left = entries;
    'entries: while let [entry, behind @ ..] = left {
        list_entry(alloc, entry, &mut to)?;
        left = behind;
    }
    Ok(to)
}

/// The lines on all instances of the entries of a catalogue, one entry after the other. Each instance
/// has the line `instruction NAME`, with ` imm N` after it where it has an immediate; for each lane
/// `lane N TERM` with its canonical term, `lane N too large` or `lane N dynamic`; and
/// `not packable CAUSE` where packs cannot call it.
///
/// Fails for want of memory, also where the script of an instance would keep more than 2^24 slices,
/// operators, functions and choices while it is written out, where the script or the terms of an
/// entry have more than 2^24 nodes, or where the registers of a body have more than 2^21 bits
/// together.
pub fn list_entries(alloc: Global, catalog: &Catalog) -> Result<Vec<u8>, AllocError>
    ensures { IfOk result (λ bytes. bytes.items ≡ entries_text (entries_in catalog.now)) }
{
    list_all(alloc, catalog.entries())
}
