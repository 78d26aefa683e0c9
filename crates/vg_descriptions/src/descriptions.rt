//! The descriptions of the instances of a file.

ghost use Rattle.std.specs.Prelude.{◌≡◌, ◌++◌, ◌∷◌, [], ◌<◌, ◌≤◌, ◌-◌, ℕ, IfOk, OnOk, map};
ghost use Rattle.std.specs.List.{flat_map};
ghost use Rattle.vg_catalog.specs.Catalogs.{entries_in};
ghost use Rattle.vg_catalog.specs.Entries.{entry_of};
ghost use Rattle.vg_catalog.specs.Extensions.{bits_in};
ghost use Rattle.vg_catalog.specs.Written.{AllWritten};
ghost use Rattle.vg_entry_lanes.specs.Laws.{HaveLanes};
ghost use Rattle.vg_descriptions.specs.Descriptions.{AreOf, IsNumbered, StayOf, descriptions, entry_descriptions, instance_description, is_in_set};
ghost use Rattle.vg_descriptions.specs.Proper.{AreProper, IsProper};
ghost use Rattle.vg_lift.specs.Instances.{HasInstance, HasLanes};
ghost use Rattle.vg_names.specs.Written.{IsWritten};
ghost use Rattle.vg_range.specs.Checks.{header_in, operation_in};
ghost use Rattle.vg_shapes.specs.Description.{description_of};
ghost use Rattle.vg_shapes.specs.Order.{numbers_from};

use bitflags::Flags;
use std::alloc::{AllocError, Global};
use vg_catalog::{Catalog, Extensions};
use vg_lanes::{Described, describe};
use vg_lift::lanes_of;
use vg_pool::Pool;
use vg_range::Checked;
use vg_shapes::Description;
use vg_terms::Term;

/// The most nodes of the terms of all descriptions.
const MOST_NODES: u64 = 1 << 24;

/// Descriptions that have been found, in order.
#[derive(Drop)]
struct Found {
    descriptions: Vec<Description>,
    /// How many nodes their terms have.
    nodes: u64,
}

impl Found {
    // One description more. Fails for want of memory, or where the terms of all have more than
    // `2 ^ 24` nodes.
    fn push(&mut self, found: Description) -> Result<(), AllocError>
        ensures { OnOk result (self.new.descriptions.items ≡ self.old.descriptions.items ++ found ∷
            []) }
    {
        let nodes = self.nodes.saturating_add(nodes_of(found.lanes.as_slice()));
        if nodes > MOST_NODES {
            return Err(AllocError);
        }
        self.nodes = nodes;
        self.descriptions.push(found)?;
        Ok(())
    }
}

// How many nodes terms have.
fn nodes_of(terms: &[Term]) -> u64 {
    let mut nodes = 0u64;
    'terms: for term in terms {
        nodes = nodes.saturating_add(term.node_count());
    }
    nodes
}

// Whether the extension of this place is in a set, which has 16 places.
#[tactic(auto, using(crate::proofs::Bits::no_place))]
fn is_in_set(set: Extensions, place: u8) -> bool
    ensures { result ≡ is_in_set (bits_in set) place }
{
    if place >= 16 {
        return false;
    }
    (set.bits() >> place) % 2 == 1
}

// Appends the description of one instance of an entry, where packs may call it.
fn add_instance(
    pool: &mut Pool,
    alloc: Global,
    entry: &Checked,
    imm: u8,
    to: &mut Found,
) -> Result<(), AllocError>
    requires written { IsWritten (header_in entry.now) (operation_in entry.now) }
    requires range { HasInstance (header_in entry.now) imm }
    requires number { IsNumbered (header_in entry.now) imm }
    requires lanes { HasLanes (header_in entry.now) }
    requires proper { IsProper (header_in entry.now) }
    ensures is { OnOk result (map description_of to.new.descriptions.items
        ≡ map description_of to.old.descriptions.items
        ++ instance_description (header_in entry.now) (operation_in entry.now) imm) }
    ensures stay { OnOk result (StayOf (entry_of entry.now)
        (map description_of to.old.descriptions.items)
        (map description_of to.new.descriptions.items)) }
{
    let lanes = lanes_of(pool, alloc, entry, imm)?;
    match describe(alloc, entry.header(), imm, lanes)? {
        Described::Packable(found) => to.push(found),
        Described::NotPackable { .. } => Ok(()),
    }
}

// Appends the descriptions of the instances of an entry for these immediates, the last one left out.
fn add_range(
    alloc: Global,
    entry: &Checked,
    first: u32,
    end: u32,
    to: &mut Found,
) -> Result<(), AllocError>
    requires written { IsWritten (header_in entry.now) (operation_in entry.now) }
    requires range { (imm : ℕ) → first ≤ imm → imm < end → HasInstance (header_in entry.now) imm }
    requires numbers { (imm : ℕ) → first ≤ imm → imm < end → IsNumbered (header_in entry.now) imm }
    requires lanes { HasLanes (header_in entry.now) }
    requires proper { IsProper (header_in entry.now) }
    requires bytes { end ≤ 256 }
    ensures is { OnOk result (map description_of to.new.descriptions.items
        ≡ map description_of to.old.descriptions.items
        ++ flat_map (instance_description (header_in entry.now) (operation_in entry.now))
        (numbers_from first (end - first))) }
    ensures stay { OnOk result (StayOf (entry_of entry.now)
        (map description_of to.old.descriptions.items)
        (map description_of to.new.descriptions.items)) }
{
    let mut pool = Pool::new(alloc);
    'immediates: for imm in first..end {
        add_instance(&mut pool, alloc, entry, imm as u8, to)?;
    }
    Ok(())
}

// Appends the descriptions of all instances of an entry, by rising immediate. They share the nodes of
// their terms while they are lifted.
fn add_entry(alloc: Global, entry: &Checked, to: &mut Found) -> Result<(), AllocError>
    requires written { IsWritten (header_in entry.now) (operation_in entry.now) }
    requires lanes { HasLanes (header_in entry.now) }
    requires proper { IsProper (header_in entry.now) }
    ensures is { OnOk result (map description_of to.new.descriptions.items
        ≡ map description_of to.old.descriptions.items ++ entry_descriptions (entry_of entry.now)) }
    ensures stay { OnOk result (StayOf (entry_of entry.now)
        (map description_of to.old.descriptions.items)
        (map description_of to.new.descriptions.items)) }
{
    match &entry.header().imm {
        None => add_range(alloc, entry, 0, 1, to),
        Some(range) => add_range(
            alloc,
            entry,
            u32::from(range.lo),
            u32::from(range.hi) + 1,
            to,
        ),
    }
}

// The descriptions of the instances of entries whose extension is in a set.
fn all_descriptions(
    alloc: Global,
    entries: &[Checked],
    allowed: Extensions,
) -> Result<Vec<Description>, AllocError>
    requires written { AllWritten (map entry_of entries.now) }
    requires lanes { HaveLanes (map entry_of entries.now) }
    requires proper { AreProper (map entry_of entries.now) }
    ensures is { IfOk result (λ ds. map description_of ds.items
        ≡ descriptions (bits_in allowed) (map entry_of entries.now)) }
    ensures are_of { IfOk result (λ ds.
        AreOf (map entry_of entries.now) (map description_of ds.items)) }
{
    let mut found = Found {
        descriptions: Vec::new(alloc),
        nodes: 0,
    };
    let mut left = entries;
    'entries: while let [entry, behind @ ..] = left {
        if is_in_set(allowed, entry.header().extension) {
            add_entry(alloc, entry, &mut found)?;
        }
        left = behind;
    }
    Ok(found.descriptions)
}

/// The descriptions of the instances that packs may call, of the entries of a catalogue whose extension
/// is in the set: in the order of the entries, and by rising immediate. Each is true: for all
/// registers the terms of its lanes have the numbers of the lanes of what the text of its entry
/// means.
///
/// Fails for want of memory, also where the terms of all descriptions have more than 2^24 nodes,
/// and where lifting the lanes of an entry meets a bound of `vg_lift::lift_entry`.
pub fn descriptions_of(
    alloc: Global,
    catalog: &Catalog,
    allowed: Extensions,
) -> Result<Vec<Description>, AllocError>
    ensures is { IfOk result (λ ds. map description_of ds.items
        ≡ descriptions (bits_in allowed) (entries_in catalog.now)) }
    ensures are_of { IfOk result (λ ds.
        AreOf (entries_in catalog.now) (map description_of ds.items)) }
{
    all_descriptions(alloc, catalog.entries(), allowed)
}
