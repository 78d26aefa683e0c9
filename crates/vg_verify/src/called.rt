//! What a program calls.

ghost use Rattle.std.specs.Prelude.{◌≡◌, ◌<◌, IfOk, IfSome, OnOk, Some, length, map, slice_get};
ghost use Rattle.vg_catalog.specs.Catalogs.{entries_in};
ghost use Rattle.vg_catalog.specs.Entries.{entry_of};
ghost use Rattle.vg_verify.specs.Instances.{Answers, AreKept};

use crate::instance::{Instance, Lanes, imm_number, lanes_for};
use indexmap::IndexMap;
use std::alloc::{AllocError, Global};
use std::marker::Model;
use vg_catalog::Catalog;
use vg_forms::Maker;
use vg_program::{Line, Program};
use vg_range::Checked;

/// The most nodes of terms that are made canonical for one program: of the lanes of what it calls, and of
/// what is known of its values and of the kernel's.
const MOST_MADE: u64 = 16_777_216;

/// The instances of the instructions of a catalogue that a program calls, the lanes of each made once.
/// Contracts see it as the entries of the catalogue.
#[derive(Drop)]
pub struct Called<'a> {
    catalog: &'a Catalog,
    instances: IndexMap<Instance, Lanes>,
    left: u64,
}

impl<'a> Model for Called<'a> {
    ghost use Rattle.std.specs.Prelude.{List};
    ghost use Rattle.vg_catalog.specs.Catalogs.{entries_in};
    ghost use Rattle.vg_catalog.specs.Entries.{Entry};
    ghost use Rattle.std.specs.Coded.{codes};
    ghost use Rattle.vg_verify.specs.Coded.{expression_code, statements_code};
    ghost use Rattle.vg_verify.specs.Instances.{AreKept};

    ghost Value = { List Entry };

    ghost coded = { Prim.hlevel (codes, expression_code, statements_code) };

    ghost view = { λ c. entries_in c.catalog.now };

    ghost invariant = { λ c. AreKept (entries_in c.catalog.now) c.instances.entries };
}

// The entry at a place.
fn listed(entries: &[Checked], place: usize) -> &Checked
    requires { place < length entries.now }
    ensures { slice_get (map entry_of entries.now) place ≡ Some (entry_of result.now) }
{
    &entries[place]
}

// The entry of a catalogue at a place.
fn entry_at(catalog: &Catalog, place: usize) -> Option<&Checked>
    ensures { IfSome result
        (λ e. slice_get (entries_in catalog.now) place ≡ Some (entry_of e.now)) }
{
    let entries = catalog.entries();
    if place < entries.len() {
        Some(listed(entries, place))
    } else {
        None
    }
}

// Keeps an instance, where it is not kept yet.
fn keep(
    alloc: Global,
    catalog: &Catalog,
    maker: &mut Maker,
    instances: &mut IndexMap<Instance, Lanes>,
    instance: Instance,
) -> Result<(), AllocError>
    requires kept { AreKept (entries_in catalog.now) instances.old.entries }
    ensures { OnOk result (AreKept (entries_in catalog.now) instances.new.entries) }
{
    if instances.contains_key(&instance) {
        return Ok(());
    }
    match entry_at(catalog, instance.entry) {
        None => Err(AllocError),
        Some(entry) => {
            let lanes = lanes_for(alloc, maker, entry, instance.imm)?;
            instances.insert(instance, lanes)?;
            Ok(())
        }
    }
}

// Keeps what a line calls. Fails also where that is nothing of the catalogue.
fn keep_line(
    alloc: Global,
    catalog: &Catalog,
    maker: &mut Maker,
    instances: &mut IndexMap<Instance, Lanes>,
    line: &Line,
) -> Result<(), AllocError>
    requires kept { AreKept (entries_in catalog.now) instances.old.entries }
    ensures { OnOk result (AreKept (entries_in catalog.now) instances.new.entries) }
{
    match line {
        Line::Call { name, imm, .. } => match catalog.find(name.bytes()) {
            None => Err(AllocError),
            Some(entry) => {
                let imm = imm_number(*imm);
                keep(alloc, catalog, maker, instances, Instance { entry, imm })
            }
        },
        _ => Ok(()),
    }
}

// What lines call.
fn instances_of(
    alloc: Global,
    catalog: &Catalog,
    maker: &mut Maker,
    lines: &[Line],
) -> Result<IndexMap<Instance, Lanes>, AllocError>
    ensures { IfOk result (λ m. AreKept (entries_in catalog.now) m.entries) }
{
    let mut instances = IndexMap::new(alloc);
    'lines: for line in lines {
        keep_line(alloc, catalog, maker, &mut instances, line)?;
    }
    Ok(instances)
}

impl<'a> Called<'a> {
    /// What a program calls of the instructions of a catalogue. Fails for want of memory, also at the bounds of
    /// `vg_lift::lift_entry` and past 2^24 nodes of all lanes, and for a call that no valid program has. The
    /// nodes of the lanes are not left for values.
    pub fn new(
        alloc: Global,
        catalog: &'a Catalog,
        program: &Program,
    ) -> Result<Called<'a>, AllocError>
        ensures entries { IfOk result (λ c. c ≡ entries_in catalog.now) }
    {
        let mut maker = Maker::new(alloc, MOST_MADE);
        let instances = instances_of(alloc, catalog, &mut maker, program.lines.as_slice())?;
        Ok(Called {
            catalog,
            instances,
            left: maker.nodes_left(),
        })
    }

    /// How many nodes of terms of values may be made canonical.
    pub fn nodes_left(&self) -> u64 {
        self.left
    }

    /// The lanes of what a name calls with an immediate, where that is kept.
    pub(crate) fn lanes(&self, name: &[u8], imm: Option<u8>) -> Option<&Lanes>
        ensures { IfSome result (λ l. Answers self.now name.now imm l.now) }
    {
        match self.catalog.find(name) {
            None => None,
            Some(entry) => {
                let imm = imm_number(imm);
                self.instances.get(&Instance { entry, imm })
            }
        }
    }
}
