//! Entries that are found by their names.

ghost use Rattle.std.specs.Prelude.{◌≡◌, map, vec_items, IfOk, OnOk};
ghost use Rattle.vg_catalog.specs.Entries.{entry_of};
ghost use Rattle.vg_machine.specs.FirstPlaces.{AreFirst, Notes, place_from};

use indexmap::IndexMap;
use std::alloc::{AllocError, Global};
use vg_range::Checked;

/// Entries, and where the first of each name stands.
#[derive(Drop)]
pub(crate) struct NamedEntries<'a> {
    pub(crate) entries: &'a [Checked],
    places: IndexMap<Vec<u8>, usize>,
    ghost first: { AreFirst vec_items (map entry_of entries.now) places.entries },
}

/// Notes a place for a name, where none is noted yet.
fn note(
    alloc: Global,
    places: &mut IndexMap<Vec<u8>, usize>,
    name: &[u8],
    place: usize,
) -> Result<(), AllocError>
    ensures { OnOk result (Notes vec_items places.old.entries places.new.entries name.now place) }
{
    if places.contains_key(name) {
        return Ok(());
    }
    let key = Vec::from_slice(alloc, name)?;
    places.insert(key, place)?;
    Ok(())
}

/// Where the first entry of each name stands.
fn first_places(alloc: Global, entries: &[Checked]) -> Result<IndexMap<Vec<u8>, usize>, AllocError>
    ensures { IfOk result (λ places. AreFirst vec_items (map entry_of entries.now) places.entries) }
{
    let mut places = IndexMap::new(alloc);
    'entries: for place in 0..entries.len() {
        let entry = &entries[place];
        note(alloc, &mut places, entry.header().name.bytes(), place)?;
    }
    Ok(places)
}

impl<'a> NamedEntries<'a> {
    pub(crate) fn new(alloc: Global, entries: &'a [Checked]) -> Result<NamedEntries<'a>, AllocError>
        ensures { IfOk result (λ n. n.entries.now ≡ entries.now) }
    {
        let places = first_places(alloc, entries)?;
        Ok(NamedEntries { entries, places })
    }

    /// Where the first entry of this name stands.
    pub(crate) fn find(&self, name: &[u8]) -> Option<usize>
        ensures place { result ≡ place_from 0 (map entry_of self.now.entries.now) name.now }
    {
        match self.places.get(name) {
            Some(place) => Some(*place),
            None => None,
        }
    }
}
