//! The entries of a file.

ghost use Rattle.std.specs.Prelude.{◌≡◌, ◌≤◌, map, vec_items};
ghost use Rattle.vg_catalog.specs.Entries.{IsKept, entry_of, instances_of};
ghost use Rattle.vg_catalog.specs.FileEntries.{AreFileEntries, file-entries-prop};

use indexmap::IndexSet;
use std::alloc::{AllocError, Global};
use vg_pseudo::{Header, ImmRange};
use vg_range::Checked;

/// The entries of a file, in their order. Each has a header with a name, registers of 128, 256 or
/// 512 bits, lanes that fill the result, at most four parameters, an immediate of a byte if it has
/// one, and a cost of at least 1, and an operation that a text can say; no two have one name
/// (`specs/FileEntries.antt`; in proofs `catalog-entries` of `proofs/Kept.antt`). Contracts see the
/// list of their headers and operations, `entries_in` of `specs/`.
pub struct Catalog {
    entries: Vec<Checked>,
    headers: Vec<Header>,
    names: IndexSet<Vec<u8>>,
    instances: u32,
    ghost kept: { IsKept (map entry_of entries.items) headers.items
        (map vec_items names.keys) instances },
    ghost read: { AreFileEntries (map entry_of entries.items) } by { file-entries-prop (map entry_of entries.items) },
}

/// Written out, so that the exits of an owner call it: a derived one would be proved anew at each.
impl Drop for Catalog {
    fn drop(self) {
        let Catalog {
            entries: _,
            headers: _,
            names: _,
            instances: _,
        } = self;
    }
}

/// How many instances an entry has: one for each immediate, or one.
fn instances_of(imm: &Option<ImmRange>) -> u32
    ensures count { result ≡ instances_of imm.now }
    ensures few { result ≤ 256 }
{
    match imm {
        Some(range) => u32::from(range.hi.saturating_sub(range.lo)) + 1,
        None => 1,
    }
}

impl Catalog {
    ghost use Rattle.std.specs.Prelude.{◌+◌, ◌++◌, ◌∷◌, [], false, nat_le, IfOk};
    ghost use Rattle.vg_catalog.specs.Catalogs.{entries_in};
    ghost use Rattle.vg_catalog.specs.Entries.{entry_place, is_known, instances, name_of};
    ghost use Rattle.vg_catalog.specs.FileEntries.{IsFileEntry};
    ghost use Rattle.vg_catalog.specs.Written.{AllWritten};

    /// The catalogue of no entry.
    pub(crate) fn new(alloc: Global) -> Catalog
        ensures { entries_in result ≡ [] }
    {
        Catalog {
            entries: Vec::new(alloc),
            headers: Vec::new(alloc),
            names: IndexSet::new(alloc),
            instances: 0,
        }
    }

    /// The entries in their order. The registers and numbers of each are no larger than a text can
    /// say. Takes no memory.
    pub fn entries(&self) -> &[Checked]
        ensures entries { map entry_of result.now ≡ entries_in self.now }
        ensures written { AllWritten (map entry_of result.now) }
    {
        self.entries.as_slice()
    }

    /// The headers of the entries, in the same order. Takes no memory.
    pub fn headers(&self) -> &[Header]
        ensures headers { result.now ≡ map (λ e. e.header) (entries_in self.now) }
    {
        self.headers.as_slice()
    }

    /// The index of the entry of this name. None exactly where there is none. Takes no memory.
    pub fn find(&self, name: &[u8]) -> Option<usize>
        ensures place { result ≡ entry_place (entries_in self.now) name.now }
    {
        self.names.get_index_of(name)
    }

    /// Whether an entry has this name.
    pub(crate) fn is_known(&self, name: &[u8]) -> bool
        ensures { result ≡ is_known (entries_in self.now) name.now }
    {
        self.names.contains(name)
    }

    /// Whether the instances of one entry more, which has this immediate, still fit.
    pub(crate) fn has_room(&self, imm: &Option<ImmRange>) -> bool
        ensures { result ≡ nat_le (instances (entries_in self.now) + instances_of imm.now) 4096 }
    {
        self.instances + instances_of(imm) <= 4096
    }

    /// The catalogue with this entry after its own. Fails for want of memory alone.
    pub(crate) fn and(self, alloc: Global, checked: Checked) -> Result<Catalog, AllocError>
        requires read { IsFileEntry (entry_of checked) }
        requires fresh { is_known (entries_in self) (name_of (entry_of checked)) ≡ false }
        requires room { instances (entries_in self)
            + instances_of (entry_of checked).header.imm ≤ 4096 }
        ensures more { IfOk result (λ c. entries_in c ≡ entries_in self ++ entry_of checked ∷ []) }
    {
        let header = checked.header().copy(alloc)?;
        let name = Vec::from_slice(alloc, header.name.bytes())?;
        let Catalog {
            mut entries,
            mut headers,
            mut names,
            instances,
        } = self;
        let instances = instances + instances_of(&header.imm);
        names.insert(name)?;
        headers.push(header)?;
        entries.push(checked)?;
        Ok(Catalog {
            entries,
            headers,
            names,
            instances,
        })
    }
}
