//! The entries of a file and their descriptions.
ghost use Rattle.std.specs.Prelude.{◌≡◌, map};
ghost use Rattle.vg_catalog.specs.Catalogs.{entries_in};
ghost use Rattle.vg_catalog.specs.Extensions.{bits_in};
ghost use Rattle.vg_descriptions.specs.Descriptions.{AreOf, descriptions as descriptions_in};
ghost use Rattle.vg_library.specs.Once.{are-of-once, same-once};
ghost use Rattle.vg_shapes.specs.Description.{description_of};

use std::alloc::{AllocError, Global};
use vg_catalog::{Catalog, Extensions};
use vg_descriptions::descriptions_of;
use vg_shapes::Description;

/// The entries of an instruction file, and the descriptions of the instances of those whose
/// extension is in a set: so they are described once, and any number of kernels compiled by them.
pub struct Library {
    catalog: Catalog,
    allowed: Extensions,
    descriptions: Vec<Description>,
    ghost all: { map description_of descriptions.items
        ≡ descriptions_in (bits_in allowed) (entries_in catalog) } by { same-once (map description_of descriptions.items) (descriptions_in (bits_in allowed) (entries_in catalog)) },
    ghost each: { AreOf (entries_in catalog) (map description_of descriptions.items) } by { are-of-once (entries_in catalog) (map description_of descriptions.items) },
}

/// Written out, so that the exits of an owner call it: a derived one would be proved anew at each.
impl Drop for Library {
    fn drop(self) {
        let Library {
            catalog: _,
            allowed: _,
            descriptions: _,
        } = self;
    }
}

impl Library {
    ghost use Rattle.std.specs.Prelude.{IfOk};
    ghost use Rattle.std.specs.List.{AllByRecursion};
    ghost use Rattle.vg_compile.specs.Described.{AreDescribed};
    ghost use Rattle.vg_emission.specs.Truth.{IsCallable};
    ghost use Rattle.vg_library.specs.Kept.{entries_kept, set_kept};

    /// The library of the entries of a catalogue, of which those may be called whose extension is
    /// in the set. Fails for want of memory, also at the bounds of `descriptions_of`.
    pub fn new(alloc: Global, catalog: Catalog, allowed: Extensions) -> Result<Library, AllocError>
        ensures entries { IfOk result (λ l. entries_kept l ≡ entries_in catalog) }
        ensures set { IfOk result (λ l. set_kept l ≡ bits_in allowed) }
    {
        let descriptions = descriptions_of(alloc, &catalog, allowed)?;
        Ok(Library {
            catalog,
            allowed,
            descriptions,
        })
    }

    /// The entries.
    pub fn catalog(&self) -> &Catalog
        ensures { entries_in result.now ≡ entries_kept self.now }
    {
        &self.catalog
    }

    /// The extensions whose entries may be called.
    pub fn allowed(&self) -> Extensions
        ensures { bits_in result ≡ set_kept self.now }
    {
        self.allowed
    }

    /// The descriptions of the instances that packs may call, as `descriptions_of` gives them.
    pub fn descriptions(&self) -> &[Description]
        ensures described { AreDescribed (entries_kept self.now) (set_kept self.now)
            (map description_of result.now) }
        ensures callable { AllByRecursion IsCallable (map description_of result.now) }
    {
        self.descriptions.as_slice()
    }
}
