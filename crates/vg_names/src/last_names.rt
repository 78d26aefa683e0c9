//! Names that may stand more than once, of which the last counts.

ghost use Rattle.std.specs.Prelude.{◌≡◌, None, ◌++◌, ◌∷◌, [], IfOk};
ghost use Rattle.vg_pseudo.specs.Names.{last_function};

use indexmap::IndexMap;
use std::alloc::{AllocError, Global};
use std::marker::Model;
use vg_base::Name;

/// Names in their order, and where the last of each stands.
pub(crate) struct LastNames {
    names: Vec<Name>,
    places: IndexMap<Vec<u8>, usize>,
}

/// Written out, so that the exits of an owner call it: a derived one would be proved anew at each.
impl Drop for LastNames {
    fn drop(self) {
        let LastNames {
            names: _,
            places: _,
        } = self;
    }
}

impl Model for LastNames {
    ghost use Rattle.std.specs.Prelude.{List, ℕ, vec_items};
    ghost use Rattle.vg_names.specs.LastPlaces.{AreLast};

    ghost Value = { List (List ℕ) };

    ghost view = { λ s. s.names.items };

    ghost invariant = { λ s. AreLast vec_items s.names.items s.places.entries };
}

impl LastNames {
    pub(crate) fn new(alloc: Global) -> LastNames
        ensures { result ≡ [] }
    {
        LastNames {
            names: Vec::new(alloc),
            places: IndexMap::new(alloc),
        }
    }

    /// And one name more.
    pub(crate) fn with(self, alloc: Global, name: &[u8]) -> Result<LastNames, AllocError>
        ensures { IfOk result (λ s. s ≡ self ++ name.now ∷ []) }
    {
        let LastNames {
            mut names,
            mut places,
        } = self;
        let place = names.as_slice().len();
        places.insert(Vec::from_slice(alloc, name)?, place)?;
        names.push(Name::new(alloc, name)?)?;
        Ok(LastNames { names, places })
    }

    /// Where the last of this name stands.
    pub(crate) fn last(&self, name: &[u8]) -> Option<usize>
        ensures { result ≡ last_function 0 None self.now name.now }
    {
        match self.places.get(name) {
            Some(place) => Some(*place),
            None => None,
        }
    }
}
