//! The names that statements gave, found by their bytes.

ghost use Rattle.std.specs.Prelude.{◌≡◌, ◌≤◌, None, [], ◌∷◌, ◌++◌, length, OnOk, OnErr};
ghost use Rattle.vg_kernel.specs.Names.{assigned_named};

use crate::given::Given;
use crate::value_type::ValueType;
use indexmap::IndexMap;
use std::alloc::{AllocError, Global};
use std::marker::Model;

/// Names in the order in which statements gave them, and what they name. Contracts see the list of
/// both.
#[derive(Drop)]
pub(crate) struct AssignedNames {
    types: IndexMap<Vec<u8>, ValueType>,
}

impl Model for AssignedNames {
    ghost use Rattle.std.specs.Prelude.{List, map};
    ghost use Rattle.vg_kernel.specs.Names.{AssignedName};

    ghost Value = { List AssignedName };

    ghost view = { λ n. map (λ e. record { name = e.0.items; value_type = e.1 }) n.types.entries };
}

impl AssignedNames {
    pub(crate) fn new(alloc: Global) -> AssignedNames
        ensures { result ≡ [] }
    {
        AssignedNames {
            types: IndexMap::new(alloc),
        }
    }

    /// What a name stands for.
    pub(crate) fn named(&self, name: &[u8]) -> Option<Given>
        requires { length self.now ≤ 4096 }
        ensures { result ≡ assigned_named 0 self.now name.now }
    {
        match self.types.get_full(name) {
            Some((number, _, value_type)) => Some(Given::Assigned(number as u32, *value_type)),
            None => None,
        }
    }

    /// Gives a name that was not given before.
    pub(crate) fn give(
        &mut self,
        alloc: Global,
        name: &[u8],
        value_type: ValueType,
    ) -> Result<(), AllocError>
        requires { assigned_named 0 self.old name.now ≡ None }
        ensures ok { OnOk result
            (self.new ≡ self.old ++ record { name = name.now; value_type = value_type } ∷ []) }
        ensures err { OnErr result (self.new ≡ self.old) }
    {
        let name = Vec::from_slice(alloc, name)?;
        self.types.insert(name, value_type)?;
        Ok(())
    }
}
