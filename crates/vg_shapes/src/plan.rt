//! Plans.

ghost use Rattle.std.specs.Prelude.{◌≡◌};

use crate::pack::Pack;
use std::marker::Model;

/// A list of packs. Contracts see it as the list.
#[derive(Drop)]
pub struct Plan {
    packs: Vec<Pack>,
}

impl Model for Plan {
    ghost use Rattle.std.specs.Prelude.{List};
    ghost use Rattle.vg_shapes.specs.declared.pack.Pack.{Pack};

    ghost Value = { List Pack };

    ghost view = { λ s. s.packs.items };
}

impl Plan {
    /// The plan of these packs. Takes no memory.
    pub fn from_vec(packs: Vec<Pack>) -> Plan
        ensures { result ≡ packs.items }
    {
        Plan { packs }
    }

    /// The packs as a vector again. Takes no memory.
    pub fn into_vec(self) -> Vec<Pack>
        ensures { result.items ≡ self }
    {
        self.packs
    }

    /// The packs in their order, borrowed.
    pub fn as_slice(&self) -> &[Pack]
        ensures { result.now ≡ self.now }
    {
        self.packs.as_slice()
    }
}
