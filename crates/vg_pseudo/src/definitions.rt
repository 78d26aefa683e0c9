//! What is known of the DEFINEs that stand as a whole before.

ghost use Rattle.std.specs.Prelude.{◌≡◌, true, false, [], OnOk};
ghost use Rattle.vg_pseudo.specs.Definitions.{Known, callee_of, with_callee};

use indexmap::IndexMap;
use std::alloc::{AllocError, Global};
use std::marker::Model;

/// What a call must know of the DEFINE that it calls.
#[derive(Clone, Copy)]
pub(crate) struct Callee {
    /// How many parameters it has.
    pub(crate) arity: usize,
    /// 1 where it calls no DEFINE, else one more than the greatest depth of those that it calls.
    pub(crate) depth: u32,
}

/// The DEFINEs by their names, and whether a DEFINE is being read.
#[derive(Drop)]
pub(crate) struct Definitions {
    callees: IndexMap<Vec<u8>, Callee>,
    is_inside: bool,
}

impl Model for Definitions {
    ghost use Rattle.std.specs.Prelude.{List, map};
    ghost use Rattle.vg_pseudo.specs.Definitions.{Context};

    ghost Value = { Context };

    ghost view = { λ n. record { known = map (λ e. record { name = e.0.items; callee = e.1 }) n.callees.entries; inside = n.is_inside } };
}

impl Definitions {
    /// None, before the first DEFINE.
    pub(crate) fn new(alloc: Global) -> Definitions
        ensures { result ≡ record { known = []; inside = true } }
    {
        Definitions {
            callees: IndexMap::new(alloc),
            is_inside: true,
        }
    }

    /// Whether a DEFINE is being read.
    pub(crate) fn is_inside(&self) -> bool
        ensures { result ≡ self.now.inside }
    {
        self.is_inside
    }

    /// The last DEFINE of this name.
    pub(crate) fn callee(&self, name: &[u8]) -> Option<Callee>
        ensures { result ≡ callee_of self.now.known name.now }
    {
        match self.callees.get(name) {
            Some(callee) => Some(*callee),
            None => None,
        }
    }

    /// One DEFINE more.
    pub(crate) fn define(
        &mut self,
        alloc: Global,
        name: &[u8],
        callee: Callee,
    ) -> Result<(), AllocError>
        ensures ok { OnOk result (self.new ≡ record {
          known = with_callee self.old.known name.now
              callee;
          inside = self.old.inside;
        }) }
    {
        let name = Vec::from_slice(alloc, name)?;
        self.callees.insert(name, callee)?;
        Ok(())
    }

    /// No DEFINE is being read from here on.
    pub(crate) fn leave(&mut self)
        ensures { self.new ≡ record { known = self.old.known; inside = false } }
    {
        self.is_inside = false;
    }
}
