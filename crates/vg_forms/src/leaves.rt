//! Leaves and constants as forms.

ghost use Rattle.std.specs.Prelude.{◌≡◌, IfOk};
ghost use Rattle.vg_shapes.specs.Sound.{argument_key, load_key};
ghost use Rattle.vg_terms.specs.Term.{constant, leaf, tree};

use crate::form::Form;
use std::alloc::{AllocError, Global};
use vg_base::Address;
use vg_terms::{LeafKey, Term, make_const, make_leaf};

/// The leaf of the load of this number.
pub fn load_key(address: Address, number: u32) -> LeafKey
    ensures { result ≡ load_key address number }
{
    LeafKey {
        kind: 1,
        first: address.pointer,
        second: i64::from(address.offset),
        third: number,
    }
}

/// The leaf of an integer parameter.
pub fn argument_key(number: u32) -> LeafKey
    ensures { result ≡ argument_key number }
{
    LeafKey {
        kind: 2,
        first: number,
        second: 0,
        third: 0,
    }
}

impl Form {
    /// A term. Fails for want of memory, and where it is not well-formed.
    fn checked(alloc: Global, t: Term) -> Result<Form, AllocError>
        ensures { IfOk result (λ f. f ≡ tree t) }
    {
        if t.is_well_formed() {
            Form::new(alloc, t)
        } else {
            Err(AllocError)
        }
    }

    /// A leaf. Fails for want of memory, and for a width that no term has.
    pub fn leaf(alloc: Global, width: u32, key: LeafKey) -> Result<Form, AllocError>
        ensures { IfOk result (λ f. f ≡ leaf width key) }
    {
        Form::checked(alloc, make_leaf(width, key))
    }

    /// A constant. Fails for want of memory, and for one that no term has.
    pub fn constant(alloc: Global, width: u32, value: u128) -> Result<Form, AllocError>
        ensures { IfOk result (λ f. f ≡ constant width value) }
    {
        Form::checked(alloc, make_const(width, value))
    }
}
