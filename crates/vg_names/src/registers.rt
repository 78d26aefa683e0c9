//! The registers of a body.

ghost use Rattle.std.specs.Prelude.{◌≡◌, None, ◌++◌, ◌∷◌, [], IfOk, map, filter, length};
ghost use Rattle.std.specs.List.{list_any};
ghost use Rattle.std.specs.Option.{option_map};
ghost use Rattle.std.specs.Str.{bytes_eq};
ghost use Rattle.vg_pseudo.specs.Names.{last_register};
ghost use Rattle.vg_names.specs.Registers.{register_view, has_sign};

use crate::last_names::LastNames;
use std::alloc::{AllocError, Global};
use std::marker::Model;
use vg_base::Name;

/// A register of a body.
#[derive(Drop)]
pub(crate) struct Register {
    pub(crate) name: Name,
    /// In bits.
    pub(crate) width: u128,
    /// Whether it may be assigned.
    pub(crate) is_variable: bool,
    /// Whether its slices and its elements with an index are read as signed.
    pub(crate) signed_slices: bool,
    /// Whether its bare name and `name.elem` are.
    pub(crate) signed_whole: bool,
    /// How many bits its bare name means, if any.
    pub(crate) span: Option<u128>,
}

/// The registers of a body by their numbers.
pub(crate) struct Registers {
    all: Vec<Register>,
    names: LastNames,
}

/// Written out, so that the exits of an owner call it: a derived one would be proved anew at each.
impl Drop for Registers {
    fn drop(self) {
        let Registers { all: _, names: _ } = self;
    }
}

impl Model for Registers {
    ghost use Rattle.std.specs.Prelude.{◌≡◌, List, map};
    ghost use Rattle.vg_pseudo.specs.Names.{Register};
    ghost use Rattle.vg_names.specs.Registers.{register_view};

    ghost Value = { List Register };

    ghost view = { λ s. map register_view s.all.items };

    ghost invariant = { λ s. s.names ≡ map (λ r. r.name) (map register_view s.all.items) };
}

impl Registers {
    pub(crate) fn new(alloc: Global) -> Registers
        ensures { result ≡ [] }
    {
        Registers {
            all: Vec::new(alloc),
            names: LastNames::new(alloc),
        }
    }

    /// The registers and one more, which has the next number. Fails for want of memory alone.
    pub(crate) fn with(self, alloc: Global, register: Register) -> Result<Registers, AllocError>
        ensures { IfOk result (λ s. s ≡ self ++ register_view register ∷ []) }
    {
        let Registers { mut all, names } = self;
        let names = names.with(alloc, register.name.bytes())?;
        all.push(register)?;
        Ok(Registers { all, names })
    }

    /// Their widths in bits, by their numbers. Fails for want of memory alone.
    pub(crate) fn widths(&self, alloc: Global) -> Result<Vec<u128>, AllocError>
        ensures { IfOk result (λ w. w.items ≡ map (λ r. r.width) self.now) }
    {
        widths_of(alloc, self.all.as_slice())
    }

    /// How many there are.
    pub(crate) fn count(&self) -> usize
        ensures { result ≡ length self.now }
    {
        self.all.len()
    }

    /// Whether one has this name.
    pub(crate) fn has(&self, name: &[u8]) -> bool
        ensures { result ≡ list_any (λ r. bytes_eq r.name name.now) self.now }
    {
        self.names.last(name).is_some()
    }

    /// The last register of this name, with its number.
    pub(crate) fn last(&self, name: &[u8]) -> Option<(usize, &Register)>
        ensures { option_map (λ p. (p.0, register_view p.1.now)) result ≡ last_register 0 None
            self.now name.now }
    {
        let number = self.names.last(name)?;
        let register = self.all.get(number)?;
        Some((number, register))
    }

    /// Those of which some bits are read as signed.
    pub(crate) fn signed(&self, alloc: Global) -> Result<Vec<&Register>, AllocError>
        ensures { IfOk result (λ s. map (λ r. register_view r.now) s.items ≡ filter has_sign
            self.now) }
    {
        signed_of(alloc, self.all.as_slice())
    }
}

fn widths_of(alloc: Global, all: &[Register]) -> Result<Vec<u128>, AllocError>
    ensures { IfOk result (λ w. w.items ≡ map (λ r. r.width) (map register_view all.now)) }
{
    let mut widths = Vec::new(alloc);
    for register in all {
        widths.push(register.width)?;
    }
    Ok(widths)
}

fn signed_of(alloc: Global, all: &[Register]) -> Result<Vec<&Register>, AllocError>
    ensures { IfOk result (λ s. map (λ r. register_view r.now) s.items ≡ filter has_sign (map
        register_view all.now)) }
{
    let mut signed = Vec::new(alloc);
    'registers: for register in all {
        signed = with_signed(signed, register)?;
    }
    Ok(signed)
}

/// And this register, where some of its bits are read as signed.
fn with_signed<'a>(
    mut signed: Vec<&'a Register>,
    register: &'a Register,
) -> Result<Vec<&'a Register>, AllocError>
    ensures { IfOk result (λ s. map (λ r. register_view r.now) s.items ≡ map (λ r. register_view
        r.now) signed.entry.items ++ filter has_sign (register_view register.now ∷ [])) }
{
    if register.signed_slices | register.signed_whole {
        signed.push(register)?;
    }
    Ok(signed)
}
