//! A kernel as numbered values.

ghost use Rattle.std.specs.Prelude.{◌≡◌, length};
ghost use Rattle.vg_shapes.specs.Layout.{noalias_of};
ghost use Rattle.vg_shapes.specs.Units.{arguments, integers_of, is_integer};

use crate::ssa_unit::SsaUnit;
use vg_base::{Items, Name, Width};
use vg_terms::Term;

/// What a parameter is: a pointer or an integer.
#[derive(Clone, Copy)]
pub enum SsaParamKind {
    /// A place in memory. What is written through a pointer that is `noalias` is reached through no
    /// other.
    Pointer { noalias: bool },
    /// An integer of this width.
    Integer(Width),
}

/// A parameter of a kernel.
#[derive(Drop)]
pub struct SsaParam {
    pub name: Name,
    pub kind: SsaParamKind,
}

/// A kernel as numbered values. The integer parameters are numbered first, from 0, then the units in
/// the order in which they run.
pub struct Ssa {
    pub name: Name,
    /// At most 16, with names that differ.
    pub params: Items<SsaParam>,
    /// The loads, operations and stores, at most 12,288.
    pub units: Items<SsaUnit>,
    /// For each number the term of its value.
    pub terms: Items<Term>,
    /// For each number the cut term of its value, over the names of the values that it is made of.
    /// Or none at all: no value has a cut term.
    pub cuts: Items<Term>,
}

/// Written out, so that the exits of an owner call it: a derived one would be proved anew at each.
impl Drop for Ssa {
    fn drop(self) {
        let Ssa {
            name: _,
            params: _,
            units: _,
            terms: _,
            cuts: _,
        } = self;
    }
}

impl SsaParamKind {
    /// Of a pointer, whether it is noalias.
    pub fn noalias(self) -> Option<bool>
        ensures { result ≡ noalias_of self }
    {
        match self {
            SsaParamKind::Pointer { noalias } => Some(noalias),
            SsaParamKind::Integer(_) => None,
        }
    }

    /// Whether the parameter is an integer.
    pub fn is_integer(self) -> bool
        ensures { result ≡ is_integer self }
    {
        match self {
            SsaParamKind::Pointer { .. } => false,
            SsaParamKind::Integer(_) => true,
        }
    }
}

// How many of the parameters are integers.
fn count_integers(params: &[SsaParam]) -> usize
    ensures { result ≡ length (integers_of params.now) }
{
    params.iter().filter(|p| p.kind.is_integer()).count()
}

impl Ssa {
    /// The number of integer parameters, which is the number of the first unit.
    pub fn arguments(&self) -> usize
        ensures { result ≡ arguments self.now }
    {
        count_integers(self.params.as_slice())
    }
}
