//! The names that are given at a place of a kernel.

ghost use Rattle.std.specs.Prelude.{◌≡◌, ◌<◌, ◌^◌, None, length, OnOk, OnErr};
ghost use Rattle.vg_kernel.specs.Names.{is_pointer, given_of, parameter_named, given_as, names_of, with_name, AreFew};

use crate::assigned_names::AssignedNames;
use crate::given::Given;
use crate::parameter::{KParam, KParamKind};
use crate::value_type::ValueType;
use std::alloc::{AllocError, Global};
use std::marker::Model;
use vg_text::byte::is_text;

fn is_pointer(kind: KParamKind) -> bool
    ensures { result ≡ is_pointer kind }
{
    match kind {
        KParamKind::Pointer { .. } => true,
        KParamKind::Integer(_) => false,
    }
}

/// What a parameter is after so many pointers and so many integers.
fn given_of(kind: KParamKind, pointers: u32, integers: u32) -> Given
    ensures { result ≡ given_of kind pointers integers }
{
    match kind {
        KParamKind::Pointer { .. } => Given::Pointer(pointers),
        KParamKind::Integer(width) => Given::Argument(integers, width),
    }
}

/// What the first parameter of this name stands for, by its number among the parameters of its
/// kind. None where no parameter has the name.
#[tactic(auto, unfolding(crate::specs::Names::parameter_named))]
pub fn parameter_named(params: &[KParam], name: &[u8]) -> Option<Given>
    requires { length params.now < 2 ^ 32 }
    ensures { result ≡ parameter_named 0 0 params.now name.now }
{
    let mut pointers: u32 = 0;
    let mut integers: u32 = 0;
    let mut rest = params;
    'params: while let [param, behind @ ..] = rest {
        if is_text(param.name.bytes(), name) {
            return Some(given_of(param.kind, pointers, integers));
        }
        if is_pointer(param.kind) {
            pointers += 1;
        } else {
            integers += 1;
        }
        rest = behind;
    }
    None
}

/// The names that are given so far: the parameters, and those of statements in order.
pub(crate) struct Names<'a> {
    params: &'a [KParam],
    assigned: AssignedNames,
}

/// Written out, so that the exits of an owner call it: a derived one would be proved anew at each.
impl Drop for Names<'_> {
    fn drop(self) {
        let Names {
            params: _,
            assigned: _,
        } = self;
    }
}

impl<'a> Model for Names<'a> {
    ghost use Rattle.std.specs.Prelude.{◌<◌, ◌≤◌, ◌^◌, length};
    ghost use Rattle.vg_kernel.specs.Names.{Names};

    ghost Value = { Names };

    ghost view = { λ n. record { params = n.params.now; assigned = n.assigned } };
}

impl<'a> Names<'a> {
    /// The names before the first statement: those of the parameters.
    pub(crate) fn new(alloc: Global, params: &'a [KParam]) -> Names<'a>
        ensures { result ≡ names_of params.now }
    {
        Names {
            params,
            assigned: AssignedNames::new(alloc),
        }
    }

    /// What a name stands for.
    pub(crate) fn given_as(&self, name: &[u8]) -> Option<Given>
        requires { AreFew self.now }
        ensures { result ≡ given_as self.now name.now }
    {
        match parameter_named(self.params, name) {
            Some(given) => Some(given),
            None => self.assigned.named(name),
        }
    }

    /// Gives one name more, which was not given before.
    pub(crate) fn give(
        &mut self,
        alloc: Global,
        name: &[u8],
        value_type: ValueType,
    ) -> Result<(), AllocError>
        requires { given_as self.old name.now ≡ None }
        ensures ok { OnOk result (self.new ≡ with_name self.old name.now value_type) }
        ensures err { OnErr result (self.new ≡ self.old) }
    {
        self.assigned.give(alloc, name, value_type)
    }
}
