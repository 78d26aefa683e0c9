//! Accepted operations.

ghost use Rattle.std.specs.Prelude.{◌≡◌, true, is_ok, Ok};
ghost use Rattle.vg_names.specs.Views.{resolved_of};
ghost use Rattle.vg_pseudo.specs.Resolve.{resolve};
ghost use Rattle.vg_pseudo.specs.Tree.{operation_of};
ghost use Rattle.vg_range.specs.Acceptance.{checked};

use vg_names::Resolved;
use vg_pseudo::{Header, Operation};

/// An entry whose operation is accepted: its header, and its operation, also with its names
/// resolved.
#[derive(Drop)]
pub struct Checked {
    header: Header,
    operation: Operation,
    pub(crate) resolved: Resolved,
    ghost accepted: { ∥ checked header (operation_of operation) ≡ Ok (resolved_of resolved) ∥₁ },
}

impl Checked {
    ghost use Rattle.vg_range.specs.Checks.{header_in, operation_in};

    /// The accepted entry of these parts.
    pub(crate) fn new(header: Header, operation: Operation, resolved: Resolved) -> Checked
        requires { checked header (operation_of operation) ≡ Ok (resolved_of resolved) }
        ensures header { header_in result ≡ header }
        ensures operation { operation_in result ≡ operation_of operation }
    {
        Checked {
            header,
            operation,
            resolved,
        }
    }

    /// What the entry says before its operation.
    pub fn header(&self) -> &Header
        ensures header { result.now ≡ header_in self.now }
    {
        &self.header
    }

    /// The operation as it was read, with its names.
    pub fn operation(&self) -> &Operation
        ensures operation { operation_of result.now ≡ operation_in self.now }
    {
        &self.operation
    }
}
