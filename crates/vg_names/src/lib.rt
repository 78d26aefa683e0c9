//! Names of an operation: what each means where it stands, and the operation without them.
//!
//! What names mean is defined in `vg_pseudo` (`Names`, `Signs`, `Resolve`); here is the code that resolves them.
//! `specs/Views.antt` says which resolved operation a value is.
#![tactic(auto)]

mod assignments;
mod body;
mod body_names;
mod code;
mod expressions;
mod forms;
mod given_registers;
mod last_names;
mod law;
mod locals;
mod marks;
mod name_fault;
mod names;
mod operation;
mod piece;
mod registers;
pub mod resolved;
mod same;
mod scope;
mod signed_names;
mod signs;
mod targets;

pub use law::{
    narrow_headers_are_written, operations_that_are_read_are_written,
    resolved_operations_are_proper, signs_are_decided,
};
pub use name_fault::NameFault;
pub use operation::resolve;
pub use resolved::{Body, Code, Function, Resolved, ResolvedArguments, ResolvedExpr, Target};
