//! Kernels: straight-line integer programs over memory, as they are written.
//!
//! [`parse_kernel`] reads a text, [`scalar_cost`] counts. What a text must be is in
//! `specs/Grammar.antt`, what a kernel does in `specs/Meaning.antt`.
#![tactic(auto)]

mod assigned_names;
mod copying;
mod costs;
mod expression;
mod expressions;
pub mod fault;
pub mod function;
pub mod given;
pub mod head;
pub mod kernel;
mod names;
mod nodes;
mod operands;
mod operations;
pub mod parameter;
mod parser;
pub mod reading;
mod scan;
pub mod statement;
mod statements;
pub mod value_type;
mod words;

pub use costs::scalar_cost;
pub use expression::KExpr;
pub use fault::KernelFault;
pub use head::Head;
pub use kernel::Kernel;
pub use names::parameter_named;
pub use parameter::{KParam, KParamKind};
pub use parser::{parse_body, parse_head, parse_kernel, parse_statements};
pub use statement::KStmt;
pub use value_type::ValueType;
