//! The operation pseudocode of vector instructions: how it is written, and what it means.
//!
//! [`parse_operation`] reads the text of an operation up to the `END` that closes it. What a text
//! must be is in `specs/Grammar.antt`. What its names mean is in `specs/Names.antt`, and what it does in
//! `specs/Value.antt`, `specs/Run.antt` and `specs/Instance.antt`.
#![tactic(auto)]

mod blocks;
mod calls;
mod definitions;
pub mod expression;
mod expressions;
pub mod fault;
pub mod header;
mod nodes;
pub mod operation;
mod operations;
pub mod operators;
mod parts;
mod reading;
pub mod spot;
pub mod statement;
mod statements;
mod words;

pub use expression::{Arguments, Expr};
pub use fault::PseudoFault;
pub use header::{Header, ImmRange, Param};
pub use operation::{Define, DefineParam, Operation};
pub use operations::parse_operation;
pub use operators::{BinaryOp, UnaryOp};
pub use spot::Spot;
pub use statement::Stmt;
pub use words::{is_free, number_of};
