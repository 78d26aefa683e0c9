//! Programs run on real bytes.
//!
//! A call of an instruction is what its entry means, `called_by` of vg_catalog's `specs/Called.antt`.
//! `Machine::run` does what `meaning` of vg_program's `specs/Meaning.antt` says: the memory that it
//! leaves, and where it traps. `vg_memory`'s `specs/Outcome.antt` joins the two.
#![tactic(auto)]

mod calling;
mod inputs;
mod instances;
mod machine;
mod memory;
mod named_entries;
mod planner;
mod steps;
mod vector;

pub use machine::Machine;
pub use vg_bits::Outcome;
