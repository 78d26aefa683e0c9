//! Kernels run on real bytes.
//!
//! `run_kernel` does what `meaning` of vg_kernel's `specs/Meaning.antt` says: the memory that it
//! leaves, and where it traps. `vg_memory`'s `specs/Outcome.antt` joins the two.
//!
//! An `AllocError` is want of memory; nothing else is.
#![tactic(auto)]

mod inputs;
mod state;
mod statements;
mod values;

pub use state::{KState, run_kernel};
pub use vg_bits::Outcome;
