//! Trials: for each number a kernel, as text, and a memory, to run it on.
//!
//! `specs/Trial.antt` says which.
#![tactic(auto)]

mod kernel;
mod memory;
mod piece;
mod places;
mod shape;

pub use kernel::make_kernel;
pub use memory::trial_memory;
pub use places::trial_places;
