//! The values of a kernel as text: what has each number, and the terms that stand for it.
//!
//! [`list_values`] writes the lines; `specs/Listed.antt` says which there are. [`names_of`] gives the
//! names by which terms of values are printed. Every error is want of memory.
#![tactic(auto)]

mod listing;
mod names;

pub use listing::list_values;
pub use names::names_of;
