//! Canonical terms: the rules for sums, widths and choices, applied from the leaves up for as long as one
//! applies.
//!
//! An `AllocError` is want of memory; nothing else is.
#![tactic(auto)]

mod canonical_form;
mod nodes;
mod step;
mod walk;

pub use canonical_form::{canon, canon_root, canonical_is_children_first, leaves_are_canonical};
pub use nodes::{canon_node, canon_root_node};
