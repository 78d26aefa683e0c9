//! Rows of tests: an `@` marks a place in a text, as that of a fault, and is no part of the text.
#![tactic(auto)]

mod bars;
mod marked;

pub use bars::lines_of;
pub use marked::{Marked, unmarked, unmarked_between};
