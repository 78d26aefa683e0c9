//! Laws of the operation pseudocode, each a function that costs nothing to call.
#![tactic(auto)]

mod law;

pub use law::{what_is_in_the_grammar_is_read, what_is_read_is_in_the_grammar};
