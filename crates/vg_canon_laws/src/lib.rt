//! Laws of canonical forms, each a function that costs nothing to call.
#![tactic(auto)]

mod law;

pub use law::canonical_forms_keep_leaves;
