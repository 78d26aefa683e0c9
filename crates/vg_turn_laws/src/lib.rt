//! How often loops turn, as a function that costs nothing to call.
//!
//! `specs/Laws.antt` states the law.
#![tactic(auto)]

mod law;

pub use law::loops_end_within_memory;
