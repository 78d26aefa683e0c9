//! What looped texts promise of the programs in them, as functions that cost nothing to call.
//!
//! `specs/Laws.antt` states the laws.
#![tactic(auto)]

mod law;

pub use law::looped_programs_are_valid;
