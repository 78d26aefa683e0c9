//! Guarded loops: the text of a counted loop whose blocks of turns are guarded.
//!
//! A block is a guarded program: one side that runs where its checks hold, and one where they do
//! not; a second program runs the turns that are left over. `specs/GuardedLoop.antt` says what such
//! a text is and when it keeps the rules, `specs/Grammar.antt` what the first fault of any other
//! text is.
#![tactic(auto)]

pub mod guarded_loop;
mod law;
mod printing;
mod reading;

pub use guarded_loop::GuardedLoop;
pub use law::{guarded_loop_texts_are_read, what_is_read_is_a_guarded_loop};
pub use printing::print_guarded_loop;
pub use reading::parse_guarded_loop;
