//! Looped texts: two programs for a counted loop, one for a block of turns and one for the turns
//! left over.
//!
//! `specs/Looped.antt` says what such a text is and when it keeps the rules, `specs/Grammar.antt`
//! what the first fault of any other text is.
#![tactic(auto)]

mod law;
pub mod looped;
pub mod parts;
mod printing;
mod reading;
mod steps;
pub mod told;

pub use law::{looped_programs_fit, looped_texts_are_read, what_is_read_is_looped};
pub use looped::Looped;
pub use printing::print_looped;
pub use reading::parse_looped;
