//! What calls give where the lanes of the instances of a catalogue have terms: what the lanes say. One law, as
//! a function that costs nothing to call; `specs/Told.antt` states it.
#![tactic(auto)]

mod law;

pub use law::catalogs_are_told;
