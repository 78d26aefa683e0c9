//! The lines on the instances of the entries of a file: the canonical terms of their lanes, and why
//! packs cannot call them.
//!
//! `specs/Listed.antt` says which lines there are, by `vg_lanes`'s `Listing` over the lanes of
//! `vg_lift`'s `Instances`.
#![tactic(auto)]

mod entries;

pub use entries::list_entries;
