//! The instances of a file that packs may call: their descriptions, each true of what the text of its
//! entry means.
//!
//! `specs/Descriptions.antt` says which they are, in which order, and what each is; `specs/Proper.antt` what
//! the entries of catalogues have. What a true description is says `vg_emission`'s `Truth`.
#![tactic(auto)]

mod descriptions;

pub use descriptions::descriptions_of;
