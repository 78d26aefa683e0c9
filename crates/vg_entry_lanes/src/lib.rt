//! The lanes of the instances of entries: those that a description or a listing takes.
//!
//! `specs/Immediates.antt` says for which immediates an entry has instances, and `specs/Laws.antt`
//! that lanes fill the results of the entries of files, and that what is lifted can be described.
#![tactic(auto)]

mod law;

pub use law::{file_headers_have_lanes, lifted_lanes_are_lanes};
