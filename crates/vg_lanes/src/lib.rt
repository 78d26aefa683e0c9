//! Descriptions of instances: the canonical terms of their lanes, or why packs cannot call them.
//!
//! `specs/Described.antt` says what becomes of the lanes of an instance.
#![tactic(auto)]

mod canonical_lanes;
pub mod cause;
pub mod described;
mod first_cause;
mod fitting;
mod lane_leaves;
mod listing;

pub use cause::Cause;
pub use described::{Described, describe};
pub use fitting::are_lanes;
pub use listing::list_instance;
