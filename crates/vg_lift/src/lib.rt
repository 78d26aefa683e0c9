//! The terms of the lanes of instances.
//!
//! `specs/LaneTerm.antt` says what the term of a lane is, over `specs/Gather.antt` and
//! `specs/Join.antt`, and `specs/Means.antt` that its value is the lane. `specs/Instances.antt` says
//! the same of the instances of accepted entries.
#![tactic(auto)]

mod begin;
mod bit;
mod constant;
mod entry;
mod gather;
mod join;
mod join_states;
mod lane;
mod law;
mod lifted;
mod listed;
mod passed;
mod putting;
mod run;
mod scripts;
mod state;
mod turn;

pub use entry::{has_lanes, lane_node, lane_term, lanes_of, lift_entry};
pub use law::{lane_terms_mean_their_lanes, leaves_are_parameters};
pub use lifted::{Lifted, lift_instance};
