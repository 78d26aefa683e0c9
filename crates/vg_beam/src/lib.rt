//! The search for the plan of a kernel that is emitted: plans grow by one pack at a time, at most so
//! many of each size are kept, and the first of the least cost is chosen.
//!
//! `specs/Chosen.antt` says what is promised of the chosen plan. The plan itself is defined in
//! `vg_kernel_plans`; `specs/PackTable.antt`, `specs/BeamPlan.antt` and `specs/MetPlans.antt` say what the search keeps.
#![tactic(auto)]

mod beam_plan;
mod candidate;
mod choosing;
mod completing;
mod fed;
mod key;
mod met_plans;
mod pack_table;
mod pack_words;
mod priced_plan;
mod search;
mod search_space;
mod turn;

pub use choosing::choose;
pub use fed::choose_fed;
