//! Emission of any plan of a kernel, whatever search it comes from: what is asked of it holds, and so
//! its program is right.
//!
//! `specs/Laws.antt` says what `vg_emit` and `vg_cost` ask of a plan and of matches, which each plan
//! has by its definition alone, and what the program of a plan is in each legal order.
#![tactic(auto)]

mod law;

pub use law::{
    emitted_programs_are_right, matches_are_near, matches_are_of_units, packs_are_short,
    packs_by_choice_are_short, plans_can_be_emitted,
};
