//! Programs of plans mean their units: each plan of a kernel, with the recipes that its operands
//! take, meets all that the laws on emitted programs want.
//!
//! `specs/Made.antt` says what the packs of plans are, and `specs/Laws.antt` what plans promise.
//! `specs/TwoSumsProgram.antt` has the program of a small plan with a call (`TwoSums` of
//! `vg_plan_relations`), which meets all that the laws want.
#![tactic(auto)]

mod law;

pub use law::{
    calls_hold, chosen_fed_programs_are_right, chosen_programs_are_right, kernels_are_small,
    operands_are_sound, packs_are_right, plans_are_fit, plans_are_made, plans_are_planned,
    plans_keep_promises, programs_of_plans_call_described_instances,
    programs_of_plans_cost_their_plans, programs_of_plans_keep_the_rules,
    programs_of_plans_mean_their_units, recipes_fill, runs_stay_in_widths, shuffles_fill,
    two_sums_are_eight_lines, two_sums_mean_their_units,
};
