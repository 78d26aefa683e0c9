//! Plans over any packs: how they grow, what they cost, the plain and the chosen plan.
//!
//! A `World` (`specs/World.antt`) says what packs are: their units, what those need, their operands
//! and who produces them. Over it stand the plans that grow by one pack at a time and their cost
//! (`World`), the levels of the search and the chosen plan (`Levels`), crowded sizes (`Crowded`), and
//! the plain plan (`PlainPlan`), completed plans and the careful plan (`Completed`). The laws are functions that cost nothing to call.
#![tactic(auto)]

mod law;

pub use law::{
    chosen_fed_is_least, chosen_is_optimal, completed_are_plans, leaving_out_is_one,
    others_are_no_cycles, packs_are_apart, plans_are_plans, plans_are_short, plans_go_by_packs,
    plans_stay_plans, recipes_stay, stable_sorts_are_one, ways_back_are_cycles,
};
