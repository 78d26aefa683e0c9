//! What plans cost.
//!
//! `specs/Had.antt` lists the costs of the shuffles that can be had, `specs/Marks.antt` says which
//! numbers are marked, and `specs/Lines.antt` which lines units and extracts take by such marks.
//! The cost of a plan is that of `vg_plans` over the packs of a kernel of `vg_kernel_plans`.
//!
//! A plan that grows keeps its cost (`specs/Running.antt`): what is known of each operand that its
//! packs take (`specs/Taken.antt`), and which descriptions are shuffles (`specs/Shuffling.antt`). By
//! marks of the units of packs most operands need not be looked at again (`specs/Touch.antt`), and by
//! the places where packs have values (`specs/Places.antt`) most shuffles need not. It keeps as well how
//! often each value is needed (`specs/Needs.antt`), by which the lines are told: where a pack comes after
//! it, only what the pack changes is counted anew (`specs/Moves.antt`). What is known of a plan with a pack
//! after it stands together (`specs/LongerPlan.antt`); such a pack is priced in scratch that is made once
//! for the plan (`specs/PriceScratch.antt`).
//!
//! An `AllocError` is want of memory; nothing else is.
#![tactic(auto)]

mod apart;
mod change;
mod copies;
mod cost;
mod counts;
mod lines;
mod longer_plan;
mod marks;
mod needs;
mod places;
mod price;
mod price_scratch;
mod recipe_cost;
pub mod recipes;
mod running;
mod scan;
mod settling;
pub mod shuffle;
mod shuffles;
mod taken;
mod touch;
mod tried_marks;

pub use cost::plan_cost;
pub use price_scratch::PriceScratch;
pub use running::Running;
