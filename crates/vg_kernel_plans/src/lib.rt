//! Plans of kernels: which packs a kernel has, what they take and hold, how plans of them grow, and
//! what plans cost.
//!
//! `specs/Groups.antt` lists the store groups, `specs/Taken.antt` the operands that packs take,
//! `specs/Held.antt` what their registers hold, `specs/Producers.antt` the packs that produce an
//! operand, and `specs/Shuffles.antt` the instances that move parts of registers. `specs/Packing.antt`
//! puts them together: over it stand the plans and costs of `vg_plans`, the plain and the chosen plan.
//! The functions here answer by those definitions; the code that finds plans stands above.
//!
//! An `AllocError` is want of memory; nothing else is.
#![tactic(auto)]

mod choice;
pub mod copies;
mod first_loads;
pub mod held;
pub mod lane;
mod law;
mod load_groups;
pub mod marks;
pub mod plan_operands;
pub mod recipe;
mod register_groups;
mod runs;
pub mod same;
pub mod shuffles;
pub mod taken;
pub mod units;
pub mod wants;

pub use choice::Choice;
pub use law::{
    chosen_fed_plans_are_optimal, chosen_fed_plans_fit, chosen_plans_are_optimal, chosen_plans_fit,
    kernel_packs_are_apart, kernel_plans_are_short, kernel_plans_go_by_packs,
    load_groups_are_packs, plans_hold_by_choice, plans_may_be_fed, small_kernels_have_groups,
};
pub use load_groups::LoadGroups;
pub use recipe::Recipe;
