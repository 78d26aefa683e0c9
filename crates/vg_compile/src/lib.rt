//! The compiler over values: from the entries of a catalogue and a kernel to the program that calls them.
//!
//! `specs/Compiled.antt` says what is compiled of a kernel, `specs/Means.antt` when a program means it,
//! `specs/Chosen.antt` which plan is chosen for its numbered values, and which of a kernel with more
//! plans, `specs/Rewritten.antt` over which units that may be, `specs/Emitted.antt` what is emitted for
//! it by the descriptions of instances, and `specs/Planned.antt` what is told of it.
//! `specs/Described.antt` says the same by descriptions that are made once for many kernels.
//! `specs/OnePlan.antt` says that the chosen plan of a kernel is one, and so is the program that is
//! compiled of it, and that more plans cost no more.
#![tactic(auto)]

mod choosing;
mod compiling;
mod emitting;
mod explaining;
mod law;
mod lists;
mod more_plans;
mod params;
mod planning;
mod rewriting;
mod same_units;
mod uncut;
mod units;

pub use compiling::{compile, compile_by, compile_described, compile_more};
pub use explaining::{explain, explain_by, explain_described, explain_more};
pub use law::{
    compile_more_costs_no_more, more_plans_cost_no_more, one_program_is_compiled,
    one_text_is_explained, there_is_one_plan, units_mean_kernels,
};
pub use params::params_of;
pub use planning::{Chosen, Priced, plan_described, plan_of};
pub use units::compile_units;
