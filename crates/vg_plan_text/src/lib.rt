//! The lines on a plan: its packs in order, and what it costs.
//!
//! `specs/PlanText.antt` says which lines there are.
//!
//! An `AllocError` is want of memory; nothing else is.
#![tactic(auto)]

mod costs;
mod plan_text;

pub use costs::Costs;
pub use plan_text::print_plan;
