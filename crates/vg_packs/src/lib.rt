//! Packs and plans of kernels: the store groups of a kernel, the packs that produce an operand, whether a
//! plan stays one with a pack after it, which packs may follow it, the plain plan, and completed plans.
//!
//! `specs/Placed.antt` says how the stores of a kernel are linked to those beside them in memory.
//!
//! An `AllocError` is want of memory; nothing else is.
#![tactic(auto)]

mod aligned;
mod completing;
mod floor;
mod follows;
mod groups;
mod growing;
mod lanes;
mod law;
mod loads;
mod marks;
mod needs;
mod placed;
mod plain;
mod plan_marks;
mod plan_spans;
mod producing;
mod taking;
mod walk;

pub use aligned::{aligned_groups, groups_by};
pub use completing::{completed_plan, completed_with};
pub use follows::{compatible, may_follow, tried, tried_by};
pub use groups::store_groups;
pub use law::{dependences_are_earlier, store_groups_are_listed};
pub use plain::{plain_plan, plain_plan_by};
pub use plan_marks::PlanMarks;
pub use plan_spans::PlanSpans;
pub use producing::producers;
pub use walk::stays_plan;
