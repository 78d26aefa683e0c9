//! The plain plan of a kernel, and plans that are completed: they end because nothing is left to try.
//!
//! `specs/Walk.antt` says how the plain plan grows to its end, however long that takes, and
//! `specs/Laws.antt` that the turns which it is given are never used up.
#![tactic(auto)]

mod law;

pub use law::{completed_plans_end_in_time, plain_plans_leave_nothing};
