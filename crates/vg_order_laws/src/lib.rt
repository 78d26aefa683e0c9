//! Laws on the orders in which the units of a kernel may be done, as functions that cost nothing to
//! call. `specs/Laws.antt` states them.
#![tactic(auto)]

mod law;

pub use law::{
    legal_orders_run, plan_orders_run, runs_are_steps, runs_trap_outside, units_commute,
};
