//! Byte events: each access of a kernel and of a program cut into its bytes, the events of both sides paired
//! by rank, and what that says of their runs. Laws alone, as functions that cost nothing to call.
#![tactic(auto)]

mod law;

pub use law::{
    equal_counts_pair, event_order_is_by_units, orders_step, runs_are_events, trap_together,
    unit_order_is_by_events,
};
