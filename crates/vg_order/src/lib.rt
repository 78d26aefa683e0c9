//! Orders in which the packs of a plan and the units outside them may be done.
//!
//! `specs/ByList.antt` says what an order is by a list of dependences, and what a cycle,
//! `specs/Scheduled.antt` which order it is in which they are put.
#![tactic(auto)]

mod fault;
mod graph;
mod law;
mod needs;
mod paths;
mod progress;
mod scheduling;

pub use fault::OrderFault;
pub use law::{
    dependences_give_orders, dependences_name_units, numbers_are_an_order, one_order_is_scheduled,
    orders_have_no_cycle,
};
pub use scheduling::schedule;
