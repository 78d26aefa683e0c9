//! Orders of plans: a plan has one.
//!
//! `specs/Laws.antt` says that the nodes of a plan have no cycle, so that `vg_order`'s `schedule` answers
//! with an order.
#![tactic(auto)]

mod law;

pub use law::plans_have_no_cycle;
