//! Cases of orders: which nodes come when, and which units name a cycle.
#![tactic(auto)]

pub mod inputs;
#[cfg(test)]
mod orders;
