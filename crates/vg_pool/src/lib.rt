//! Shared term nodes: equal terms have one node, so that a term with many equal parts stays small.
#![tactic(auto)]

mod content;
mod pool;

pub use pool::{Pool, pool_is_shared};
