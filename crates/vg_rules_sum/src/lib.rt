//! The rules for sums: constants are folded and merged, chains are put in order, and operations that
//! change nothing, or whose result is known, go.
//!
//! An `AllocError` is want of memory; nothing else is.
#![tactic(auto)]

mod chain;
mod constant;
mod rows;
mod sum_rules;

pub use sum_rules::SumRules;
