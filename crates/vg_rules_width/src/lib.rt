//! The rules for widths: truncations move towards the leaves, and operations are made as narrow as the
//! known widths of their operands allow.
//!
//! An `AllocError` is want of memory; nothing else is.
#![tactic(auto)]

mod narrowing;
mod pairs;
mod shifts;
mod truncations;
mod width_rules;

pub use width_rules::WidthRules;
