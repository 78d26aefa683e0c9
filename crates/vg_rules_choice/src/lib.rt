//! The rules for choices: selections that are decided, or that take the lesser or the greater side of
//! their condition; and least, greatest and comparisons in more bits than their operands need.
//!
//! An `AllocError` is want of memory; nothing else is.
#![tactic(auto)]

mod choice_rules;
mod narrowing;
mod selections;
mod stretch;

pub use choice_rules::ChoiceRules;
