//! What is known of the numbers of an instance: intervals, the words that expressions become, and what each use asks.
//!
//! `specs/Interval.antt` says what the operators make of intervals, `specs/Words.antt` which words they become,
//! `specs/Found.antt` what is known of an expression, and `specs/Judge.antt` how it is found in the order of the text.
//!
//! An `AllocError` is want of memory; nothing else is.
#![tactic(auto)]

pub mod binary_results;
pub mod binary_spans;
pub mod binary_uses;
pub mod calls;
mod exact;
pub mod fault;
mod found;
pub mod judged;
pub mod moving;
pub mod operands;
mod results;
mod shifts;
pub mod slices;
pub mod span;
pub mod spans;
mod unary_spans;
pub mod unary_uses;
pub mod whole_numbers;
pub mod word_builders;

pub use fault::RangeFault;
pub use found::{Condition, Found, Operand, Passed};
pub use judged::{Bits, Count, Index, KnownNumber};
pub use span::Span;
