//! Values as sums: a term as a polynomial with whole coefficients, whose value is congruent to the number of the
//! term in every environment, so that terms with the same sum have equal values.
//!
//! An `AllocError` is want of memory; nothing else is.
#![tactic(auto)]

mod arithmetic;
mod change;
mod choices;
mod kind;
mod law;
mod lost;
mod number;
mod order;
mod products;
mod readings;
mod same;
mod span;
mod span_of;
mod sum;
mod terms;

pub use law::{same_sums_are_equal, sums_are_congruent};
pub use same::have_same_sum;
