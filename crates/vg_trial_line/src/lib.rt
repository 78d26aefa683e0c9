//! The line on the trial of a number: what its kernel and the program compiled for it cost, and the
//! sum of the bytes that are left.
//!
//! [`trial_line`] makes it, and `specs/TrialLine.antt` says what it tells.
#![tactic(auto)]

mod kernel;
mod line;
mod runs;
mod sum;
mod text;

pub use line::trial_line;
