//! The byte events of a kernel and of a program in code: the least label of which the two sides have other
//! numbers of events, which events of the kernel the lines of a program have, and the first two units that
//! these lines turn round.
//!
//! `specs/Balances.antt` says how events of lines are counted against those of a kernel without a list of
//! them, `specs/Heads.antt` how each takes the next event of its label, and `specs/Sweeps.antt` how one
//! sweep from the last unit to the first finds the units that are turned. What is answered is defined in
//! `specs/Difference.antt` of `vg_known`. [`Tally`] counts events by label (`specs/Tallies.antt`). An
//! `AllocError` is want of memory; nothing else is.
#![tactic(auto)]

mod accesses;
mod balance;
pub mod byte_label;
mod label_numbers;
mod line_numbers;
pub mod pairing;
mod rows;
mod spans;
pub mod tally;
pub mod turned;
pub mod uneven;

pub use accesses::{line_accesses, unit_accesses};
pub use byte_label::ByteLabel;
pub use pairing::lines_by_rank;
pub use tally::Tally;
pub use turned::{Turned, noalias_flags, turned_units};
pub use uneven::{Uneven, uneven_label};
