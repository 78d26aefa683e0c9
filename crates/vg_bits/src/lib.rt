//! Registers of bytes, ranges of the bits of lists of bytes of any length, and whole numbers in two's
//! complement. A register and a list of bytes stand for the list of their bits, the lowest first:
//! `bits_of_bytes` of the bytes.
#![tactic(auto)]

pub mod bit_index;
pub mod bit_range;
mod outcome;
mod register;

pub use bit_index::BitIndex;
pub use outcome::Outcome;
pub use register::Reg;
pub use vg_base::number::{signed, unsigned};
