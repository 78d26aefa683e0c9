//! Numbers in memory, as kernels and programs read and write them.
//!
//! Memory is a list of bytes, the lowest byte of a number first. `vg_base`'s `specs/Memory.antt` says
//! what an access gives and leaves; one with a byte outside the memory traps.
#![tactic(auto)]

mod access;
mod bytes;
mod place;

pub use access::{load, store};
pub use place::{number_at, place_of};
