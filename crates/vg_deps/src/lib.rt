//! Which units of a kernel depend on which, and which layouts respect noalias.
//!
//! `specs/Depends.antt` of `vg_shapes` says what a dependence is, and its `specs/Layout.antt` what
//! respects noalias.
//!
//! An `AllocError` is want of memory; nothing else is.
#![tactic(auto)]

mod conflict;
mod dependences;
mod independence;
mod layouts;

pub use dependences::depends;
pub use independence::independent;
pub use layouts::respects;
