//! A library that C keeps by a pointer.
//!
//! `specs/Handles.antt` says what a handle owns: nothing, or a box with a library.
#![tactic(auto)]

mod handle;
mod parts;

pub use handle::Handle;
