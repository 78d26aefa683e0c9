//! A library: the entries of an instruction file with the descriptions of those whose extension is in a
//! set, made once for many kernels.
//!
//! `specs/Kept.antt` says what is kept.
#![tactic(auto)]

mod library;

pub use library::Library;
