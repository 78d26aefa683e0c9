//! The parts of which guarded texts are made, for other texts with guards: readers of checks and of
//! the line that counts them, and printers.
//!
//! A reader takes a prefix of a text and gives what it read with the bytes after it, as those of
//! `vg_program::parts` do.

pub use crate::printing::{put_checks, put_end_line};
pub use crate::reading::{checks_at, end_line_at};
