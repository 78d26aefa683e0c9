//! The parts of which looped texts are made, for other texts of loops: readers of what the first line
//! tells of the turns and of words that stand alone in their lines, steps, and printers.
//!
//! A reader takes a prefix of a text and gives what it read with the bytes after it, as those of
//! `vg_program::parts` do.

pub use crate::printing::put_pairs;
pub use crate::reading::{turns_at, word_line_at};
pub use crate::steps::{pointers_in, stepped, steps_of};
pub use crate::told::Told;
