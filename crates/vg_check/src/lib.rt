//! A kernel and a program from anywhere, compared: whether the program means the kernel, and the text of the
//! first thing in which they differ.
//!
//! [`compare`] numbers the values of the kernel and compares them with the program. The first difference and the
//! first wider one are defined in `vg_known`; `specs/Told.antt` says how it is written, `specs/Compared.antt`
//! what is told of a kernel and a program, and `specs/Laws.antt` that `same` stays so with more. Every error is
//! want of memory.
#![tactic(auto)]

mod comparing;
mod difference_text;
mod law;

pub use comparing::{Comparison, compare};
pub use difference_text::print_difference;
pub use law::same_is_told_with_more;
