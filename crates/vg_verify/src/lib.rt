//! Kernels and programs from anywhere, held against one another by terms: `verify` tells the first difference, or
//! that there is none. It looks at the head of the program, the calls whose lanes have no terms, the numbers and
//! the order of byte events, and for each store of the kernel at two terms: of what it writes, and of what the
//! program writes there.
//!
//! Each is by its definition in `vg_known`: `Params`, `Difference`, `Kernels` and `FirstLoads`, `Known` and
//! `Calls`. Every error is want of memory; what fits no valid program answers it too.
#![tactic(auto)]

mod both_sides;
mod call;
mod called;
mod comparer;
mod comparison;
mod constant;
mod earlier_loads;
mod event_bits;
mod head;
mod instance;
mod kernel_values;
mod known;
mod opaque;
mod unit_reads;
mod values;
mod verdict;
mod walk;

pub use both_sides::{Sides, sides_of};
pub use called::Called;
pub use comparison::verify;
pub use head::same_head;
pub use kernel_values::{KernelTerms, kernel_terms, operand_term};
pub use known::Knowing;
pub use opaque::opaque_line;
pub use verdict::{Difference, Verdict};
