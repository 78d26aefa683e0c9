//! Arithmetic on numbers of 8, 16, 32 and 64 bits, as kernels and programs mean it.
//!
//! `specs/Scalar.antt` says what each operation makes of its numbers. Nothing is undefined: results
//! wrap around, and of a number that is too large for its width the low bits count.
#![tactic(auto)]

pub mod comparison;
mod low;
pub mod resize;
pub mod selection;
pub mod shift;
pub mod two_op;

pub use comparison::Comparison;
pub use resize::Resize;
pub use selection::select;
pub use shift::Shift;
pub use two_op::TwoOp;
