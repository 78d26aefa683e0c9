//! Counted loops: kernels that are run again and again, their pointers moved on from turn to turn.
//!
//! `vg_loop_laws` says what a loop does (`specs/Loops.antt`), what its kernel of so many turns is
//! (`specs/Unrolled.antt`) and how many turns a block has (`specs/Limits.antt`).
#![tactic(auto)]

mod compiling;
mod copying;
pub mod counted;
mod law;
mod limits;
mod loop_reading;
mod moving;
mod near;
mod running;
mod turn;
mod unrolling;

pub use compiling::{compile_loop, compile_loop_described, compile_loop_more};
pub use counted::Loop;
pub use law::one_looped_is_compiled;
pub use limits::turns_of;
pub use loop_reading::{loop_place, parse_loop};
pub use near::{stay_near, turns_asked};
pub use running::{run_both, run_loop, run_looped};
pub use turn::Turn;
pub use unrolling::unroll;
pub use vg_bits::Outcome;
pub use vg_looped::{Looped, parse_looped, print_looped};
