//! Guards inside counted loops: the guarded loop that is compiled of a loop, and its run.
//!
//! `specs/Meaning.antt` says what a guarded loop does, and `specs/CompiledGuardedLoop.antt` what is
//! compiled of a loop with guards. `vg_guarded_loop` has the texts.
#![tactic(auto)]

mod compiling;
mod guarded_turn;
mod law;
mod running;

pub use compiling::{compile_guarded_loop, compile_guarded_loop_described};
pub use law::one_guarded_loop_is_compiled;
pub use running::run_guarded_loop;
pub use vg_bits::Outcome;
