//! Guards: two programs for one kernel, one of them as if every pointer were noalias, and the
//! checks that choose between them.
//!
//! `specs/Checks.antt` says which checks a kernel has and when they hold, `specs/Noalias.antt` what
//! the kernel with every pointer noalias is, `specs/Guarded.antt` what the text and the meaning of
//! guarded programs are, `specs/Grammar.antt` what the first fault of any other text is, and
//! `specs/Compiled.antt` what is compiled of a kernel with guards. `specs/OneGuarded.antt` says that
//! this is one.
#![tactic(auto)]

pub mod check;
mod compiling;
pub mod guarded;
mod kernel_checks;
mod laws;
mod noalias;
pub mod parts;
mod printing;
mod reach;
mod reaching;
mod reading;
mod span;

pub use check::Check;
pub use compiling::{compile_guarded, compile_guarded_described, compile_guarded_more};
pub use guarded::{Guarded, checks_hold};
pub use kernel_checks::checks_of;
pub use laws::{
    checks_keep_apart, checks_keep_rules, guarded_programs_fit, noalias_is_well_formed,
    one_guarded_is_compiled,
};
pub use noalias::all_noalias;
pub use printing::print_guarded;
pub use reading::parse_guarded;
