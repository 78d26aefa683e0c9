//! Requests on texts in memory with a library that is kept: each answer, or why there is none, as numbers
//! and a text that is laid into the room of the caller.
//!
//! `specs/Told.antt` says what each request is told, by the definitions of the commands (`vg_top`), and
//! `specs/Answered.antt` how it is laid.
#![tactic(auto)]

mod checking;
mod compiling;
mod given;
mod reading;
mod report;
mod running;

pub use checking::check;
pub use compiling::compile;
pub use reading::read;
pub use report::Report;
pub use running::{eval, run};
pub use vg_top::Task;
