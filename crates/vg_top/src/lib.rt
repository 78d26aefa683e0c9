//! The commands: from the words of a command line and the bytes that are read to the bytes that are
//! written and the status.
#![tactic(auto)]

mod check;
mod ending;
mod eval;
mod files;
mod inputs;
mod instruction_file;
mod kept;
mod kernel_file;
mod lift;
mod message;
mod on_kernel;
mod program_file;
mod run;
mod status;
mod task;
mod terms;
mod top;
mod trial;

pub use check::compared;
pub use ending::{Ending, FileNumber};
pub use eval::{evaluate_bound, params_in};
pub use files::{INSTRUCTIONS_LIMIT, KERNEL_LIMIT, MEMORY_LIMIT, PROGRAM_LIMIT};
pub use inputs::{Inputs, values_in};
pub use instruction_file::catalog_of_text;
pub use kept::written_of_text;
pub use kernel_file::{KernelFile, guardable_of_text, kernel_alone_of_text, kernel_file_of_text};
pub use program_file::{ProgramFile, program_alone_of_text, program_of_text};
pub use run::run_bound;
pub use status::Status;
pub use task::Task;
pub use top::vegen;
pub use vg_outside as outside;
