//! Programs: their type, what makes one valid, its text, its meaning and its cost, the printing and
//! the reading.
//!
//! `specs/Valid.antt`, `specs/Text.antt`, `specs/Meaning.antt` and `specs/Cost.antt` define them;
//! `specs/Grammar.antt` says what the first fault of any other text is.
#![tactic(auto)]

mod before;
mod call_reading;
mod costs;
mod counts;
pub mod defined;
mod fault;
mod head;
mod head_reading;
mod left;
pub mod line;
mod line_reading;
mod named;
mod naming;
pub mod operand;
mod operand_reading;
pub mod param;
pub mod param_kind;
mod param_reading;
mod parsing;
pub mod parts;
mod printing;
pub mod program;
pub mod program_fault;
pub mod signature;
mod sizes;
mod stop;
mod tokens;
mod traps;
mod vector_reading;
pub mod vector_size;
mod wanted;
mod words;

pub use costs::cost;
pub use counts::Counts;
pub use defined::Defined;
pub use line::Line;
pub use operand::Operand;
pub use param::Param;
pub use param_kind::ParamKind;
pub use parsing::{MOST_BYTES, one_program, parse_program};
pub use printing::print_program;
pub use program::Program;
pub use program_fault::ProgramFault;
pub use signature::Signature;
pub use sizes::{bodies_are_short, short_programs_fit};
pub use traps::traps_outside;
pub use vector_size::VectorSize;
