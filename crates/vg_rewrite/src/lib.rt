//! The units of a kernel, rewritten before they are planned: numbers in the width that they need.
//!
//! `specs/Choice.antt` says in which widths a number can be had, and `specs/Form.antt` how the number
//! of a value is had at a width. `specs/Laws.antt` says that it is so in every run.
//!
//! `specs/Narrowed.antt` and `specs/Repeated.antt` define which units are planned beside a kernel's
//! own: each number in the widths that are asked of it, and each free use of a load with a load of
//! its own. `specs/Running.antt` says that they run as the kernel's own do, and `specs/Rewritten.antt`
//! which lists of units are planned and what they keep of a kernel.
#![tactic(auto)]

mod asked;
mod asking;
mod choice;
mod form;
mod forms;
mod kept;
mod law;
mod meetings;
mod narrow;
mod narrowing;
mod renumbered;
mod repeat;
mod repeating;
mod sources;
mod standing;

pub use asked::Asked;
pub use choice::{Compared, Reading, Shifted};
pub use form::{Form, Made};
pub use forms::value_form;
pub use law::{
    forms_hold, narrowed_units_run_alike, repeated_units_run_alike, rewritten_units_run_alike,
    standing_is_apart,
};
pub use narrow::narrowed_units;
pub use renumbered::{copy_params, narrowed, narrowed_repeated, repeated};
pub use repeat::repeated_units;
pub use standing::Standing;
