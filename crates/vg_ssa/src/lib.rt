//! Kernels as numbered values: which units they have, and what terms and cut terms their values
//! have.
//!
//! `specs/Numbering.antt` says which units a kernel has, `specs/ValueTerm.antt` which terms, and
//! `specs/Cuts.antt` which cut terms. `specs/OfUnits.antt` says the same of any units over parameters.
#![tactic(auto)]

mod expressions;
mod kernels;
mod law;
mod numbering;
mod of_units;
mod operations;
mod value_terms;
mod values;

pub use kernels::kernel_units;
pub use law::{
    layouts_are_the_same, numbered_values_are_sound, units_are_counted, units_run_as_kernels,
    units_take_earlier_values,
};
pub use numbering::{number_more, number_values};
pub use of_units::number_units;
