//! Terms of values and of what stands in registers.
#![tactic(auto)]

mod classes;
mod form;
mod gather;
mod gathered;
mod lane;
mod leaves;
mod maker;
mod operation;
mod run;
mod wholes;

pub use classes::Classes;
pub use form::Form;
pub use lane::Inputs;
pub use leaves::{argument_key, load_key};
pub use maker::Maker;
pub use run::{Run, push_range};
pub use wholes::Wholes;
