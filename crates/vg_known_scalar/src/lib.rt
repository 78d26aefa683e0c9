//! The scalar program of a kernel has no difference to it. A law alone, as a function that costs
//! nothing to call.
#![tactic(auto)]

mod law;

pub use law::scalar_programs_are_same;
