//! Laws of accepted instances, over the definitions of the walk that judges them.
//!
//! `specs/Static.antt` says what a static script is, and `specs/StaticInstances.antt` which instances
//! have one.
#![tactic(auto)]

mod law;

pub use law::instances_are_static;
