//! The program that is emitted for a plan of a kernel, with a recipe for each operand, in an order.
//!
//! `vg_emission`'s `specs/Program.antt` says which program that is. Here `specs/Views.antt` says
//! what the types of the code stand for, `specs/Marks.antt` how values that are needed are marked,
//! and `specs/Placing.antt` and `specs/Packing.antt` which lines parts of the code add.
//! `vg_gather`'s `specs/Recipes.antt` names the program of a plan whose operands take its recipes.
#![tactic(auto)]

mod draft;
mod emitting;
mod extracts;
mod job;
mod marks;
mod needed;
mod numbers;
mod packs;
mod placing;
mod program;
mod scalars;
mod takes;

pub use emitting::{emit, emit_described};
