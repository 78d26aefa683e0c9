//! How the operands of plans are brought into registers: which recipe each operand takes, and that the
//! recipe keeps what is asked of it where lines are emitted.
//!
//! `specs/Recipes.antt` says which recipe an operand takes beside the packs of a plan, and
//! `specs/Laws.antt` says what registers of constants, with values put in, and registers of packs
//! promise of an operand. `specs/Adding.antt` says how bytes with a number added are made, and
//! `specs/Cheapest.antt` which of several shuffles is taken.
//!
//! An `AllocError` is want of memory; nothing else is.
#![tactic(auto)]

pub mod constant_bytes;
mod gathering;
mod law;
mod shuffling;

pub use gathering::{build_operand, recipes_of};
pub use law::{
    constants_fill, constants_fit, holders_fill, holders_fit, holders_give, inserts_fill,
    plans_count_recipes, plans_take_given, recipes_cost_the_plan, recipes_insert_the_plan,
    recipes_take_given,
};
