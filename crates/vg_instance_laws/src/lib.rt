//! Instances that meet all premises of the large laws, each as a function that costs nothing to
//! call: so the laws do not speak of nothing.
//!
//! `specs/Swap.antt` has a program that `check` calls `same`, with a load, a register and a call, and
//! `specs/SummedSwap.antt` one with a sum beside them, that `check` calls so with `--more` alone.
//! `specs/WidePlan.antt` has a plan of which one call fits the values that it computes cut, and one
//! turned, as only `--more` finds them.
#![tactic(auto)]

mod law;

pub use law::{summed_swap_is_same, swap_is_same, wide_plan_means_units};
