//! Counted loops over the definitions of kernels: what a loop does, its kernel of so many turns, and what
//! holds of them, as functions that cost nothing to call.
//!
//! `specs/Loops.antt` says what a loop does, `specs/Unrolled.antt` what the kernel of so many turns is,
//! `specs/Inputs.antt` what a loop may be run on, `specs/Limits.antt` how many turns a block has, and
//! `specs/Laws.antt` states the laws.
#![tactic(auto)]

mod law;

pub use law::{
    blocks_and_rest_are_turns, blocks_mean_loop, blocks_respect, fewer_keep_limits,
    one_turn_is_the_kernel, turns_are_most, unrolled_are_turns, unrolled_costs,
    unrolled_is_well_formed,
};
