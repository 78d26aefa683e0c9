//! Programs of plans: the lines that are emitted for the packs and units of a kernel in a legal order.
//!
//! `specs/Emission.antt` says which lines, `specs/Program.antt` which program they make,
//! `specs/Promises.antt` what registers promise, `specs/Planned.antt` what is right for a kernel,
//! `specs/Laws.antt` what the program means, `specs/Costs.antt` what it costs, and `specs/Fit.antt`
//! when it keeps the rules on programs, and `specs/Scalar.antt` is the program of a kernel without packs.
#![tactic(auto)]

mod law;

pub use law::{
    emitted_programs_call_described_instances, emitted_programs_cost_their_plans,
    emitted_programs_keep_the_rules, emitted_programs_mean_their_units, no_packs_are_scalar,
    two_words_are_two_lines, two_words_mean_their_units,
};
