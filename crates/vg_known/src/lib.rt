//! What is known of the scalars and registers of a program without a run, and the first difference between a
//! kernel and a program. Laws alone, as functions that cost nothing to call. `specs/Known.antt` tells what
//! is known after each line, `specs/Kernels.antt` what is of the values of a kernel, `specs/Cuts.antt` how
//! terms are made and large ones cut, `specs/FirstLoads.antt` which loads read the same,
//! `specs/Difference.antt` what the first difference is, and `specs/WiderDifference.antt` what it is with more,
//! where terms count as equal by whole terms and sums.
#![tactic(auto)]

mod law;

pub use law::{
    bytes_mean_the_word, equalities_are_sound, same_is_same_with_more, same_means_units,
};
