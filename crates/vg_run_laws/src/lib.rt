//! What `run` answers on a text that `compile` wrote is what `eval` answers on the kernel or the
//! loop, what is answered to words is one text, and what `check` calls the same is the same with more:
//! laws, as functions that cost nothing to call.
//!
//! `specs/Laws.antt` states those on runs, `specs/OneAnswer.antt` and `specs/SameWithMore.antt` those on
//! answers.
#![tactic(auto)]

mod law;

pub use law::{
    compiled_texts_run_as_evaluated, guarded_loops_run_as_loops, guarded_texts_run_as_kernels,
    looped_texts_run_as_loops, one_answer, programs_run_as_kernels, same_with_more,
};
