//! What is read of the texts of kernels, instruction files, programs, guarded and looped texts and
//! guarded loops: each reader reads a language, as functions that cost nothing to call.
//!
//! `specs/Language.antt` says what that means, `specs/Laws.antt` states the laws. Of loops they
//! stand in `vg_loop_grammar`.
#![tactic(auto)]

mod law;

pub use law::{
    guarded_loops_are_a_language, guarded_texts_are_a_language, instruction_files_are_a_language,
    kernels_are_a_language, looped_texts_are_a_language, programs_are_a_language,
};
