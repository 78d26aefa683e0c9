//! The language of loops: which words spell which loop, and that its texts are those that are read,
//! as functions that cost nothing to call.
//!
//! `specs/Grammar.antt` says what a text of a loop is, `specs/Laws.antt` states the laws.
#![tactic(auto)]

mod law;

pub use law::{
    loop_texts_are_read, loop_texts_keep_the_rules, no_loop_text_is_a_kernel,
    refused_exactly_where_no_loop, texts_spell_one_loop, what_is_read_is_a_loop,
};
