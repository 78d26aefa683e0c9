//! Scripts: operations written out for one immediate, as straight statements over words of at most 128 bits.
//!
//! `specs/Script.antt` says what a script is, `specs/Cells.antt` what it does, `specs/Formed.antt` when its widths fit, and
//! `specs/Views.antt` what the types here stand for.
//!
//! An `AllocError` is want of memory; nothing else is.
#![tactic(auto)]

pub mod script;
pub mod statements;
pub mod whole;
pub mod whole_number;
pub mod words;

pub use script::{Frame, Given, Low, Script, Word};
pub use statements::{
    make_arm, make_both, make_branch, make_copy_from, make_give, make_given_bits,
    make_given_number, make_given_word, make_last, make_pick, make_put, make_way,
};
pub use whole::Whole;
pub use whole_number::WholeNumber;
pub use words::{
    make_absolute, make_block, make_held, make_one, make_sel, make_shift_left, make_shift_right,
    make_two,
};
