//! Terms: what a lane or a value computes from its leaves, in bits. Their value, their order, their
//! text, how many bits their numbers need, and what a rule that rewrites them promises.
//!
//! An `AllocError` is want of memory; nothing else is.
#![tactic(auto)]

pub mod chain;
pub mod form;
pub mod known;
pub mod measure;
pub mod order;
pub mod print;
pub mod resize;
pub mod root;
pub mod rule;
pub mod term;
pub mod text;
pub mod value;

pub use order::order_is_total;
pub use print::print_term;
pub use resize::{low_part, low_two};
pub use rule::Rule;
pub use term::{LeafKey, OneOp, Term, TwoOp, make_const, make_leaf, make_one, make_sel, make_two};
pub use text::Names;
pub use value::Env;
