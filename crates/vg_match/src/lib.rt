//! Which lanes of descriptions compute which values of a kernel.
#![tactic(auto)]

mod fit;
mod lane_list;
mod law;
mod least;
mod matching;
mod names;
mod root;
mod table;
mod values;

pub use law::{
    bound_values_are_earlier, found_matches_fit, lanes_have_numbers, reached_terms_have_numbers,
    there_is_one_binding, there_is_one_table,
};
pub use matching::build;

/// The greatest number of descriptions, of values, of lanes of a description, and of matches and
/// bound leaves together.
pub(crate) const MOST_NODES: usize = 16_777_216;
