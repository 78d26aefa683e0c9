//! Laws on the intervals of `vg_interval`: none is wider than its rule says.
#![tactic(auto)]

mod law;

pub use law::ends_are_made;
