//! Cases of emitted programs: the lines of small kernels under plans and orders that are given,
//! each written out by hand, and one plan in all its orders, each run.
#![tactic(auto)]

#[cfg(test)]
mod emitted;
#[cfg(test)]
mod lines;
#[cfg(test)]
mod orders;
