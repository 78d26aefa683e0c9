//! Cases of the checker: kernels and programs from anywhere, and the first difference of each.
#![tactic(auto)]

#[cfg(test)]
mod beside;
#[cfg(test)]
mod large;
#[cfg(test)]
mod levelled;
#[cfg(test)]
mod rows;
