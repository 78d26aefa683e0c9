//! Cases of rewritten units: kernels, and what their units become.
#![tactic(auto)]

#[cfg(test)]
mod narrowed;
#[cfg(test)]
mod repeated;
#[cfg(test)]
mod units;
