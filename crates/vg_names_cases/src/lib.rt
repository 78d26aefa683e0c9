//! Cases of names in operation texts: what they mean where they stand, and where they are refused.
#![tactic(auto)]

#[cfg(test)]
mod entries;
#[cfg(test)]
mod meanings;
#[cfg(test)]
mod refusals;
