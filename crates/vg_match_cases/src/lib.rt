//! Cases of matches: which lanes compute which values, and what their leaves are bound to.
#![tactic(auto)]

#[cfg(test)]
mod matches;
#[cfg(test)]
mod shown;
#[cfg(test)]
mod terms;
#[cfg(test)]
mod wide;
