//! Cases of lifting: lanes of entries of files, their values, and what is printed of them.
#![tactic(auto)]

#[cfg(test)]
mod entries;
#[cfg(test)]
mod instances;
#[cfg(test)]
mod printed;
#[cfg(test)]
mod values;
