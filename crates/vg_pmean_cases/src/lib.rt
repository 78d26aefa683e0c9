//! Cases of scripts that are run.
#![tactic(auto)]

#[cfg(test)]
mod entries;
#[cfg(test)]
mod runs;
#[cfg(test)]
mod worked_rows;
