//! Cases of operation texts: what is read of them, and where they are refused.
#![tactic(auto)]

#[cfg(test)]
mod limits;
#[cfg(test)]
mod operation_texts;
#[cfg(test)]
mod readings;
#[cfg(test)]
mod refusals;
#[cfg(test)]
mod spelling;
