//! Worked cases of terms, of the rules that rewrite them, and of the canonical form, each read from the
//! text that a term prints as.
#![tactic(auto)]

#[cfg(test)]
mod canon_cases;
#[cfg(test)]
mod choice_cases;
#[cfg(test)]
mod large_cases;
#[cfg(test)]
mod node_cases;
#[cfg(test)]
mod pool_cases;
#[cfg(test)]
mod reader;
#[cfg(test)]
mod same_sum_cases;
#[cfg(test)]
mod sum_cases;
#[cfg(test)]
mod tables;
#[cfg(test)]
mod term_cases;
#[cfg(test)]
mod width_cases;
