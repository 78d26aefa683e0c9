//! Cases of numbered values: the terms and cut terms of the values of kernels, as printed text.
#![tactic(auto)]

#[cfg(test)]
mod cut_terms;
#[cfg(test)]
mod cuts;
#[cfg(test)]
mod large;
#[cfg(test)]
mod numbered;
#[cfg(test)]
mod terms;
