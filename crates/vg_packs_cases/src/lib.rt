//! Cases of dependences and packs: which units depend on which, the store groups of kernels, the packs
//! that produce operands, and plain plans.
#![tactic(auto)]

#[cfg(test)]
mod dependences;
#[cfg(test)]
mod kernels;
#[cfg(test)]
mod plans;
#[cfg(test)]
mod producing;
#[cfg(test)]
mod shown;
