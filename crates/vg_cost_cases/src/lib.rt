//! Cases of costs and recipes: what plans of small kernels cost, each counted by hand, and how
//! operands are brought into registers.
#![tactic(auto)]

#[cfg(test)]
mod costs;
#[cfg(test)]
mod kernels;
#[cfg(test)]
mod plans;
#[cfg(test)]
mod recipes;
#[cfg(test)]
mod running;
