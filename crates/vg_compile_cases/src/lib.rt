//! Cases of the compiler: what the programs of small kernels cost, and that they leave what the
//! kernels leave.
#![tactic(auto)]

#[cfg(test)]
mod beside;
#[cfg(test)]
mod calls;
#[cfg(test)]
mod entries;
#[cfg(test)]
mod fed_plans;
#[cfg(test)]
mod kernels;
#[cfg(test)]
mod more_plans;
#[cfg(test)]
mod moves;
#[cfg(test)]
mod plans;
#[cfg(test)]
mod rewritten_plans;
