//! Cases of programs that call instructions, and of the lines on instructions.
#![tactic(auto)]

#[cfg(test)]
mod calls;
#[cfg(test)]
mod desk;
#[cfg(test)]
mod listings;
