//! Cases of lanes: what is printed of an instance, and which instances packs may call.
#![tactic(auto)]

#[cfg(test)]
mod listings;
#[cfg(test)]
mod terms;
