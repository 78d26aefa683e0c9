//! Worked cases of counted loops: their texts, their turns, and what is compiled of them.
#![tactic(auto)]

#[cfg(test)]
mod compiled_cases;
#[cfg(test)]
mod looped_cases;
#[cfg(test)]
mod reading_cases;
#[cfg(test)]
mod running;
#[cfg(test)]
mod turn_cases;
