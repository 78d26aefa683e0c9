//! Worked cases of guards inside loops: the texts of guarded loops, what is compiled of loops with
//! guards, and how it runs.
#![tactic(auto)]

#[cfg(test)]
mod compiled_cases;
#[cfg(test)]
mod running;
#[cfg(test)]
mod text_cases;
