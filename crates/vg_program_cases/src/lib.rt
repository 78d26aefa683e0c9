//! Worked cases of programs: their texts, and their runs on a machine.
#![tactic(auto)]

#[cfg(test)]
mod machine_cases;
#[cfg(test)]
mod memories;
#[cfg(test)]
mod part_cases;
#[cfg(test)]
mod program_cases;
#[cfg(test)]
mod vector_cases;
