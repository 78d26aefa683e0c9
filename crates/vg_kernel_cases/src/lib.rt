//! Worked cases of kernels and of what they stand on: bits, tokens, texts of kernels, and their runs.
#![tactic(auto)]

#[cfg(test)]
mod bit_cases;
#[cfg(test)]
mod kernel_faults;
#[cfg(test)]
mod kernel_fronts;
#[cfg(test)]
mod kernel_limits;
#[cfg(test)]
mod kernel_parts;
#[cfg(test)]
mod kernel_readings;
#[cfg(test)]
mod kernel_runs;
#[cfg(test)]
mod kernel_texts;
#[cfg(test)]
mod memories;
#[cfg(test)]
mod token_cases;
