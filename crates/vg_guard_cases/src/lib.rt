//! Worked cases of guards: the checks of kernels, when they hold, and guarded texts.
#![tactic(auto)]

#[cfg(test)]
mod check_cases;
#[cfg(test)]
mod text_cases;
