//! Worked cases of the top call: words, files and what comes of them.
#![tactic(auto)]

#[cfg(test)]
mod check_cases;
#[cfg(test)]
mod check_more_cases;
#[cfg(test)]
mod compile_cases;
#[cfg(test)]
mod desk;
#[cfg(test)]
mod eval_cases;
#[cfg(test)]
mod guard_cases;
#[cfg(test)]
mod guarded_loop_cases;
#[cfg(test)]
mod hostile_cases;
#[cfg(test)]
mod instruction_files;
#[cfg(test)]
mod loop_cases;
#[cfg(test)]
mod memories;
#[cfg(test)]
mod more_cases;
#[cfg(test)]
mod option_cases;
#[cfg(test)]
mod outside_cases;
#[cfg(test)]
mod run_cases;
#[cfg(test)]
mod terms_cases;
#[cfg(test)]
mod text_cases;
#[cfg(test)]
mod trial_cases;
