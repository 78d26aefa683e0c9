//! Worked cases of requests on texts in memory: each answer, each refusal by its numbers, and rooms that are too
//! small.
#![tactic(auto)]

#[cfg(test)]
mod answer_cases;
#[cfg(test)]
mod room;
