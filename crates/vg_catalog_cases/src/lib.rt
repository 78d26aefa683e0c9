//! Cases of instruction files: what is read of them, and where they are refused.
#![tactic(auto)]

#[cfg(test)]
mod call_sides;
#[cfg(test)]
mod deep_texts;
#[cfg(test)]
mod extension_sets;
#[cfg(test)]
mod file_texts;
#[cfg(test)]
mod header_words;
#[cfg(test)]
mod judging_order;
#[cfg(test)]
mod long_texts;
#[cfg(test)]
mod many_entries;
#[cfg(test)]
mod names_refused;
#[cfg(test)]
mod refusals;
#[cfg(test)]
mod sizes;
#[cfg(test)]
mod slices_refused;
#[cfg(test)]
mod steps;
#[cfg(test)]
mod widths_refused;
