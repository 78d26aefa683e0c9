//! What the words of a command line ask for.
//!
//! [`request_of`] reads them. `specs/Request.antt` says what they mean: the command, the options
//! that are taken out first (`specs/Parts.antt`, `specs/Options.antt`), the files that are left,
//! the words that bind parameters (`specs/Binding.antt`), and the number of a trial.
#![tactic(auto)]

pub mod binding;
mod options;
mod part;
mod reading;
mod request;
mod word;

pub use options::Options;
pub use request::{Request, request_of};
