//! Instruction files: entries, each of which has a header and an operation.
//!
//! [`parse_file`] reads and judges a file. `specs/Files.antt` says in which order, and
//! `specs/Headers.antt` how the header of an entry is read, word by word.
#![tactic(auto)]

pub mod catalog;
mod comments;
mod extensions;
pub mod fault;
mod file;
mod header_reading;
mod lanes;
mod reader;
mod words;

pub use catalog::Catalog;
pub use extensions::Extensions;
pub use fault::CatalogFault;
pub use file::parse_file;
