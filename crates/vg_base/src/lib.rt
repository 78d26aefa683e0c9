//! What several crates speak of and none of them owns: lists and names inside types, widths of
//! integers, low bits of numbers, and in `specs/` the definitions of bits and numbers, of memory, and
//! of steps that may fail.
#![tactic(auto)]

pub mod address;
pub mod items;
pub mod name;
pub mod number;
pub mod width;

pub use address::Address;
pub use items::Items;
pub use name::Name;
pub use width::Width;
