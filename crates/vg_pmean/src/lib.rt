//! What instructions do: their scripts, run on registers.
#![tactic(auto)]

mod apply;
mod cells;
mod entries;
mod evaluate;
mod extent;
mod frame_room;
mod frames;
mod instance;
mod need;
mod pieces;
mod prepared;

pub use entries::answer_once;
pub use instance::Instance;
pub use prepared::Prepared;
