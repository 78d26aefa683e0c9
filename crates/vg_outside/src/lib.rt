//! What lies outside a run: shelves that files are read from, sinks that bytes are written to, and
//! the words of a command line. `Shelf` and `Sink` say what an object outside may do; the ones in
//! memory do exactly what they say.
#![tactic(auto)]

mod bytes;
mod drop_sink;
mod memory_shelf;
mod memory_sink;
mod shelf;
mod sink;
mod words;

pub use bytes::Bytes;
pub use drop_sink::DropSink;
pub use memory_shelf::MemShelf;
pub use memory_sink::MemSink;
pub use shelf::{Shelf, ShelfFault};
pub use sink::{Sink, SinkFault};
pub use words::Words;
