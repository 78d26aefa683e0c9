//! A sink that keeps nothing.

ghost use Rattle.std.specs.Prelude.{IsOk, None};

use crate::{Sink, SinkFault};

/// Takes all bytes and keeps none. It tells nothing and never fails.
#[derive(Drop)]
pub struct DropSink;

impl DropSink {
    /// A sink that drops what is written.
    pub fn new() -> DropSink {
        DropSink
    }
}

impl Sink for DropSink {
    ghost written = { λ _. None };

    ghost faults = { λ _. 0 };

    fn write(&mut self, _bytes: &[u8]) -> Result<(), SinkFault>
        ensures { IsOk result }
    {
        Ok(())
    }
}
