//! A sink in memory.

ghost use Rattle.std.specs.Prelude.{◌≡◌, ◌≤◌, IfOk, is_ok, Some};
ghost use Rattle.vg_outside.specs.MemSink.{new_sink, fits, after_write};

use crate::{Sink, SinkFault};
use std::alloc::{AllocError, Global};
use std::marker::Model;

/// A sink in memory with room for a number of bytes, all of which it takes when it is made.
#[derive(Drop)]
pub struct MemSink {
    bytes: Vec<u8>,
    room: usize,
    faults: u64,
}

impl Model for MemSink {
    ghost use Rattle.std.specs.Prelude.{◌≤◌, length, vec_capacity};
    ghost use Rattle.vg_outside.specs.MemSink.{SinkState};

    ghost Value = { SinkState };

    ghost view = { λ s. record { written = s.bytes.items; room = s.room; faults = s.faults } };

    ghost invariant = { λ s. (length s.bytes.items ≤ s.room) × (s.room ≤ vec_capacity s.bytes) };
}

impl MemSink {
    /// A sink with room for this number of bytes and nothing written. All its memory is taken here.
    pub fn new(alloc: Global, room: usize) -> Result<MemSink, AllocError>
        ensures { IfOk result (λ sink. sink ≡ new_sink room) }
    {
        let bytes = Vec::with_capacity(alloc, room)?;
        Ok(MemSink {
            bytes,
            room,
            faults: 0,
        })
    }

    /// All bytes that were written.
    pub fn written(&self) -> &[u8]
        ensures { result.now ≡ self.now.written }
    {
        self.bytes.as_slice()
    }
}

impl Sink for MemSink {
    ghost written = { λ s. Some s.written };

    ghost faults = { λ s. s.faults };

    fn write(&mut self, bytes: &[u8]) -> Result<(), SinkFault>
        ensures answer { is_ok result ≡ fits self.old bytes.now }
        ensures after { self.new ≡ after_write self.old bytes.now }
        ensures faults_never_fall { self.old.faults ≤ self.new.faults }
    {
        let left = self.room - self.bytes.len();
        if bytes.len() <= left {
            self.bytes.extend_from_slice(bytes).unwrap();
            return Ok(());
        }
        self.bytes.extend_from_slice(&bytes[..left]).unwrap();
        self.faults = self.faults.saturating_add(1);
        Err(SinkFault)
    }
}
