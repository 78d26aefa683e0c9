//! Sinks: where bytes are written to.

ghost use Rattle.std.specs.Prelude.{◌≡◌, ◌≤◌, List, ℕ, OnOk, OnErr, Option};
ghost use Rattle.vg_outside.specs.Count.{Rose};
ghost use Rattle.vg_outside.specs.Sink.{Appends, AppendsFront};

use thiserror::Error;

/// The sink took no more.
#[derive(Debug, Drop, Error)]
#[error("the output cannot be written")]
pub struct SinkFault;

/// A place for bytes. What was written is told or not; the count of faults is always there, and
/// never falls. A count that stands at 2^64 - 1, its last value, is taken as risen.
pub trait Sink {
    /// All bytes that were written, where it tells.
    ghost written: { Self → Option (List ℕ) };

    /// How often it failed.
    ghost faults: { Self → ℕ };

    /// Writes the bytes after what was written. On `Err` only some of the first were written.
    fn write(&mut self, bytes: &[u8]) -> Result<(), SinkFault>
        ensures whole { OnOk result (Appends (written self.old) bytes.now (written self.new)) }
        ensures front { OnErr result (AppendsFront (written self.old) bytes.now (written
            self.new)) }
        ensures fault { OnErr result (Rose (faults self.old) (faults self.new)) }
        ensures faults_never_fall { faults self.old ≤ faults self.new };
}
