//! A stream as a sink. What it shows is trusted, and not told.

ghost use Rattle.std.specs.Prelude.{◌≡◌, ℕ, ◌≤◌, take, None, OnOk, OnErr};
ghost use Rattle.std.specs.Io.KnownBytes.{Appends};
ghost use Rattle.vg_outside.specs.Count.{Rose};

use std::io::{ErrorKind, Write};
use vg_outside::{Sink, SinkFault};

/// A stream of the system.
#[derive(Drop)]
pub struct StreamSink<W> {
    to: W,
    faults: u64,
}

impl<W: Write> StreamSink<W> {
    /// The sink that writes to this stream, with no fault counted.
    pub fn new(to: W) -> StreamSink<W>
        ensures stream { result.to ≡ to }
        ensures faults { result.faults ≡ 0 }
    {
        StreamSink { to, faults: 0 }
    }
}

/// Writes all bytes and flushes. A write that takes nothing is a failure.
#[tactic(auto, using(crate::proofs::Streams::appends_more))]
fn write_whole<W: Write>(to: &mut W, bytes: &[u8]) -> Result<(), SinkFault>
    ensures whole { OnOk result (Appends (W.contents to.old) (W.contents to.new) bytes.now) }
    ensures front { OnErr result ((n : ℕ)
        × Appends (W.contents to.old) (W.contents to.new) (take n bytes.now)) }
{
    let mut done = 0;
    'pieces: for _ in 0..u64::MAX {
        if done == bytes.len() {
            return match to.flush() {
                Ok(()) => Ok(()),
                Err(_) => Err(SinkFault),
            };
        }
        match to.write(&bytes[done..]) {
            Ok(0) => return Err(SinkFault),
            Ok(count) => done += count,
            Err(error) => {
                if error.kind() != ErrorKind::Interrupted {
                    return Err(SinkFault);
                }
            }
        }
    }
    Err(SinkFault)
}

impl<W: Write> Sink for StreamSink<W> {
    ghost written = { λ _. None };

    ghost faults = { λ s. s.faults };

    fn write(&mut self, bytes: &[u8]) -> Result<(), SinkFault>
        ensures whole { OnOk result
            (Appends (W.contents self.old.to) (W.contents self.new.to) bytes.now) }
        ensures front { OnErr result ((n : ℕ)
            × Appends (W.contents self.old.to) (W.contents self.new.to) (take n bytes.now)) }
        ensures fault { OnErr result (Rose self.old.faults self.new.faults) }
        ensures faults_never_fall { self.old.faults ≤ self.new.faults }
    {
        let written = write_whole(&mut self.to, bytes);
        if written.is_err() {
            self.faults = self.faults.saturating_add(1);
        }
        written
    }
}

#[cfg(test)]
mod tests {
    use super::*;
    use std::io;
    use std::test::Fail;

    /// Takes three bytes a call, up to its room, and is interrupted before each call that takes some.
    #[derive(Drop)]
    struct Narrow {
        bytes: Vec<u8>,
        room: usize,
        halted: bool,
    }

    impl Write for Narrow {
        fn write(&mut self, buf: &[u8]) -> io::Result<usize> {
            self.halted = !self.halted;
            if self.halted {
                return Err(io::Error::from(ErrorKind::Interrupted));
            }
            let left = self.room.saturating_sub(self.bytes.len());
            let count = buf.len().min(3).min(left);
            self.bytes.extend_from_slice(&buf[..count])?;
            Ok(count)
        }

        fn flush(&mut self) -> io::Result<()> {
            Ok(())
        }
    }

    /// Takes at most 65,536 bytes a call. Flushes fail after so many good ones.
    #[derive(Drop)]
    struct Wide {
        bytes: Vec<u8>,
        flushes: u64,
        good: u64,
    }

    impl Write for Wide {
        fn write(&mut self, buf: &[u8]) -> io::Result<usize> {
            let count = buf.len().min(65_536);
            self.bytes.extend_from_slice(&buf[..count])?;
            Ok(count)
        }

        fn flush(&mut self) -> io::Result<()> {
            self.flushes = self.flushes.saturating_add(1);
            if self.flushes > self.good {
                return Err(io::Error::from(ErrorKind::BrokenPipe));
            }
            Ok(())
        }
    }

    #[test]
    fn many_bytes_are_written_piece_by_piece_and_a_failed_flush_is_a_fault(
        rt: HostRuntime,
    ) -> Result<(), Fail> {
        let bytes = vec![in rt.alloc(); 7; 5_000_001]?;
        let wide = Wide {
            bytes: Vec::new(rt.alloc()),
            flushes: 0,
            good: 1,
        };
        let mut sink = StreamSink::new(wide);
        assert!(rt; sink.write(bytes.as_slice()).is_ok());
        assert!(rt; sink.to.bytes == bytes);
        assert_eq!(rt; sink.faults, 0);
        assert!(rt; sink.write(b"8").is_err());
        assert_eq!(rt; sink.faults, 1);
        Ok(())
    }

    #[test]
    fn a_stream_takes_all_pieces_or_is_a_fault(rt: HostRuntime) -> Result<(), Fail> {
        let narrow = Narrow {
            bytes: Vec::new(rt.alloc()),
            room: 10,
            halted: false,
        };
        let mut sink = StreamSink::new(narrow);
        assert!(rt; sink.write(b"1234567").is_ok());
        assert!(rt; sink.write(b"").is_ok());
        assert!(rt; sink.write(b"89ab").is_err());
        assert_eq!(rt; sink.faults, 1);
        assert_eq!(rt; sink.to.bytes.as_slice(), b"123456789a".as_slice());
        Ok(())
    }
}
