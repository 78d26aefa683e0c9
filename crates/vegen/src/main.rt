//! The program `vegen`: hands the words of the command line, the files and the standard streams to
//! the top call, and ends with its status.
#![tactic(auto)]

mod file_shelf;
mod program_words;
mod stream_sink;

use file_shelf::FileShelf;
use program_words::words_behind_name;
use std::alloc::{AllocError, Global};
use std::env;
use std::io::ErrorKind;
use std::process::ExitCode;
use stream_sink::StreamSink;
use vg_outside::{Sink, Words};
use vg_top::{Status, vegen};

/// Why there are no words.
enum NoWords {
    /// An argument is not text.
    NotText,
    Memory,
}

impl From<AllocError> for NoWords {
    fn from(_error: AllocError) -> NoWords {
        NoWords::Memory
    }
}

/// The words after the name of the program.
fn words_of(rt: &HostRuntime, alloc: Global) -> Result<Words, NoWords> {
    match env::args(rt) {
        Ok(all) => Ok(words_behind_name(alloc, all)?),
        Err(error) => Err(match error.kind() {
            ErrorKind::OutOfMemory => NoWords::Memory,
            _ => NoWords::NotText,
        }),
    }
}

fn main(rt: HostRuntime) -> ExitCode {
    let mut err = StreamSink::new(rt.stderr());
    let words = match words_of(&rt, rt.alloc()) {
        Ok(words) => words,
        Err(NoWords::NotText) => {
            let _ = err.write(b"vegen: usage\n");
            return ExitCode::from(Status::Usage.code());
        }
        Err(NoWords::Memory) => {
            let _ = err.write(b"vegen: memory\n");
            return ExitCode::from(Status::NoMemory.code());
        }
    };
    let mut shelf = FileShelf::new(&rt);
    let mut out = StreamSink::new(rt.stdout());
    let status = vegen(rt.alloc(), &words, &mut shelf, &mut out, &mut err);
    ExitCode::from(status.code())
}
