//! Room for an answer, and what is told in it.

use std::alloc::Global;
use std::process::Abort;
use std::test::Fail;
use vg_answers::Report;

/// What is told of a request: the status, the bytes of the answer, and the number and the place of a refusal.
#[derive(Clone, Copy, PartialEq, Eq)]
pub struct Told {
    pub status: u32,
    pub count: usize,
    pub number: u32,
    pub line: u32,
    pub column: u32,
}

impl Told {
    /// An answer of so many bytes, or an ending that names no place.
    pub fn of(status: u32, count: usize) -> Told {
        Told {
            status,
            count,
            number: 0,
            line: 0,
            column: 0,
        }
    }

    /// A refusal of this number at this place.
    pub fn refused(status: u32, number: u32, line: u32, column: u32) -> Told {
        Told {
            status,
            count: 0,
            number,
            line,
            column,
        }
    }
}

/// Room for an answer.
#[derive(Drop)]
pub struct Room {
    pub out: Vec<u8>,
    pub report: Report,
}

impl Room {
    /// Room for so many bytes.
    pub fn new(alloc: Global, size: usize) -> Result<Room, Fail> {
        let report = Report {
            count: 0,
            number: 0,
            line: 0,
            column: 0,
        };
        let out = Vec::from_elem(alloc, b'.', size)?;
        Ok(Room { out, report })
    }

    /// What is told with this status.
    pub fn told(&self, status: u32) -> Told {
        Told {
            status,
            count: self.report.count,
            number: self.report.number,
            line: self.report.line,
            column: self.report.column,
        }
    }

    /// Asserts what is told, and the bytes of the answer.
    pub fn expect(&self, rt: &impl Abort, status: u32, wanted: Told, text: &[u8]) {
        assert!(rt; self.told(status) == wanted);
        assert!(rt; self.out.as_slice().starts_with(text));
    }
}
