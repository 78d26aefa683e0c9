//! The events of units.

ghost use Rattle.std.specs.Prelude.{◌≡◌, ◌++◌, ◌∷◌, [], IfOk, OnOk};
ghost use Rattle.vg_paired.specs.Sweeps.{AreSpans};

use crate::accesses::push_any;
use crate::byte_label::ByteLabel;
use std::alloc::{AllocError, Global};
use vg_shapes::Access;

/// The labels of the events of units, and for each unit the number of its first event. Behind the last
/// unit stands the number of all events.
#[derive(Drop)]
pub(crate) struct Spans {
    pub(crate) labels: Vec<ByteLabel>,
    pub(crate) begins: Vec<usize>,
}

/// The events of what units access.
pub(crate) fn spans_of(alloc: Global, accesses: &[Option<Access>]) -> Result<Spans, AllocError>
    ensures { IfOk result (AreSpans accesses.now) }
{
    let mut labels = Vec::new(alloc);
    let mut begins = Vec::new(alloc);
    begins.push(0)?;
    'accesses: for access in accesses {
        push_any(&mut labels, *access)?;
        let begin = labels.as_slice().len();
        begins.push(begin)?;
    }
    Ok(Spans { labels, begins })
}
