//! How often values are needed, and the lines of units by that.

ghost use Rattle.std.specs.Prelude.{◌≡◌, ◌<◌, ℕ, IfOk, List, get_or, length, replicate, true};
ghost use Rattle.vg_cost.specs.Needs.{AreNeeds, times_in};

use crate::change::Change;
use crate::settling::settle;
use std::alloc::{AllocError, Global};
use vg_shapes::Ssa;

/// How often each value of a kernel is needed as a scalar, by its number, and the lines of the units
/// that are written and of the values that are extracted.
#[derive(Drop)]
pub(crate) struct Needs {
    pub(crate) counts: Vec<u32>,
    pub(crate) lines: u64,
}

/// So many counts of 0. Fails only for want of memory.
pub(crate) fn clear_counts(alloc: Global, count: usize) -> Result<Vec<u32>, AllocError>
    ensures { IfOk result (λ counts. counts.items ≡ replicate count 0) }
{
    vec![in alloc; 0u32; count]
}

/// So many marks, all of them set. Fails only for want of memory.
fn all_marks(alloc: Global, count: usize) -> Result<Vec<bool>, AllocError>
    ensures { IfOk result (λ marks. marks.items ≡ replicate count true) }
{
    vec![in alloc; true; count]
}

/// How often values are needed where units of packs are marked, from how often inserts take them.
pub(crate) fn needs_from(
    alloc: Global,
    ssa: &Ssa,
    marks: &[bool],
    inserted: Vec<u32>,
) -> Result<Needs, AllocError>
    requires { length inserted.items ≡ length marks.now }
    ensures { IfOk result (λ needs. (values : List ℕ) →
        ((v : ℕ) → v < length marks.now → get_or inserted.items v 0 ≡ times_in v values) →
        AreNeeds ssa.now marks.now values needs.counts.items needs.lines) }
{
    let count = marks.len();
    let packed = all_marks(alloc, count)?;
    let none = clear_counts(alloc, count)?;
    let mut changed = all_marks(alloc, count)?;
    let mut counts = inserted;
    let first = ssa.arguments();
    let before = packed.as_slice();
    let unneeded = none.as_slice();
    let change = Change {
        ssa,
        first,
        packed: before,
        counts: unneeded,
        longer: marks,
    };
    let counted = counts.as_mut_slice();
    let marked = changed.as_mut_slice();
    let lines = settle(&change, counted, marked, 0)?;
    Ok(Needs { counts, lines })
}
