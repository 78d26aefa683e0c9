//! Marks of numbers.

ghost use Rattle.std.specs.Prelude.{◌≡◌, IfOk, false, replicate};

use std::alloc::{AllocError, Global};

/// As many marks as `count`, none set. Fails only for want of memory.
pub fn clear_marks(alloc: Global, count: usize) -> Result<Vec<bool>, AllocError>
    ensures { IfOk result (λ marks. marks.items ≡ replicate count false) }
{
    vec![in alloc; false; count]
}
