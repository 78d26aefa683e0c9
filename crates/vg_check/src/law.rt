//! The law on what is told with more.

ghost use Rattle.vg_check.specs.Laws.{SameIsToldWithMore};

use vg_known::same_is_same_with_more;

/// A law: where nothing is told of a kernel and a program, nothing is told with more.
pub fn same_is_told_with_more()
    ensures { SameIsToldWithMore }
{
    same_is_same_with_more();
}
