//! What marks of units tell of an operand's values.

ghost use Rattle.std.specs.Prelude.{◌≡◌};
ghost use Rattle.std.specs.List.{list_all, list_any};
ghost use Rattle.vg_cost.specs.Touch.{may_be_given, may_be_all_given, may_be_marked, may_use_marked};

use crate::marks::is_marked;
use vg_kernel_plans::wants::value_of;
use vg_shapes::{Operand, Slot, Wanted};

/// Whether a value that is wanted may be one of the units that are marked.
fn may_be_marked(marks: &[bool], wanted: Wanted) -> bool
    ensures { result ≡ may_be_marked marks.now wanted }
{
    match value_of(wanted) {
        Some(value) => is_marked(marks, value),
        None => false,
    }
}

fn some_may_be_one(marks: &[bool], slots: &[Slot]) -> bool
    ensures { result ≡ list_any (λ s. may_be_marked marks.now s.wanted) slots.now }
{
    slots.iter().any(|s| may_be_marked(marks, s.wanted))
}

/// Whether one of an operand's values may be a unit that is marked. Where it may not, none is.
pub(crate) fn may_use_marked(marks: &[bool], operand: &Operand) -> bool
    ensures { result ≡ may_use_marked marks.now operand.now }
{
    some_may_be_one(marks, operand.slots.as_slice())
}

/// Whether what is wanted is no value, or may be one of the units that are marked.
fn may_be_given(marks: &[bool], wanted: Wanted) -> bool
    ensures { result ≡ may_be_given marks.now wanted }
{
    match value_of(wanted) {
        Some(value) => is_marked(marks, value),
        None => true,
    }
}

fn all_may_be_had(marks: &[bool], slots: &[Slot]) -> bool
    ensures { result ≡ list_all (λ s. may_be_given marks.now s.wanted) slots.now }
{
    slots.iter().all(|s| may_be_given(marks, s.wanted))
}

/// Whether all of an operand's values may be units that are marked. Where they may not, one is not.
pub(crate) fn may_be_all_given(marks: &[bool], operand: &Operand) -> bool
    ensures { result ≡ may_be_all_given marks.now operand.now }
{
    all_may_be_had(marks, operand.slots.as_slice())
}
