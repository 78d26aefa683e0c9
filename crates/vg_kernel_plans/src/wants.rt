//! What operands want in their slots.

ghost use Rattle.std.specs.Prelude.{◌≡◌, IfOk};
ghost use Rattle.std.specs.List.{list_any};
ghost use Rattle.vg_kernel_plans.specs.Wants.{is_constant, is_wanted, value_of, wanted_slots, wanted_values, wants_value};

use std::alloc::{AllocError, Global};
use vg_shapes::{Operand, Slot, Wanted};

/// The number of the value that is wanted; none where a constant or nothing is.
pub fn value_of(wanted: Wanted) -> Option<u32>
    ensures { result ≡ value_of wanted }
{
    match wanted {
        Wanted::Value(value) => Some(value),
        Wanted::Constant { .. } => None,
        Wanted::Nothing => None,
    }
}

/// Whether a value or a constant is wanted.
pub fn is_wanted(wanted: Wanted) -> bool
    ensures { result ≡ is_wanted wanted }
{
    match wanted {
        Wanted::Value(_) => true,
        Wanted::Constant { .. } => true,
        Wanted::Nothing => false,
    }
}

/// Whether a value is wanted, and neither a constant nor nothing.
pub fn wants_value(wanted: Wanted) -> bool
    ensures { result ≡ wants_value wanted }
{
    match wanted {
        Wanted::Value(_) => true,
        Wanted::Constant { .. } => false,
        Wanted::Nothing => false,
    }
}

/// The slots that want a value or a constant, in the order of the operand. Fails for want of memory
/// alone.
pub fn wanted_slots(alloc: Global, operand: &Operand) -> Result<Vec<Slot>, AllocError>
    ensures { IfOk result (λ slots. slots.items ≡ wanted_slots operand.now) }
{
    let slots = operand.slots.as_slice();
    slots
        .iter()
        .filter(|s| is_wanted(s.wanted))
        .copied()
        .collect(alloc)
}

/// The numbers of the values that an operand wants, one for each slot that wants a value, in the
/// order of the slots. Fails for want of memory alone.
pub fn wanted_values(alloc: Global, operand: &Operand) -> Result<Vec<u32>, AllocError>
    ensures { IfOk result (λ values. values.items ≡ wanted_values operand.now) }
{
    let slots = operand.slots.as_slice();
    slots
        .iter()
        .filter_map(|s| value_of(s.wanted))
        .collect(alloc)
}

/// Whether no slot of an operand wants a value, so that constants fill it.
pub fn is_constant(operand: &Operand) -> bool
    ensures { result ≡ is_constant operand.now }
{
    !some_wants_value(operand.slots.as_slice())
}

fn some_wants_value(slots: &[Slot]) -> bool
    ensures { result ≡ list_any (λ s. wants_value s.wanted) slots.now }
{
    slots.iter().any(|s| wants_value(s.wanted))
}
