//! The lines of events.

ghost use Rattle.std.specs.Prelude.{◌≡◌, ◌<◌, ℕ, IfOk, if◌then◌else◌, length, nat_eq, slice_index};
ghost use Rattle.vg_paired.specs.Sweeps.{AreLinesFrom, SetsAll};

use std::alloc::{AllocError, Global};
use vg_base::Items;

/// For each of so many events the number of the first line that has it; the number of all lines where
/// none has.
pub(crate) fn line_numbers(
    alloc: Global,
    count: usize,
    lines: &[Items<usize>],
) -> Result<Vec<usize>, AllocError>
    ensures lines { IfOk result (λ numbers. AreLinesFrom lines.now 0 numbers.items) }
    ensures all { IfOk result (λ numbers. length numbers.items ≡ count) }
{
    let mut numbers = vec![in alloc; lines.len(); count]?;
    let mut left = lines.len();
    'lines: while left > 0 {
        left -= 1;
        let events = lines[left].as_slice();
        set_all(&mut numbers, events, left);
    }
    Ok(numbers)
}

/// Gives events a number.
fn set_all(numbers: &mut [usize], events: &[usize], number: usize)
    ensures { SetsAll numbers.old numbers.new events.now number }
{
    'events: for event in events {
        set_one(numbers, *event, number);
    }
}

/// Gives an event a number, where there is such an event.
fn set_one(numbers: &mut [usize], event: usize, number: usize)
    ensures { (e : ℕ) → e < length numbers.old →
        slice_index numbers.new e ≡ (if nat_eq e event then number else slice_index numbers.old e) }
{
    if event < numbers.len() {
        numbers[event] = number;
    }
}
