//! An instance, in the order in which it runs.

ghost use Rattle.std.specs.Prelude.{◌≡◌, IfOk};
ghost use Rattle.vg_interval.specs.Views.{Gives};
ghost use Rattle.vg_names.specs.Views.{resolved_of};
ghost use Rattle.vg_range.specs.Immediates.{first_imm};
ghost use Rattle.vg_range.specs.Seen.{state_view};
ghost use Rattle.vg_range.specs.Walk.{imm_constant, instance_at};

use crate::beginning::begun;
use crate::code_walk::walk;
use crate::walk_context::WalkContext;
use crate::walk_state::WalkState;
use std::alloc::{AllocError, Global};
use std::cell::Cell;
use vg_interval::{Count, RangeFault};
use vg_names::Resolved;

/// The immediate, where the next register is the one before dst.
#[tactic(auto, unfolding(crate::specs::Immediates::first_imm))]
fn first_imm(place: usize, imm: Option<u128>) -> Option<u128>
    ensures { result ≡ first_imm place imm }
{
    if place == 1 { imm } else { None }
}

/// The registers of an operation that are constant: the immediate, which stands before dst.
fn imm_constant(
    alloc: Global,
    dst: usize,
    imm: Option<u128>,
    widths: &[u128],
) -> Result<Vec<Option<u128>>, AllocError>
    ensures { IfOk result (λ ks. ks.items ≡ imm_constant dst imm widths.now) }
{
    let mut constants = Vec::new(alloc);
    let mut place = dst;
    let mut left = widths;
    'registers: loop {
        let [_width, behind @ ..] = left else {
            return Ok(constants);
        };
        constants.push(first_imm(place, imm))?;
        place = place.saturating_sub(1);
        left = behind;
    }
}

/// An instance, for an immediate where the entry has one: where its walk stands after it, or its
/// first fault.
#[inline(never)]
pub fn instance_at(
    alloc: Global,
    is_kept: bool,
    resolved: &Resolved,
    imm: Option<u128>,
) -> Result<Box<WalkState>, RangeFault>
    ensures { Gives (λ w. state_view w.value) result (instance_at is_kept (resolved_of resolved.now)
        imm) }
{
    let body = &resolved.body;
    let constants = imm_constant(alloc, resolved.result, imm, body.widths.as_slice())?;
    let written = Cell::new(0);
    let context = WalkContext {
        widths: body.widths.as_slice(),
        constants: &constants,
        turns: &[],
        functions: resolved.functions.as_slice(),
        is_kept,
        written: &written,
    };
    let count = Count {
        steps: 0,
        is_dynamic: false,
    };
    let state = begun(alloc, body.numbers, count)?;
    walk(alloc, &context, &body.code, state)
}
