//! Where bodies, ways and turns begin.

ghost use Rattle.std.specs.Prelude.{◌≡◌, ◌∷◌, IfOk, map};
ghost use Rattle.vg_interval.specs.Views.{count_view, kept_view};
ghost use Rattle.vg_range.specs.Seen.{begun_with, state_view};
ghost use Rattle.vg_range.specs.Walk.{beginning, zeros};

use crate::walk_state::WalkState;
use std::alloc::{AllocError, Global};
use vg_interval::{Count, KnownNumber};
use vg_script::{Script, WholeNumber};

/// So many number variables as a body begins: each is 0.
#[tactic(auto, using(crate::proofs::Lists::zeros_are))]
fn zeros(alloc: Global, numbers: usize) -> Result<Vec<KnownNumber>, AllocError>
    ensures { IfOk result (λ ks. map kept_view ks.items ≡ zeros numbers) }
{
    Ok(vec![in alloc; KnownNumber::Constant(0); numbers]?)
}

/// Where a body of so many number variables begins, with these counts.
#[inline(never)]
pub fn begun(alloc: Global, numbers: usize, count: Count) -> Result<Box<WalkState>, AllocError>
    ensures { IfOk result (λ w. state_view w.value ≡ begun_with numbers (count_view count)) }
{
    let numbers = zeros(alloc, numbers)?;
    let script = Script::Stop;
    Ok(Box::new(
        alloc,
        WalkState {
            numbers,
            count,
            script,
        },
    )?)
}

/// Where a way of an IF or an arm of a CASE begins, with an empty script and these counts.
#[inline(never)]
pub fn beginning(
    alloc: Global,
    state: &WalkState,
    count: Count,
) -> Result<Box<WalkState>, AllocError>
    ensures { IfOk result (λ w. state_view w.value ≡ beginning (state_view state.now) (count_view
        count)) }
{
    let numbers = state.numbers.clone()?;
    let script = Script::Stop;
    Ok(Box::new(
        alloc,
        WalkState {
            numbers,
            count,
            script,
        },
    )?)
}

/// The turns of the FORs in a turn of one more.
pub fn turns_within(
    alloc: Global,
    turn: WholeNumber,
    turns: &[WholeNumber],
) -> Result<Vec<WholeNumber>, AllocError>
    ensures { IfOk result (λ all. all.items ≡ turn ∷ turns.now) }
{
    let mut all = Vec::new(alloc);
    all.push(turn)?;
    all.extend_from_slice(turns)?;
    Ok(all)
}
