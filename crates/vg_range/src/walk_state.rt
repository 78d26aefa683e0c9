//! Where a walk stands.

ghost use Rattle.std.specs.Prelude.{◌≡◌, IfOk};
ghost use Rattle.vg_interval.specs.Views.{count_view};
ghost use Rattle.vg_script.specs.Views.{script_of};
ghost use Rattle.vg_range.specs.Seen.{context_view, state_view};
ghost use Rattle.vg_range.specs.Walk.{at_count, behind, is_empty, with_script};

use crate::walk_context::WalkContext;
use std::alloc::{AllocError, Global};
use std::mem;
use vg_interval::{Count, KnownNumber};
use vg_script::{Script, make_both};

/// Where a walk stands: what is known of the number variables, the counts, and the script so far.
#[derive(Drop)]
pub struct WalkState {
    pub numbers: Vec<KnownNumber>,
    pub count: Count,
    pub script: Script,
}

/// The state with these counts in the place of its own.
pub fn at_count(state: Box<WalkState>, count: Count) -> Box<WalkState>
    ensures { state_view result.value ≡ at_count (state_view state.value) (count_view count) }
{
    let mut state = state;
    state.count = count;
    state
}

/// Whether a script does nothing.
pub fn is_empty(script: &Script) -> bool
    ensures { result ≡ is_empty (script_of script.now) }
{
    match script {
        Script::Stop => true,
        _ => false,
    }
}

/// One script after the other, either of which may be empty. Fails for want of memory alone.
pub fn behind(alloc: Global, first: Script, second: Script) -> Result<Script, AllocError>
    ensures { IfOk result (λ s. script_of s ≡ behind (script_of first) (script_of second)) }
{
    if is_empty(&second) {
        Ok(first)
    } else if is_empty(&first) {
        Ok(second)
    } else {
        make_both(alloc, first, second)
    }
}

/// The state with this script after its own where the context keeps scripts, else as it was. Fails
/// for want of memory alone.
#[inline(never)]
pub fn with_script(
    alloc: Global,
    context: &WalkContext,
    script: Script,
    state: Box<WalkState>,
) -> Result<Box<WalkState>, AllocError>
    ensures { IfOk result (λ w. state_view w.value ≡ with_script (context_view context.now)
        (script_of script) (state_view state.value)) }
{
    if !context.is_kept {
        return Ok(state);
    }
    let mut state = state;
    let first = mem::replace(&mut state.script, Script::Stop);
    state.script = behind(alloc, first, script)?;
    Ok(state)
}
