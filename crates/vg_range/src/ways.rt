//! The ways of an IF that may be taken.

ghost use Rattle.std.specs.Prelude.{◌≡◌, IfOk, map, reverse};
ghost use Rattle.std.specs.List.{list_all};
ghost use Rattle.std.specs.Option.{option_map};
ghost use Rattle.vg_interval.specs.Views.{kept_view};
ghost use Rattle.vg_script.specs.Views.{script_of, word_of};
ghost use Rattle.vg_range.specs.Steps.{way_view, ways_view};
ghost use Rattle.vg_range.specs.Seen.{context_view, state_view};
ghost use Rattle.vg_range.specs.Walk.{branch_of, closed, does_nothing, in_front, is_empty, joined_with, no_ways, with_way};

use crate::joining::join;
use crate::walk_context::WalkContext;
use crate::walk_state::{WalkState, is_empty, with_script};
use std::alloc::{AllocError, Global};
use vg_interval::{Count, KnownNumber};
use vg_script::{Script, Word, make_branch, make_last, make_way};

/// A way that may be taken: its condition and what it does.
#[derive(Drop)]
pub struct WayTaken {
    pub condition: Word,
    pub body: Script,
}

/// Ways that may be taken, found so far, the last at the end, and what is known after any of them.
#[derive(Drop)]
pub struct Ways {
    pub scripts: Vec<WayTaken>,
    pub joined: Option<Vec<KnownNumber>>,
}

/// A way that was looked at: others may be taken after those found, or it is the last.
#[derive(Drop)]
pub enum WayStep {
    Further {
        found: Box<Ways>,
        count: Count,
    },
    Final {
        found: Box<Ways>,
        last: Box<WalkState>,
    },
}

/// The ways of an IF before the first: none is found yet. Fails for want of memory alone.
#[inline(never)]
pub fn no_ways(alloc: Global) -> Result<Box<Ways>, AllocError>
    ensures { IfOk result (λ w. ways_view w.value ≡ no_ways) }
{
    let ways = Ways {
        scripts: Vec::new(alloc),
        joined: None,
    };
    Ok(Box::new(alloc, ways)?)
}

/// What is known after a way more.
fn joined_with(
    alloc: Global,
    joined: Option<Vec<KnownNumber>>,
    numbers: Vec<KnownNumber>,
) -> Result<Vec<KnownNumber>, AllocError>
    ensures { IfOk result (λ ks. map kept_view ks.items ≡ joined_with (option_map (λ js. map
        kept_view js.items) joined) (map kept_view numbers.items)) }
{
    match joined {
        None => Ok(numbers),
        Some(first) => join(alloc, first.as_slice(), numbers.as_slice()),
    }
}

#[tactic(auto, using(crate::proofs::Lists::view_last))]
fn with_way(
    alloc: Global,
    context: &WalkContext,
    condition: Word,
    state: Box<WalkState>,
    found: Ways,
) -> Result<Ways, AllocError>
    ensures { IfOk result (λ w. ways_view w ≡ with_way (context_view context.now) (word_of
        condition) (state_view state.value) (ways_view found)) }
{
    let WalkState {
        numbers,
        count: _,
        script: body,
    } = Box::into_inner(state);
    let Ways {
        mut scripts,
        joined,
    } = found;
    let joined = Some(joined_with(alloc, joined, numbers)?);
    if context.is_kept {
        scripts.push(WayTaken { condition, body })?;
        Ok(Ways { scripts, joined })
    } else {
        let scripts = Vec::new(alloc);
        Ok(Ways { scripts, joined })
    }
}

/// The ways found so far and one that may be taken where `condition` is 1, which leaves the walk at
/// `state`. Fails for want of memory alone.
#[inline(never)]
pub fn one_way_more(
    alloc: Global,
    context: &WalkContext,
    condition: Box<Word>,
    state: Box<WalkState>,
    found: Box<Ways>,
) -> Result<Box<Ways>, AllocError>
    ensures { IfOk result (λ w. ways_view w.value ≡ with_way (context_view context.now) (word_of
        condition.value) (state_view state.value) (ways_view found.value)) }
{
    let condition = Box::into_inner(condition);
    let ways = with_way(alloc, context, condition, state, Box::into_inner(found))?;
    Ok(Box::new(alloc, ways)?)
}

/// The ways in their order in front of what the last one does.
#[tactic(auto, using(crate::proofs::Lists::view_last))]
fn in_front(alloc: Global, mut ways: Vec<WayTaken>, last: Script) -> Result<Script, AllocError>
    ensures { IfOk result (λ s. script_of s ≡ in_front (reverse (map way_view ways.items))
        (script_of last)) }
{
    let mut script = last;
    'ways: while let Some(way) = ways.pop() {
        script = make_way(alloc, way.condition, way.body, script)?;
    }
    Ok(script)
}

fn all_empty(ways: &[WayTaken]) -> bool
    ensures { result ≡ list_all (λ w. is_empty (script_of w.body)) ways.now }
{
    ways.iter().all(|way| is_empty(&way.body))
}

fn does_nothing(ways: &[WayTaken], last: &Script) -> bool
    ensures { result ≡ does_nothing (reverse (map way_view ways.now)) (script_of last.now) }
{
    is_empty(last) && all_empty(ways)
}

/// An IF of these ways and this last one; where there are no ways before it, the last alone.
fn branch_of(alloc: Global, ways: Vec<WayTaken>, last: Script) -> Result<Script, AllocError>
    ensures { IfOk result (λ s. script_of s ≡ branch_of (reverse (map way_view ways.items))
        (script_of last)) }
{
    if ways.is_empty() {
        Ok(last)
    } else if does_nothing(ways.as_slice(), &last) {
        Ok(Script::Stop)
    } else {
        let last = make_last(alloc, last)?;
        let ways = in_front(alloc, ways, last)?;
        make_branch(alloc, ways)
    }
}

/// An IF whose last way is taken where no other is.
#[inline(never)]
pub fn closed(
    alloc: Global,
    context: &WalkContext,
    state: Box<WalkState>,
    found: Box<Ways>,
    last: Box<WalkState>,
) -> Result<Box<WalkState>, AllocError>
    ensures { IfOk result (λ w. state_view w.value ≡ closed (context_view context.now) (state_view
        state.value) (ways_view found.value) (state_view last.value)) }
{
    let WalkState {
        numbers: _,
        count: _,
        script: before,
    } = Box::into_inner(state);
    let WalkState {
        numbers,
        count,
        script: body,
    } = Box::into_inner(last);
    let Ways { scripts, joined } = Box::into_inner(found);
    let branch = branch_of(alloc, scripts, body)?;
    let numbers = joined_with(alloc, joined, numbers)?;
    let state = Box::new(
        alloc,
        WalkState {
            numbers,
            count,
            script: before,
        },
    )?;
    with_script(alloc, context, branch, state)
}
