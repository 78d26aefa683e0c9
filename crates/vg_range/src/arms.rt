//! The arms of a CASE that may be taken.

ghost use Rattle.std.specs.Prelude.{◌≡◌, ◌<◌, IfOk, IfSome, map, pos, reverse};
ghost use Rattle.std.specs.Ordering.{int_eq};
ghost use Rattle.std.specs.List.{list_all};
ghost use Rattle.std.specs.Option.{option_map};
ghost use Rattle.vg_interval.specs.Views.{count_view};
ghost use Rattle.vg_names.specs.Views.{code_view};
ghost use Rattle.vg_script.specs.Script.{stop};
ghost use Rattle.vg_script.specs.Views.{script_of, word_of};
ghost use Rattle.vg_range.specs.Steps.{arm_of, arm_view, arms_view, no_arms, picked_by};
ghost use Rattle.vg_range.specs.Seen.{context_view, state_view};
ghost use Rattle.vg_range.specs.Walk.{arms_do_nothing, arms_in_front, is_empty, pick_of, with_arm};
ghost use Rattle.vg_range.specs.Weight.{code_weight};

use crate::joining::join;
use crate::walk_context::WalkContext;
use crate::walk_state::{WalkState, is_empty, with_script};
use std::alloc::{AllocError, Global};
use vg_interval::{Count, KnownNumber};
use vg_names::Code;
use vg_script::{Script, Word, make_arm, make_pick};

/// An arm that may be taken: its number and what it does.
#[derive(Drop)]
pub struct ArmTaken {
    pub number: u128,
    pub body: Script,
}

/// Arms that may be taken, found so far, the last at the end, and what is known after any of them
/// or none.
#[derive(Drop)]
pub struct Arms {
    pub scripts: Vec<ArmTaken>,
    pub joined: Vec<KnownNumber>,
}

/// The arms of a CASE before the first: none is found yet, and this is known. Fails for want of
/// memory alone.
#[inline(never)]
pub fn no_arms(alloc: Global, state: &WalkState) -> Result<Box<Arms>, AllocError>
    ensures { IfOk result (λ a. arms_view a.value ≡ no_arms (state_view state.now)) }
{
    let joined = state.numbers.clone()?;
    let arms = Arms {
        scripts: Vec::new(alloc),
        joined,
    };
    Ok(Box::new(alloc, arms)?)
}

#[tactic(auto, using(crate::proofs::Lists::view_last))]
fn with_arm(
    alloc: Global,
    context: &WalkContext,
    number: u128,
    state: Box<WalkState>,
    found: Arms,
) -> Result<Arms, AllocError>
    ensures { IfOk result (λ a. arms_view a ≡
        with_arm (context_view context.now) number (state_view state.value) (arms_view found)) }
{
    let WalkState {
        numbers,
        count: _,
        script: body,
    } = Box::into_inner(state);
    let Arms {
        mut scripts,
        joined,
    } = found;
    let joined = join(alloc, joined.as_slice(), numbers.as_slice())?;
    if context.is_kept {
        scripts.push(ArmTaken { number, body })?;
        Ok(Arms { scripts, joined })
    } else {
        let scripts = Vec::new(alloc);
        Ok(Arms { scripts, joined })
    }
}

/// The arms found so far and one of this number that may be taken, which leaves the walk at
/// `state`. Fails for want of memory alone.
#[inline(never)]
pub fn one_arm_more(
    alloc: Global,
    context: &WalkContext,
    number: u128,
    state: Box<WalkState>,
    found: Box<Arms>,
) -> Result<Box<Arms>, AllocError>
    ensures { IfOk result (λ a. arms_view a.value ≡ with_arm (context_view context.now) number
        (state_view state.value) (arms_view found.value)) }
{
    let arms = with_arm(alloc, context, number, state, Box::into_inner(found))?;
    Ok(Box::new(alloc, arms)?)
}

#[tactic(auto, using(crate::proofs::Lists::view_last))]
fn arms_in_front(alloc: Global, mut arms: Vec<ArmTaken>) -> Result<Script, AllocError>
    ensures { IfOk result (λ s. script_of s ≡ arms_in_front (reverse (map arm_view arms.items))
        stop) }
{
    let mut script = Script::Stop;
    'arms: while let Some(arm) = arms.pop() {
        script = make_arm(alloc, arm.number, arm.body, script)?;
    }
    Ok(script)
}

fn all_empty(arms: &[ArmTaken]) -> bool
    ensures { result ≡ list_all (λ a. is_empty (script_of a.body)) arms.now }
{
    arms.iter().all(|arm| is_empty(&arm.body))
}

fn arms_do_nothing(arms: &[ArmTaken]) -> bool
    ensures { result ≡ arms_do_nothing (reverse (map arm_view arms.now)) }
{
    all_empty(arms)
}

fn pick_of(alloc: Global, selector: Word, arms: Vec<ArmTaken>) -> Result<Script, AllocError>
    ensures { IfOk result (λ s. script_of s ≡ pick_of (word_of selector) (reverse (map arm_view
        arms.items))) }
{
    if arms_do_nothing(arms.as_slice()) {
        Ok(Script::Stop)
    } else {
        let arms = arms_in_front(alloc, arms)?;
        make_pick(alloc, selector, arms)
    }
}

/// A CASE whose selector is not constant, by its arms and the counts after them.
#[inline(never)]
pub fn picked_by(
    alloc: Global,
    context: &WalkContext,
    selector: Box<Word>,
    state: Box<WalkState>,
    found: Box<Arms>,
    count: Count,
) -> Result<Box<WalkState>, AllocError>
    ensures { IfOk result (λ w. state_view w.value ≡ picked_by (context_view context.now) (word_of
        selector.value) (state_view state.value) (arms_view found.value) (count_view count)) }
{
    let WalkState {
        numbers: _,
        count: _,
        script,
    } = Box::into_inner(state);
    let Arms { scripts, joined } = Box::into_inner(found);
    let pick = pick_of(alloc, Box::into_inner(selector), scripts)?;
    let state = Box::new(
        alloc,
        WalkState {
            numbers: joined,
            count,
            script,
        },
    )?;
    with_script(alloc, context, pick, state)
}

fn is_number(number: i128, arm: u128) -> bool
    ensures { result ≡ int_eq number (pos arm) }
{
    0 <= number && number as u128 == arm
}

/// The body of the first arm of this number.
pub fn arm_of(number: i128, arms: &Code) -> Option<&Code>
    ensures is { option_map (λ c. code_view c.now) result ≡ arm_of number (code_view arms.now) }
    ensures inside { IfSome result (λ c. code_weight (code_view c.now) < code_weight (code_view
        arms.now)) }
{
    let mut left = arms;
    'arms: while let Code::Arm {
        number: arm,
        body,
        arms: others,
    } = left
    {
        if is_number(number, *arm) {
            return Some(body);
        }
        left = others;
    }
    None
}
