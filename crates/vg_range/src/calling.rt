//! Calls of DEFINEs.

ghost use Rattle.std.specs.Prelude.{◌≡◌, [], IfOk, get_or, map};
ghost use Rattle.vg_interval.specs.Judge.{no_walk};
ghost use Rattle.vg_interval.specs.Views.{Gives, count_view, found_view, passed_view};
ghost use Rattle.vg_names.specs.Views.{function_view};
ghost use Rattle.vg_pseudo.specs.Instance.{kept_widths};
ghost use Rattle.vg_script.specs.Views.{script_of};
ghost use Rattle.vg_range.specs.Seen.{answered_by};
ghost use Rattle.vg_range.specs.Walk.{called, walks_from};

use crate::beginning::begun;
use crate::code_walk::walk;
use crate::frames::{constants_of, given_of};
use crate::judging::judge;
use crate::spots::spot_of;
use crate::walk_context::{MOST_KEPT, WalkContext, boxed, is_constant};
use crate::walk_state::WalkState;
use std::alloc::{AllocError, Global};
use std::cell::Cell;
use vg_base::Items;
use vg_interval::calls::answered;
use vg_interval::{Count, Found, Passed, RangeFault};
use vg_names::Function;
use vg_pseudo::Spot;
use vg_script::{Frame, Script, WholeNumber};

/// How many bits a call keeps of registers of these widths: at most 512. Those above are zeros.
fn kept_widths(alloc: Global, widths: &[u128]) -> Result<Items<u128>, AllocError>
    ensures { IfOk result (λ kept. kept ≡ kept_widths widths.now) }
{
    let mut kept = Vec::new(alloc);
    'widths: for width in widths {
        kept.push((*width).min(MOST_KEPT))?;
    }
    Ok(Items::from_vec(kept))
}

/// What a call gives whose body leaves this script and whose RETURN this.
#[inline(never)]
fn answered_by(
    alloc: Global,
    function: &Function,
    widths: Items<u128>,
    given: Vec<Passed>,
    script: Script,
    found: Box<Found>,
    count: Count,
) -> Result<(Box<Found>, Count), RangeFault>
    requires { widths ≡ kept_widths (function_view function.now).body.widths }
    ensures { Gives (λ f. (found_view f.0.value, count_view f.1)) result (answered_by (function_view
        function.now) (map passed_view given.items) (script_of script) (found_view found.value)
        (count_view count)) }
{
    let given = given_of(alloc, given)?;
    let frame = Frame {
        widths,
        variables: function.body.numbers,
        given,
        script,
    };
    let spot = spot_of(&function.answer);
    let found = answered(alloc, spot, frame, Box::into_inner(found))?;
    boxed(alloc, found, count)
}

/// A call that gives a constant keeps nothing of what was written out for it.
fn keep_call(written: &Cell<u32>, before: u32, found: &Found) {
    if is_constant(found) {
        written.set(before);
    }
}

/// What a call of a DEFINE gives for its arguments, where these DEFINEs stand before it.
#[inline(never)]
#[cycle(judging)]
#[tactic(auto, using(crate::proofs::Lists::view_take))]
pub fn called(
    alloc: Global,
    is_kept: bool,
    written: &Cell<u32>,
    functions: &[Function],
    function: &Function,
    spot: Spot,
    given: Vec<Passed>,
    count: Count,
) -> Result<(Box<Found>, Count), RangeFault>
    ensures { Gives (λ f. (found_view f.0.value, count_view f.1)) result (called is_kept (walks_from
        is_kept [] (map function_view functions.now)) (function_view function.now) spot (map
        passed_view given.items) (count_view count)) }
{
    let before = written.get();
    let mut given = given;
    given.truncate(function.body.parameters);
    let kept = kept_widths(alloc, function.body.widths.as_slice())?;
    let constants = constants_of(alloc, kept.as_slice(), given.as_slice())?;
    let context = WalkContext {
        widths: function.body.widths.as_slice(),
        constants: constants.as_slice(),
        turns: &[],
        functions,
        is_kept,
        written,
    };
    let first = begun(alloc, function.body.numbers, count)?;
    let state = walk(alloc, &context, &function.body.code, first)?;
    let numbers = state.numbers.as_slice();
    let (found, count) = judge(alloc, &context, numbers, &function.answer, state.count)?;
    let WalkState {
        numbers: _,
        count: _,
        script,
    } = Box::into_inner(state);
    let (found, count) = answered_by(alloc, function, kept, given, script, found, count)?;
    keep_call(written, before, &found);
    Ok((found, count))
}

/// What a call of one of these DEFINEs gives for its arguments, by its place among them.
#[inline(never)]
#[cycle(judging)]
pub fn called_at(
    alloc: Global,
    is_kept: bool,
    written: &Cell<u32>,
    functions: &[Function],
    number: usize,
    spot: Spot,
    given: Vec<Passed>,
    count: Count,
) -> Result<(Box<Found>, Count), RangeFault>
    ensures { Gives (λ f. (found_view f.0.value, count_view f.1)) result (get_or (walks_from is_kept
        [] (map function_view functions.now)) number no_walk spot (map passed_view given.items)
        (count_view count)) }
{
    if number < functions.len() {
        let function = &functions[number];
        called(
            alloc,
            is_kept,
            written,
            &functions[..number],
            function,
            spot,
            given,
            count,
        )
    } else {
        let number = WholeNumber::Natural(0);
        boxed(alloc, Found::Known { number }, count)
    }
}
