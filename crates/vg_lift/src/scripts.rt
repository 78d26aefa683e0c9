//! Scripts gone through once, with nodes of terms in the place of numbers.

ghost use Rattle.std.specs.Prelude.{◌≡◌, ◌+◌, ◌^◌, ◌++◌, ◌<◌, ◌≤◌, [], ◌∷◌, IfOk, OnOk, get_or, length, replicate, slice_get};
ghost use Rattle.vg_pool.specs.Pool.{Keeps, StandsFor, tree_at};
ghost use Rattle.vg_script.specs.Formed.{Formed, FrameFormed, GivenFormed, ScriptFormed};
ghost use Rattle.vg_script.specs.Script.{pick, put, way, width_of};
ghost use Rattle.vg_script.specs.Views.{frame_of, given_of, low_of, script_of, word_of};
ghost use Rattle.vg_terms.specs.Term.{constant, two};
ghost use Rattle.vg_terms.specs.declared.term.TwoOp.TheVariants.{Eq};
ghost use Rattle.vg_script.specs.Assignments.{IsAssignment};
ghost use Rattle.vg_lift.specs.Gather.{bits_from};
ghost use Rattle.vg_lift.specs.LaneTerm.{absolute_term, first_bit, joined, left_by, lifted, of_bits, part, passed, term};
ghost use Rattle.vg_lift.specs.Passed.{AllPassedFit, PassedFits, all_passed, passed_of};
ghost use Rattle.vg_lift.specs.States.{Begins, Leaves, StateFits, state_of, widths_in};
ghost use Rattle.vg_range_laws.specs.Static.{IsPlace, IsStatic, IsStaticFrame, IsStaticGiven, IsStaticWord};
ghost use Rattle.vg_lift.specs.Turns.{TurnFits, TurnsFit, taken};
ghost use Rattle.vg_lift.specs.Views.{BitsFit, IsNode, bits_of};

use crate::begin::begin;
use crate::bit::Bit;
use crate::join_states::join_states;
use crate::passed::Passed;
use crate::putting::{
    bits_of_node, give, moved_bits, part_of, put_bits, put_node, put_number, slice_node,
};
use crate::state::State;
use crate::turn::Turn;
use std::alloc::{AllocError, Global};
use vg_base::Items;
use vg_pool::Pool;
use vg_script::{Frame, Given, Low, Script, Word};
use vg_terms::{TwoOp, make_const};

/// The bit at which a slice begins, which is no place that a word says.
fn first_bit(low: &Low) -> u128
    requires { IsPlace (low_of low.now) }
    ensures { result ≡ first_bit (low_of low.now) }
{
    match low {
        Low::At { bit } => *bit,
        Low::Held { .. } => 0,
    }
}

/// The node of a constant of 128 bits.
fn constant_node(pool: &mut Pool, value: u128) -> Result<usize, AllocError>
    ensures node { IfOk result (λ n. StandsFor pool.new n (constant 128 value)) }
    ensures keeps { Keeps pool.old pool.new }
{
    pool.intern(&make_const(128, value))
}

/// The node of the absolute value of the term of a node.
#[inline(never)]
fn absolute_node(pool: &mut Pool, node: usize) -> Result<usize, AllocError>
    requires { IsNode pool.old node 128 }
    ensures node { IfOk result (λ n. StandsFor pool.new n (absolute_term (tree_at pool.old node))) }
    ensures keeps { Keeps pool.old pool.new }
{
    let ones = constant_node(pool, u128::MAX)?;
    let negative = pool.two(TwoOp::Mul, 128, node, ones)?;
    pool.two(TwoOp::Smax, 128, node, negative)
}

/// The node that says whether the term of a node is this number.
#[inline(never)]
fn equal_node(pool: &mut Pool, node: usize, number: u128) -> Result<usize, AllocError>
    requires { IsNode pool.old node 128 }
    ensures node { IfOk result (λ n. StandsFor pool.new n
        (two Eq 1 (tree_at pool.old node) (constant 128 number))) }
    ensures wide { IfOk result (λ n. IsNode pool.new n 1) }
    ensures keeps { Keeps pool.old pool.new }
{
    let other = constant_node(pool, number)?;
    pool.two(TwoOp::Eq, 1, node, other)
}

/// The node at a place, if there is one.
fn node_in(nodes: &[usize], place: usize) -> Option<usize>
    ensures { result ≡ slice_get nodes.now place }
{
    nodes.get(place).copied()
}

/// The node of a variable, or of zero where there is none.
#[tactic(auto, using(crate::proofs::Puts::some_variable, crate::proofs::Puts::some_wide, crate::proofs::Puts::none_there))]
#[inline(never)]
fn variable_node(pool: &mut Pool, state: &State, variable: usize) -> Result<usize, AllocError>
    requires { StateFits pool.old state.now }
    ensures node { IfOk result (λ n. StandsFor pool.new n
        (get_or (state_of pool.old state.now).variables variable (constant 128 0))) }
    ensures wide { IfOk result (λ n. IsNode pool.new n 128) }
    ensures keeps { Keeps pool.old pool.new }
{
    match node_in(state.variables.as_slice(), variable) {
        Some(node) => Ok(node),
        None => constant_node(pool, 0),
    }
}

/// The node of the term of a word.
#[tactic(auto, using(crate::proofs::Puts::state_kept, crate::proofs::Puts::state_fits, crate::proofs::Nodes::node_kept))]
#[cycle(lift)]
pub(crate) fn term(
    pool: &mut Pool,
    alloc: Global,
    state: &State,
    word: &Word,
) -> Result<usize, AllocError>
    requires fits { StateFits pool.old state.now }
    requires formed { Formed (word_of word.now) }
    requires is_static { IsStaticWord (word_of word.now) }
    ensures node { IfOk result (λ n. StandsFor pool.new n
        (term (state_of pool.old state.now) (word_of word.now))) }
    ensures wide { IfOk result (λ n. IsNode pool.new n (width_of (word_of word.now))) }
    ensures keeps { Keeps pool.old pool.new }
{
    match word {
        Word::Constant { width, value } => pool.intern(&make_const(*width, *value)),
        Word::Slice {
            register,
            low,
            width,
        } => slice_node(pool, alloc, state, *register, first_bit(low), *width),
        Word::Variable { variable } => variable_node(pool, state, *variable),
        Word::One {
            op,
            width,
            amount,
            x,
        } => {
            let x = term(pool, alloc, state, x)?;
            pool.one(*op, *width, *amount, x)
        }
        Word::Two { op, width, x, y } => {
            let x = term(pool, alloc, state, x)?;
            let y = term(pool, alloc, state, y)?;
            pool.two(*op, *width, x, y)
        }
        Word::Sel { c, x, y, .. } => {
            let c = term(pool, alloc, state, c)?;
            let x = term(pool, alloc, state, x)?;
            let y = term(pool, alloc, state, y)?;
            pool.sel(c, x, y)
        }
        Word::Absolute { x } => {
            let x = term(pool, alloc, state, x)?;
            absolute_node(pool, x)
        }
        Word::ShiftLeft { .. } => unreachable!(),
        Word::ShiftRight { .. } => unreachable!(),
        Word::Block { frame, answer } => block(pool, alloc, state, frame, answer),
    }
}

/// The node of what a call answers: a word over what its frame leaves.
#[tactic(auto, using(crate::proofs::Puts::state_kept, crate::proofs::Puts::state_fits, crate::proofs::Nodes::node_kept))]
#[cycle(lift)]
#[inline(never)]
fn block(
    pool: &mut Pool,
    alloc: Global,
    state: &State,
    frame: &Frame,
    answer: &Word,
) -> Result<usize, AllocError>
    requires fits { StateFits pool.old state.now }
    requires frame { FrameFormed (frame_of frame.now) }
    requires answer { Formed (word_of answer.now) }
    requires frame_static { IsStaticFrame (frame_of frame.now) }
    requires answer_static { IsStaticWord (word_of answer.now) }
    ensures node { IfOk result (λ n. StandsFor pool.new n
        (term (left_by (state_of pool.old state.now) (frame_of frame.now)) (word_of answer.now))) }
    ensures wide { IfOk result (λ n. IsNode pool.new n (width_of (word_of answer.now))) }
    ensures keeps { Keeps pool.old pool.new }
{
    let left = call(pool, alloc, state, frame)?;
    term(pool, alloc, &left, answer)
}

/// What a call leaves of registers and variables of its own.
#[tactic(auto, using(crate::proofs::Puts::state_kept, crate::proofs::Puts::state_fits, crate::proofs::Nodes::node_kept, crate::proofs::Taking::called))]
#[cycle(lift)]
#[inline(never)]
fn call(pool: &mut Pool, alloc: Global, state: &State, frame: &Frame) -> Result<State, AllocError>
    requires fits { StateFits pool.old state.now }
    requires formed { FrameFormed (frame_of frame.now) }
    requires is_static { IsStaticFrame (frame_of frame.now) }
    ensures left { IfOk result (λ s. Begins pool.new frame.now.widths s
        (left_by (state_of pool.old state.now) (frame_of frame.now))) }
    ensures keeps { Keeps pool.old pool.new }
{
    let given = passed(pool, alloc, state, &frame.given)?;
    let mut own = begin(
        pool,
        alloc,
        frame.widths.as_slice(),
        frame.variables,
        given.as_slice(),
    )?;
    lift(pool, alloc, &mut own, &frame.script)?;
    Ok(own)
}

/// What a register is given of a word of 128 bits.
#[tactic(auto, using(crate::proofs::Puts::state_kept, crate::proofs::Puts::state_fits, crate::proofs::Nodes::node_kept))]
#[cycle(lift)]
#[inline(never)]
fn passed_word(
    pool: &mut Pool,
    alloc: Global,
    state: &State,
    word: &Word,
) -> Result<Passed, AllocError>
    requires fits { StateFits pool.old state.now }
    requires formed { Formed (word_of word.now) }
    requires width { width_of (word_of word.now) ≡ 128 }
    requires is_static { IsStaticWord (word_of word.now) }
    ensures is { IfOk result (λ p. passed_of pool.new p ≡
        of_bits (bits_from (term (state_of pool.old state.now) (word_of word.now)) 0 128)) }
    ensures fits { IfOk result (λ p. PassedFits pool.new p) }
    ensures keeps { Keeps pool.old pool.new }
{
    let node = term(pool, alloc, state, word)?;
    let bits = bits_of_node(pool, alloc, node, 128)?;
    Ok(Passed::Bits { bits })
}

/// What the registers of a call are given.
#[tactic(auto, using(crate::proofs::Puts::state_kept, crate::proofs::Puts::state_fits, crate::proofs::Nodes::node_kept, crate::proofs::Taking::passed_step, crate::proofs::Begins::all_passed_fit, crate::proofs::Begins::passed_behind))]
#[cycle(lift)]
#[inline(never)]
fn passed(
    pool: &mut Pool,
    alloc: Global,
    state: &State,
    given: &Given,
) -> Result<Vec<Passed>, AllocError>
    requires fits { StateFits pool.old state.now }
    requires formed { GivenFormed (given_of given.now) }
    requires is_static { IsStaticGiven (given_of given.now) }
    ensures is { IfOk result (λ v. all_passed pool.new v.items ≡
        passed (state_of pool.old state.now) (given_of given.now)) }
    ensures fit { IfOk result (λ v. AllPassedFit pool.new v.items) }
    ensures keeps { Keeps pool.old pool.new }
{
    let mut all = Vec::new(alloc);
    let mut left = given;
    'registers: loop {
        match left {
            Given::Nothing => return Ok(all),
            Given::Word { word, rest } => {
                let first = passed_word(pool, alloc, state, word)?;
                all.push(first)?;
                left = rest;
            }
            Given::Number { number, rest } => {
                all.push(Passed::Number { number: *number })?;
                left = rest;
            }
            Given::Moved {
                register,
                low,
                width,
                rest,
            } => {
                let bits = moved_bits(pool, alloc, state, *register, first_bit(low), *width)?;
                all.push(Passed::Bits { bits })?;
                left = rest;
            }
        }
    }
}

/// What a script leaves in a state.
#[tactic(auto, using(crate::proofs::Puts::state_kept, crate::proofs::Puts::state_fits, crate::proofs::Nodes::node_kept))]
#[cycle(lift)]
pub(crate) fn lift(
    pool: &mut Pool,
    alloc: Global,
    state: &mut State,
    script: &Script,
) -> Result<(), AllocError>
    requires fits { StateFits pool.old state.old }
    requires formed { ScriptFormed (widths_in state.old) (script_of script.now) }
    requires is_static { IsStatic (script_of script.now) }
    ensures leaves { OnOk result (Leaves pool.new state.old state.new
        (lifted (script_of script.now) (state_of pool.old state.old))) }
    ensures keeps { Keeps pool.old pool.new }
{
    let mut left = script;
    'statements: loop {
        match left {
            Script::Stop => return Ok(()),
            Script::Both { first, second } => {
                lift(pool, alloc, state, first)?;
                left = second;
            }
            Script::Branch { ways } => left = ways,
            Script::Last { body } => left = body,
            Script::Way {
                condition,
                body,
                ways,
            } => return lift_ways(pool, alloc, state, condition, body, ways),
            Script::Pick { selector, arms } => {
                return lift_pick(pool, alloc, state, selector, arms);
            }
            Script::Arm { .. } => return Ok(()),
            Script::Put { .. }
            | Script::Fill { .. }
            | Script::Copy { .. }
            | Script::CopyFrom { .. }
            | Script::Give { .. } => return lift_assignment(pool, alloc, state, left),
        }
    }
}

/// What a statement that has no others inside leaves in a state.
#[tactic(auto, using(crate::proofs::Puts::state_kept, crate::proofs::Puts::state_fits, crate::proofs::Nodes::node_kept))]
#[cycle(lift)]
#[inline(never)]
fn lift_assignment(
    pool: &mut Pool,
    alloc: Global,
    state: &mut State,
    script: &Script,
) -> Result<(), AllocError>
    requires fits { StateFits pool.old state.old }
    requires formed { ScriptFormed (widths_in state.old) (script_of script.now) }
    requires is_static { IsStatic (script_of script.now) }
    requires assignment { IsAssignment (script_of script.now) }
    ensures leaves { OnOk result (Leaves pool.new state.old state.new
        (lifted (script_of script.now) (state_of pool.old state.old))) }
    ensures keeps { Keeps pool.old pool.new }
{
    match script {
        Script::Put {
            register,
            low,
            width,
            word,
        } => lift_put(pool, alloc, state, *register, *low, *width, word),
        Script::Fill {
            register,
            low,
            width,
            number,
        } => put_number(pool, alloc, state, *register, *low, *width, *number),
        Script::Copy {
            register,
            low,
            width,
            from,
            from_low,
        } => {
            let bits = part_of(pool, alloc, state, *from, first_bit(from_low), *width)?;
            put_bits(pool, alloc, state, *register, *low, bits.as_slice())
        }
        Script::CopyFrom {
            register,
            low,
            width,
            frame,
            from,
            from_low,
        } => {
            let first = first_bit(from_low);
            let bits = handed(pool, alloc, state, frame, *from, first, *width)?;
            put_bits(pool, alloc, state, *register, *low, bits.as_slice())
        }
        Script::Give { variable, word } => {
            let node = term(pool, alloc, state, word)?;
            give(pool, state, *variable, node);
            Ok(())
        }
        _ => unreachable!(),
    }
}

/// What a statement leaves that puts the low bits of a word of 128 bits into a register.
#[tactic(auto, using(crate::proofs::Puts::state_kept, crate::proofs::Puts::state_fits, crate::proofs::Nodes::node_kept))]
#[cycle(lift)]
#[inline(never)]
fn lift_put(
    pool: &mut Pool,
    alloc: Global,
    state: &mut State,
    register: usize,
    first: u128,
    width: u32,
    word: &Word,
) -> Result<(), AllocError>
    requires fits { StateFits pool.old state.old }
    requires formed { ScriptFormed (widths_in state.old) (put register first width (word_of
        word.now)) }
    requires is_static { IsStaticWord (word_of word.now) }
    ensures leaves { OnOk result (Leaves pool.new state.old state.new
        (lifted (put register first width (word_of word.now)) (state_of pool.old state.old))) }
    ensures keeps { Keeps pool.old pool.new }
{
    let node = term(pool, alloc, state, word)?;
    put_node(pool, alloc, state, register, first, width, node)
}

/// So many bits of a register that a call leaves, from a bit on.
#[tactic(auto, using(crate::proofs::Puts::state_kept, crate::proofs::Puts::state_fits, crate::proofs::Nodes::node_kept))]
#[cycle(lift)]
#[inline(never)]
fn handed(
    pool: &mut Pool,
    alloc: Global,
    state: &State,
    frame: &Frame,
    register: usize,
    first: u128,
    width: u128,
) -> Result<Items<Bit>, AllocError>
    requires fits { StateFits pool.old state.now }
    requires formed { FrameFormed (frame_of frame.now) }
    requires is_static { IsStaticFrame (frame_of frame.now) }
    ensures is { IfOk result (λ v. bits_of pool.new v ≡ part first width (get_or (left_by (state_of
        pool.old state.now) (frame_of frame.now)).registers register [])) }
    ensures fit { IfOk result (λ v. BitsFit pool.new v) }
    ensures count { IfOk result (λ v. length v ≡ width) }
    ensures keeps { Keeps pool.old pool.new }
{
    let left = call(pool, alloc, state, frame)?;
    part_of(pool, alloc, &left, register, first, width)
}

/// What the ways of an IF leave. They are gone through along the list, and joined from the last to
/// the first.
#[cycle(lift)]
#[inline(never)]
fn lift_ways(
    pool: &mut Pool,
    alloc: Global,
    state: &mut State,
    condition: &Word,
    body: &Script,
    ways: &Script,
) -> Result<(), AllocError>
    requires fits { StateFits pool.old state.old }
    requires formed { ScriptFormed (widths_in state.old)
        (way (word_of condition.now) (script_of body.now) (script_of ways.now)) }
    requires is_static { IsStatic
        (way (word_of condition.now) (script_of body.now) (script_of ways.now)) }
    ensures leaves { OnOk result (Leaves pool.new state.old state.new
        (lifted (way (word_of condition.now) (script_of body.now) (script_of ways.now))
        (state_of pool.old state.old))) }
    ensures keeps { Keeps pool.old pool.new }
{
    let before = state.copy(alloc)?;
    let mut turns = Vec::new(alloc);
    let first = term(pool, alloc, &before, condition)?;
    turns.push(Turn { node: first, body })?;
    let mut left = ways;
    'ways: while let Script::Way {
        condition,
        body,
        ways,
    } = left
    {
        let node = term(pool, alloc, &before, condition)?;
        turns.push(Turn { node, body })?;
        left = ways;
    }
    lift(pool, alloc, state, left)?;
    lift_turns(pool, alloc, &before, state, turns)
}

/// What a CASE leaves. Its arms are gone through along the list, and joined from the last to the
/// first.
#[cycle(lift)]
#[inline(never)]
fn lift_pick(
    pool: &mut Pool,
    alloc: Global,
    state: &mut State,
    selector: &Word,
    arms: &Script,
) -> Result<(), AllocError>
    requires fits { StateFits pool.old state.old }
    requires formed { ScriptFormed (widths_in state.old)
        (pick (word_of selector.now) (script_of arms.now)) }
    requires is_static { IsStatic (pick (word_of selector.now) (script_of arms.now)) }
    ensures leaves { OnOk result (Leaves pool.new state.old state.new
        (lifted (pick (word_of selector.now) (script_of arms.now)) (state_of pool.old state.old))) }
    ensures keeps { Keeps pool.old pool.new }
{
    let before = state.copy(alloc)?;
    let selected = term(pool, alloc, &before, selector)?;
    let mut turns = Vec::new(alloc);
    let mut left = arms;
    'arms: while let Script::Arm { number, body, arms } = left {
        let node = equal_node(pool, selected, *number)?;
        turns.push(Turn { node, body })?;
        left = arms;
    }
    lift_turns(pool, alloc, &before, state, turns)
}

/// What is left where the first way whose condition holds is taken, or else what the state has.
#[tactic(auto, using(crate::proofs::Taking::turns_step, crate::proofs::Taking::rest_fit, crate::proofs::Taking::last_fits, crate::proofs::Taking::rest_size, crate::proofs::Taking::last_size, crate::proofs::Taking::turns_kept))]
#[cycle(lift)]
fn lift_turns(
    pool: &mut Pool,
    alloc: Global,
    before: &State,
    state: &mut State,
    mut turns: Vec<Turn>,
) -> Result<(), AllocError>
    requires before { StateFits pool.old before.now }
    requires fits { StateFits pool.old state.old }
    requires widths { widths_in state.old ≡ widths_in before.now }
    requires count { length state.old.variables.items ≡ length before.now.variables.items }
    requires turns { TurnsFit pool.old (widths_in before.now) turns.items }
    ensures leaves { OnOk result (Leaves pool.new state.old state.new (taken pool.old (state_of
        pool.old before.now) turns.entry.items (state_of pool.old state.old))) }
    ensures keeps { Keeps pool.old pool.new }
{
    'turns: while let Some(turn) = turns.pop() {
        lift_turn(pool, alloc, before, state, turn)?;
    }
    Ok(())
}

/// What is left where a way is taken from the first state on, or else what the state has.
#[tactic(auto, using(crate::proofs::Puts::state_kept, crate::proofs::Puts::state_fits, crate::proofs::Nodes::node_kept, crate::proofs::Taking::copied))]
#[cycle(lift)]
#[inline(never)]
fn lift_turn(
    pool: &mut Pool,
    alloc: Global,
    before: &State,
    state: &mut State,
    turn: Turn,
) -> Result<(), AllocError>
    requires before { StateFits pool.old before.now }
    requires fits { StateFits pool.old state.old }
    requires widths { widths_in state.old ≡ widths_in before.now }
    requires count { length state.old.variables.items ≡ length before.now.variables.items }
    requires turn { TurnFits pool.old (widths_in before.now) turn }
    ensures leaves { OnOk result (Leaves pool.new state.old state.new (joined (tree_at pool.old
        turn.entry.node) (lifted (script_of turn.entry.body.now) (state_of pool.old before.now))
        (state_of pool.old state.old))) }
    ensures keeps { Keeps pool.old pool.new }
{
    let mut other = before.copy(alloc)?;
    lift(pool, alloc, &mut other, turn.body)?;
    let joined = join_states(pool, alloc, turn.node, &other, state)?;
    *state = joined;
    Ok(())
}
