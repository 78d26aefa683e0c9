//! The room that scripts need.

ghost use Rattle.std.specs.Prelude.{◌≡◌, IfOk};
ghost use Rattle.vg_script.specs.Views.{frame_of, given_of, low_of, script_of, word_of};
ghost use Rattle.vg_pmean.specs.FrameRoom.{either, frame_room, given_room, low_room, script_room, word_room};

use crate::frame_room::FrameRoom;
use std::alloc::AllocError;
use vg_script::{Frame, Given, Low, Script, Word};

/// Adds what a word needs. Fails for want of memory where it is more than an address can say.
#[cycle(need)]
#[tactic(auto, using(crate::proofs::Rooms::either_none, crate::proofs::Rooms::either_two, crate::proofs::Rooms::either_three))]
fn add_word(room: &mut FrameRoom, word: &Word) -> Result<(), AllocError>
    ensures { IfOk result (λ u. room.new ≡ either room.old (word_room (word_of word.now))) }
{
    match word {
        Word::Constant { .. } => Ok(()),
        Word::Slice { low, .. } => add_low(room, low),
        Word::Variable { .. } => Ok(()),
        Word::One { x, .. } => add_word(room, x),
        Word::Two { x, y, .. } => {
            add_word(room, x)?;
            add_word(room, y)
        }
        Word::Sel { c, x, y, .. } => {
            add_word(room, c)?;
            add_word(room, x)?;
            add_word(room, y)
        }
        Word::Absolute { x } => add_word(room, x),
        Word::ShiftLeft { x, amount } => {
            add_word(room, x)?;
            add_word(room, amount)
        }
        Word::ShiftRight { x, amount } => {
            add_word(room, x)?;
            add_word(room, amount)
        }
        Word::Block { frame, answer } => add_block(room, frame, answer),
    }
}

#[cycle(need)]
#[tactic(auto, using(crate::proofs::Rooms::either_none))]
fn add_low(room: &mut FrameRoom, low: &Low) -> Result<(), AllocError>
    ensures { IfOk result (λ u. room.new ≡ either room.old (low_room (low_of low.now))) }
{
    match low {
        Low::At { .. } => Ok(()),
        Low::Held { word } => add_word(room, word),
    }
}

#[cycle(need)]
#[tactic(auto, using(crate::proofs::Rooms::none_either))]
fn add_block(room: &mut FrameRoom, frame: &Frame, answer: &Word) -> Result<(), AllocError>
    ensures { IfOk result (λ u. room.new ≡
        either room.old (frame_room (frame_of frame.now) (word_room (word_of answer.now)))) }
{
    let mut behind = FrameRoom::nothing();
    add_word(&mut behind, answer)?;
    add_frame(room, frame, behind)
}

/// Adds what a call needs, with what is looked at in its frame when its statements are done.
#[cycle(need)]
#[tactic(auto, using(crate::proofs::Rooms::none_either, crate::proofs::Rooms::either_two))]
fn add_frame(room: &mut FrameRoom, frame: &Frame, behind: FrameRoom) -> Result<(), AllocError>
    ensures { IfOk result (λ u. room.new ≡
        either room.old (frame_room (frame_of frame.now) behind)) }
{
    let mut inside = FrameRoom::nothing();
    add_given(&mut inside, &frame.given)?;
    add_script(&mut inside, &frame.script)?;
    let all = inside
        .either(behind)
        .around(frame.widths.as_slice(), frame.variables)?;
    *room = room.either(all);
    Ok(())
}

#[cycle(need)]
#[tactic(auto, using(crate::proofs::Rooms::either_none, crate::proofs::Rooms::either_two))]
fn add_given(room: &mut FrameRoom, given: &Given) -> Result<(), AllocError>
    ensures { IfOk result (λ u. room.new ≡ either room.old (given_room (given_of given.now))) }
{
    let mut left = given;
    'registers: loop {
        match left {
            Given::Nothing => return Ok(()),
            Given::Word { word, rest } => {
                add_word(room, word)?;
                left = rest;
            }
            Given::Number { rest, .. } => left = rest,
            Given::Moved { low, rest, .. } => {
                add_low(room, low)?;
                left = rest;
            }
        }
    }
}

/// Adds what a script needs. Fails for want of memory where it is more than an address can say.
#[cycle(need)]
#[tactic(auto, using(crate::proofs::Rooms::either_none, crate::proofs::Rooms::either_two, crate::proofs::Rooms::either_three))]
pub(crate) fn add_script(room: &mut FrameRoom, script: &Script) -> Result<(), AllocError>
    ensures { IfOk result (λ u. room.new ≡ either room.old (script_room (script_of script.now))) }
{
    let mut left = script;
    'statements: loop {
        match left {
            Script::Stop => return Ok(()),
            Script::Put { word, .. } => return add_word(room, word),
            Script::Fill { .. } => return Ok(()),
            Script::Copy { from_low, .. } => return add_low(room, from_low),
            Script::CopyFrom {
                frame,
                from_low,
                ..
            } => return add_copy(room, frame, from_low),
            Script::Give { word, .. } => return add_word(room, word),
            Script::Both { first, second } => {
                add_script(room, first)?;
                left = second;
            }
            Script::Branch { ways } => left = ways,
            Script::Way {
                condition,
                body,
                ways,
            } => {
                add_word(room, condition)?;
                add_script(room, body)?;
                left = ways;
            }
            Script::Last { body } => left = body,
            Script::Pick { selector, arms } => {
                add_word(room, selector)?;
                left = arms;
            }
            Script::Arm { body, arms, .. } => {
                add_script(room, body)?;
                left = arms;
            }
        }
    }
}

#[cycle(need)]
#[tactic(auto, using(crate::proofs::Rooms::none_either))]
fn add_copy(room: &mut FrameRoom, frame: &Frame, low: &Low) -> Result<(), AllocError>
    ensures { IfOk result (λ u. room.new ≡
        either room.old (frame_room (frame_of frame.now) (low_room (low_of low.now)))) }
{
    let mut behind = FrameRoom::nothing();
    add_low(&mut behind, low)?;
    add_frame(room, frame, behind)
}
