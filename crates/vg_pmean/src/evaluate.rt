//! Scripts run on frames. Contracts see frames as what they hold.

ghost use Rattle.std.specs.Prelude.{◌≡◌, ◌+◌, ◌^◌, ◌<◌, ◌≤◌, length};
ghost use Rattle.vg_script.specs.Cells.{absolute_value, after, after_arm, behind, left_value, low_value, numbers_given, right_value, word_value};
ghost use Rattle.vg_script.specs.Formed.{Formed, FrameFormed, GivenFormed, LowFormed, ScriptFormed};
ghost use Rattle.vg_script.specs.Script.{width_of};
ghost use Rattle.vg_script.specs.Views.{frame_of, given_of, low_of, script_of, word_of};
ghost use Rattle.vg_script.specs.Assignments.{IsAssignment};
ghost use Rattle.vg_pmean.specs.Held.{Alike, filled, held, widths_in};
ghost use Rattle.vg_pmean.specs.FrameRoom.{Suffices, frame_room, given_room, low_room, no_room, script_room, word_room};

use crate::cells::Cells;
use vg_base::number::{low_bits, signed, unsigned};
use vg_script::{Frame, Given, Low, Script, Word};
use vg_terms::TwoOp;
use vg_terms::value::{value_of_one, value_of_two};

/// x or -x, whichever is the greater signed number.
fn absolute(x: u128) -> u128
    ensures { result ≡ absolute_value x }
{
    let negative = value_of_two(TwoOp::Mul, 128, 128, 128, x, u128::MAX);
    value_of_two(TwoOp::Smax, 128, 128, 128, x, negative)
}

fn shift_left(x: u128, amount: u128) -> u128
    ensures { result ≡ left_value x amount }
{
    if amount <= 127 {
        x << (amount as u32)
    } else {
        0
    }
}

fn shift_right(x: u128, amount: u128) -> u128
    ensures { result ≡ right_value x amount }
{
    let places = amount.min(127) as u32;
    unsigned(signed(x, 128) >> places, 128)
}

/// The number of a word over a frame. The frames that are free hold anything afterwards.
#[cycle(run)]
#[tactic(auto, using(crate::proofs::Entering::formed_width))]
pub(crate) fn value(word: &Word, own: &Cells, free: &mut [Cells]) -> u128
    requires formed { Formed (word_of word.now) }
    requires room { Suffices (word_room (word_of word.now)) own.now.room (length free.old) }
    requires alike { Alike own.now.room free.old }
    ensures is { result ≡ word_value own.now.cells (word_of word.now) }
    ensures below { result < 2 ^ width_of (word_of word.now) }
    ensures kept { Alike own.now.room free.new }
    ensures count { length free.new ≡ length free.old }
{
    match word {
        Word::Constant { value, .. } => *value,
        Word::Slice {
            register,
            low,
            width,
        } => {
            let at = place(low, own, free);
            own.get(*register, at, *width)
        }
        Word::Variable { variable } => own.variable(*variable),
        Word::One {
            op,
            width,
            amount,
            x,
        } => {
            let number = value(x, own, free);
            value_of_one(*op, *width, *amount, x.width(), number)
        }
        Word::Two { op, width, x, y } => {
            let first = value(x, own, free);
            let second = value(y, own, free);
            value_of_two(*op, *width, x.width(), y.width(), first, second)
        }
        Word::Sel { c, x, y, .. } => {
            if value(c, own, free) == 1 {
                value(x, own, free)
            } else {
                value(y, own, free)
            }
        }
        Word::Absolute { x } => absolute(value(x, own, free)),
        Word::ShiftLeft { x, amount } => {
            let number = value(x, own, free);
            let places = value(amount, own, free);
            shift_left(number, places)
        }
        Word::ShiftRight { x, amount } => {
            let number = value(x, own, free);
            let places = value(amount, own, free);
            shift_right(number, places)
        }
        Word::Block { frame, answer } => block(frame, answer, own, free),
    }
}

/// Where a slice begins.
#[cycle(run)]
fn place(low: &Low, own: &Cells, free: &mut [Cells]) -> u128
    requires formed { LowFormed (low_of low.now) }
    requires room { Suffices (low_room (low_of low.now)) own.now.room (length free.old) }
    requires alike { Alike own.now.room free.old }
    ensures is { result ≡ low_value own.now.cells (low_of low.now) }
    ensures kept { Alike own.now.room free.new }
    ensures count { length free.new ≡ length free.old }
{
    match low {
        Low::At { bit } => *bit,
        Low::Held { word } => value(word, own, free),
    }
}

/// What a call answers: a word over what its frame leaves.
#[cycle(run)]
fn block(frame: &Frame, answer: &Word, own: &Cells, free: &mut [Cells]) -> u128
    requires frame_formed { FrameFormed (frame_of frame.now) }
    requires formed { Formed (word_of answer.now) }
    requires room { Suffices (frame_room (frame_of frame.now) (word_room (word_of answer.now)))
        own.now.room (length free.old) }
    requires alike { Alike own.now.room free.old }
    ensures is { result ≡ word_value (behind own.now.cells (frame_of frame.now)) (word_of
        answer.now) }
    ensures below { result < 2 ^ width_of (word_of answer.now) }
    ensures kept { Alike own.now.room free.new }
    ensures count { length free.new ≡ length free.old }
{
    match free.split_first_mut() {
        None => unreachable!(),
        Some((cells, rest)) => {
            call(frame, own, cells, rest);
            value(answer, cells, rest)
        }
    }
}

/// Leaves in a frame what a call leaves.
#[cycle(run)]
fn call(frame: &Frame, own: &Cells, cells: &mut Cells, free: &mut [Cells])
    requires formed { FrameFormed (frame_of frame.now) }
    requires room { Suffices (frame_room (frame_of frame.now) no_room)
        own.now.room (length free.old + 1) }
    requires same { cells.old.room ≡ own.now.room }
    requires alike { Alike own.now.room free.old }
    ensures is { cells.new.cells ≡ behind own.now.cells (frame_of frame.now) }
    ensures room { cells.new.room ≡ own.now.room }
    ensures widths { widths_in cells.new.cells ≡ frame.now.widths }
    ensures kept { Alike own.now.room free.new }
    ensures count { length free.new ≡ length free.old }
{
    cells.enter(frame.widths.as_slice(), frame.variables);
    enter_given(
        &frame.given,
        frame.widths.as_slice().len(),
        own,
        cells,
        free,
    );
    run(&frame.script, cells, free);
}

/// Gives the first registers of a frame, which has so many, what a call gives them.
#[cycle(run)]
fn enter_given(given: &Given, count: usize, own: &Cells, cells: &mut Cells, free: &mut [Cells])
    requires formed { GivenFormed (given_of given.now) }
    requires room { Suffices (given_room (given_of given.now)) own.now.room (length free.old) }
    requires alike { Alike own.now.room free.old }
    requires count { length cells.old.cells.registers ≡ count }
    ensures is { cells.new ≡ held (filled 0 (numbers_given own.now.cells (given_of given.now))
        cells.old.cells) cells.old.room }
    ensures kept { Alike own.now.room free.new }
    ensures count { length free.new ≡ length free.old }
{
    let mut left = given;
    'registers: for register in 0..count {
        match left {
            Given::Nothing => return,
            Given::Word { word, rest } => {
                let number = value(word, own, free);
                cells.enter_number(register, number);
                left = rest;
            }
            Given::Number { number, rest } => {
                cells.enter_number(register, *number);
                left = rest;
            }
            Given::Moved {
                register: from,
                low,
                width,
                rest,
            } => {
                let at = place(low, own, free);
                cells.enter_bits(register, own, *from, at, *width);
                left = rest;
            }
        }
    }
}

/// What a script leaves in a frame.
#[cycle(run)]
pub(crate) fn run(script: &Script, own: &mut Cells, free: &mut [Cells])
    requires formed { ScriptFormed (widths_in own.old.cells) (script_of script.now) }
    requires room { Suffices (script_room (script_of script.now)) own.old.room (length free.old) }
    requires alike { Alike own.old.room free.old }
    ensures is { own.new ≡ held (after (script_of script.now) own.old.cells) own.old.room }
    ensures widths { widths_in own.new.cells ≡ widths_in own.old.cells }
    ensures kept { Alike own.old.room free.new }
    ensures count { length free.new ≡ length free.old }
{
    let mut left = script;
    'statements: loop {
        match left {
            Script::Both { first, second } => {
                run(first, own, free);
                left = second;
            }
            Script::Branch { ways } => left = ways,
            Script::Way {
                condition,
                body,
                ways,
            } => left = if value(condition, own, free) == 1 {
                body
            } else {
                ways
            },
            Script::Last { body } => left = body,
            Script::Pick { selector, arms } => {
                let number = value(selector, own, free);
                return run_arm(number, arms, own, free);
            }
            Script::Put { .. } => return assign(left, own, free),
            Script::Fill { .. } => return assign(left, own, free),
            Script::Copy { .. } => return assign(left, own, free),
            Script::CopyFrom { .. } => return assign(left, own, free),
            Script::Give { .. } => return assign(left, own, free),
            Script::Stop => return,
            Script::Arm { .. } => return,
        }
    }
}

/// What a statement that has no others inside leaves in a frame.
#[cycle(run)]
fn assign(statement: &Script, own: &mut Cells, free: &mut [Cells])
    requires assignment { IsAssignment (script_of statement.now) }
    requires formed { ScriptFormed (widths_in own.old.cells) (script_of statement.now) }
    requires room { Suffices (script_room (script_of statement.now)) own.old.room (length
        free.old) }
    requires alike { Alike own.old.room free.old }
    ensures is { own.new ≡ held (after (script_of statement.now) own.old.cells) own.old.room }
    ensures widths { widths_in own.new.cells ≡ widths_in own.old.cells }
    ensures kept { Alike own.old.room free.new }
    ensures count { length free.new ≡ length free.old }
{
    match statement {
        Script::Put {
            register,
            low,
            width,
            word,
        } => {
            let number = value(word, own, free);
            own.put(*register, *low, *width, number)
        }
        Script::Fill {
            register,
            low,
            width,
            number,
        } => own.fill(*register, *low, *width, *number),
        Script::Copy {
            register,
            low,
            width,
            from,
            from_low,
        } => {
            let at = place(from_low, own, free);
            own.copy_within(*register, *low, *width, *from, at)
        }
        Script::CopyFrom {
            register,
            low,
            width,
            frame,
            from,
            from_low,
        } => match free.split_first_mut() {
            None => unreachable!(),
            Some((cells, rest)) => {
                call(frame, own, cells, rest);
                let at = place(from_low, cells, rest);
                own.copy_from(*register, *low, *width, cells, *from, at, *width)
            }
        },
        Script::Give { variable, word } => {
            let number = value(word, own, free);
            own.give(*variable, number)
        }
        _ => unreachable!(),
    }
}

/// What the first arm of this number leaves in a frame.
#[cycle(run)]
fn run_arm(number: u128, arms: &Script, own: &mut Cells, free: &mut [Cells])
    requires formed { ScriptFormed (widths_in own.old.cells) (script_of arms.now) }
    requires room { Suffices (script_room (script_of arms.now)) own.old.room (length free.old) }
    requires alike { Alike own.old.room free.old }
    ensures is { own.new ≡ held (after_arm number (script_of arms.now) own.old.cells) own.old.room }
    ensures widths { widths_in own.new.cells ≡ widths_in own.old.cells }
    ensures kept { Alike own.old.room free.new }
    ensures count { length free.new ≡ length free.old }
{
    let mut left = arms;
    'arms: while let Script::Arm {
        number: arm,
        body,
        arms,
    } = left
    {
        if number == *arm {
            return run(body, own, free);
        }
        left = arms;
    }
}
