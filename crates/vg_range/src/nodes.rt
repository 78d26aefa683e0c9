//! How many nodes scripts have.

ghost use Rattle.std.specs.Prelude.{◌≡◌};
ghost use Rattle.vg_script.specs.Views.{frame_of, given_of, low_of, script_of, word_of};
ghost use Rattle.vg_range.specs.Nodes.{counted, frame_nodes, given_nodes, low_nodes, script_nodes, word_nodes};

use vg_script::{Frame, Given, Low, Script, Word};

#[cycle(nodes)]
fn with_word(count: u64, word: &Word) -> u64
    ensures { result ≡ counted count (word_nodes (word_of word.now)) }
{
    let count = count.saturating_add(1);
    match word {
        Word::Constant { .. } => count,
        Word::Slice { low, .. } => with_low(count, low),
        Word::Variable { .. } => count,
        Word::One { x, .. } => with_word(count, x),
        Word::Two { x, y, .. } => with_word(with_word(count, x), y),
        Word::Sel { c, x, y, .. } => with_word(with_word(with_word(count, c), x), y),
        Word::Absolute { x } => with_word(count, x),
        Word::ShiftLeft { x, amount } => with_word(with_word(count, x), amount),
        Word::ShiftRight { x, amount } => with_word(with_word(count, x), amount),
        Word::Block { frame, answer } => with_word(with_frame(count, frame), answer),
    }
}

#[cycle(nodes)]
fn with_low(count: u64, low: &Low) -> u64
    ensures { result ≡ counted count (low_nodes (low_of low.now)) }
{
    match low {
        Low::At { .. } => count,
        Low::Held { word } => with_word(count, word),
    }
}

#[cycle(nodes)]
fn with_frame(count: u64, frame: &Frame) -> u64
    ensures { result ≡ counted count (frame_nodes (frame_of frame.now)) }
{
    with_script(with_given(count, &frame.given), &frame.script)
}

/// Along the list in a loop.
#[cycle(nodes)]
fn with_given(count: u64, given: &Given) -> u64
    ensures { result ≡ counted count (given_nodes (given_of given.now)) }
{
    let mut count = count;
    let mut left = given;
    'registers: loop {
        match left {
            Given::Nothing => return count,
            Given::Word { word, rest } => {
                count = with_word(count.saturating_add(1), word);
                left = rest;
            }
            Given::Number { rest, .. } => {
                count = count.saturating_add(1);
                left = rest;
            }
            Given::Moved { low, rest, .. } => {
                count = with_low(count.saturating_add(1), low);
                left = rest;
            }
        }
    }
}

/// Along the list in a loop, from what stands after.
#[cycle(nodes)]
fn with_script(count: u64, script: &Script) -> u64
    ensures { result ≡ counted count (script_nodes (script_of script.now)) }
{
    let mut count = count;
    let mut left = script;
    'statements: loop {
        if let Script::Stop = left {
            return count;
        }
        count = count.saturating_add(1);
        match left {
            Script::Put { word, .. } => return with_word(count, word),
            Script::Copy { from_low, .. } => return with_low(count, from_low),
            Script::CopyFrom {
                frame,
                from_low,
                ..
            } => return with_frame(with_low(count, from_low), frame),
            Script::Give { word, .. } => return with_word(count, word),
            Script::Both { first, second } => {
                count = with_script(count, second);
                left = first;
            }
            Script::Branch { ways } => left = ways,
            Script::Way {
                condition,
                body,
                ways,
            } => {
                count = with_script(with_word(count, condition), body);
                left = ways;
            }
            Script::Last { body } => left = body,
            Script::Pick { selector, arms } => {
                count = with_word(count, selector);
                left = arms;
            }
            Script::Arm { body, arms, .. } => {
                count = with_script(count, body);
                left = arms;
            }
            _ => return count,
        }
    }
}

/// How many nodes a script has; past the end of the type its end.
pub fn nodes_of(script: &Script) -> u64
    ensures { result ≡ counted 0 (script_nodes (script_of script.now)) }
{
    with_script(0, script)
}
