//! How statements, and what calls are given, are made. Each call fails for want of memory alone.

ghost use Rattle.std.specs.Prelude.{◌≡◌, IfOk};
ghost use Rattle.vg_script.specs.Script.{arm, both, branch, copy_from, frame, give, last, moved, number, pick, put, way, word};
ghost use Rattle.vg_script.specs.Views.{frame_of, given_of, low_of, script_of, word_of};

use crate::script::{Frame, Given, Low, Script, Word};
use std::alloc::{AllocError, Global};

/// A word of 128 bits for a register, and what those after it are given.
pub fn make_given_word(alloc: Global, x: Word, rest: Given) -> Result<Given, AllocError>
    ensures { IfOk result (λ given. given_of given ≡ word (word_of x) (given_of rest)) }
{
    let word = Box::new(alloc, x)?;
    let rest = Box::new(alloc, rest)?;
    Ok(Given::Word { word, rest })
}

/// A constant for a register, and what those after it are given.
pub fn make_given_number(alloc: Global, n: u128, rest: Given) -> Result<Given, AllocError>
    ensures { IfOk result (λ given. given_of given ≡ number n (given_of rest)) }
{
    let rest = Box::new(alloc, rest)?;
    Ok(Given::Number { number: n, rest })
}

/// Bits of a register for a register, and what those after it are given.
pub fn make_given_bits(
    alloc: Global,
    register: usize,
    low: Low,
    width: u128,
    rest: Given,
) -> Result<Given, AllocError>
    ensures { IfOk result (λ given. given_of given ≡ moved register (low_of low) width (given_of
        rest)) }
{
    let rest = Box::new(alloc, rest)?;
    Ok(Given::Moved {
        register,
        low,
        width,
        rest,
    })
}

/// A word of 128 bits into so many bits of a register.
pub fn make_put(
    alloc: Global,
    register: usize,
    low: u128,
    width: u32,
    word: Word,
) -> Result<Script, AllocError>
    ensures { IfOk result (λ script. script_of script ≡ put register low width (word_of word)) }
{
    let word = Box::new(alloc, word)?;
    Ok(Script::Put {
        register,
        low,
        width,
        word,
    })
}

/// Bits of a register that a call leaves into as many bits of a register.
pub fn make_copy_from(
    alloc: Global,
    register: usize,
    low: u128,
    width: u128,
    frame: Frame,
    from: usize,
    from_low: Low,
) -> Result<Script, AllocError>
    ensures { IfOk result (λ script. script_of script ≡
        copy_from register low width (frame_of frame) from (low_of from_low)) }
{
    let frame = Box::new(alloc, frame)?;
    Ok(Script::CopyFrom {
        register,
        low,
        width,
        frame,
        from,
        from_low,
    })
}

/// A word of 128 bits into a variable.
pub fn make_give(alloc: Global, variable: usize, word: Word) -> Result<Script, AllocError>
    ensures { IfOk result (λ script. script_of script ≡ give variable (word_of word)) }
{
    let word = Box::new(alloc, word)?;
    Ok(Script::Give { variable, word })
}

/// The one after the other.
pub fn make_both(alloc: Global, first: Script, second: Script) -> Result<Script, AllocError>
    ensures { IfOk result (λ script. script_of script ≡ both (script_of first) (script_of second)) }
{
    let first = Box::new(alloc, first)?;
    let second = Box::new(alloc, second)?;
    Ok(Script::Both { first, second })
}

/// An IF by its ways.
pub fn make_branch(alloc: Global, ways: Script) -> Result<Script, AllocError>
    ensures { IfOk result (λ script. script_of script ≡ branch (script_of ways)) }
{
    let ways = Box::new(alloc, ways)?;
    Ok(Script::Branch { ways })
}

/// A way that is taken where a word of one bit is 1, and the ways after it.
pub fn make_way(
    alloc: Global,
    condition: Word,
    body: Script,
    ways: Script,
) -> Result<Script, AllocError>
    ensures { IfOk result (λ script. script_of script ≡
        way (word_of condition) (script_of body) (script_of ways)) }
{
    let condition = Box::new(alloc, condition)?;
    let body = Box::new(alloc, body)?;
    let ways = Box::new(alloc, ways)?;
    Ok(Script::Way {
        condition,
        body,
        ways,
    })
}

/// The last way.
pub fn make_last(alloc: Global, body: Script) -> Result<Script, AllocError>
    ensures { IfOk result (λ script. script_of script ≡ last (script_of body)) }
{
    let body = Box::new(alloc, body)?;
    Ok(Script::Last { body })
}

/// A CASE by a word of 128 bits and its arms.
pub fn make_pick(alloc: Global, selector: Word, arms: Script) -> Result<Script, AllocError>
    ensures { IfOk result (λ script. script_of script ≡ pick (word_of selector) (script_of arms)) }
{
    let selector = Box::new(alloc, selector)?;
    let arms = Box::new(alloc, arms)?;
    Ok(Script::Pick { selector, arms })
}

/// An arm of a CASE, and the arms after it.
pub fn make_arm(
    alloc: Global,
    number: u128,
    body: Script,
    arms: Script,
) -> Result<Script, AllocError>
    ensures { IfOk result (λ script. script_of script ≡ arm number (script_of body) (script_of
        arms)) }
{
    let body = Box::new(alloc, body)?;
    let arms = Box::new(alloc, arms)?;
    Ok(Script::Arm { number, body, arms })
}
