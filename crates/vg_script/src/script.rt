//! Words and scripts in memory. Contracts see them as the data of `specs/Views.antt`.

use crate::whole_number::WholeNumber;
use vg_base::Items;
use vg_terms::{OneOp, TwoOp};

/// A word of 1 to 128 bits. A variable, an absolute value and the shifts by a word have 128.
#[cycle(script)]
#[derive(Drop)]
pub enum Word {
    /// A number below 2^width.
    Constant {
        width: u32,
        value: u128,
    },
    /// So many bits of a register, which goes by its number.
    Slice {
        register: usize,
        low: Low,
        width: u32,
    },
    /// A variable, by its number.
    Variable {
        variable: usize,
    },
    /// An operation of terms on one word. `amount` is the number of places of a shift, else 0.
    One {
        op: OneOp,
        width: u32,
        amount: u32,
        x: Box<Word>,
    },
    /// An operation of terms on two words.
    Two {
        op: TwoOp,
        width: u32,
        x: Box<Word>,
        y: Box<Word>,
    },
    /// `x` where `c` is 1, else `y`.
    Sel {
        width: u32,
        c: Box<Word>,
        x: Box<Word>,
        y: Box<Word>,
    },
    /// The number or its negative, whichever is the greater signed one.
    Absolute {
        x: Box<Word>,
    },
    ShiftLeft {
        x: Box<Word>,
        amount: Box<Word>,
    },
    ShiftRight {
        x: Box<Word>,
        amount: Box<Word>,
    },
    /// What a call answers: a word over the registers and variables that its frame leaves.
    Block {
        frame: Box<Frame>,
        answer: Box<Word>,
    },
}

/// Where a slice begins.
#[cycle(script)]
#[derive(Drop)]
pub enum Low {
    /// At this bit.
    At { bit: u128 },
    /// At the bit that a word of 128 bits says.
    Held { word: Box<Word> },
}

/// A call: the widths of its registers in bits, how many variables it has, what its first registers
/// are given, and its statements.
#[cycle(script)]
#[derive(Drop)]
pub struct Frame {
    pub widths: Items<u128>,
    pub variables: usize,
    pub given: Given,
    pub script: Script,
}

/// What registers are given, each with those after it.
#[cycle(script)]
pub enum Given {
    Nothing,
    /// A word of 128 bits.
    Word {
        word: Box<Word>,
        rest: Box<Given>,
    },
    /// A constant.
    Number {
        number: u128,
        rest: Box<Given>,
    },
    /// So many bits of a register.
    Moved {
        register: usize,
        low: Low,
        width: u128,
        rest: Box<Given>,
    },
}

/// Along the list in a loop.
impl Drop for Given {
    #[cycle(script)]
    fn drop(mut self) {
        'rest: loop {
            match self {
                Given::Nothing => return,
                Given::Word { word, rest } => {
                    drop(word);
                    self = Box::into_inner(rest)
                }
                Given::Number { number: _, rest } => self = Box::into_inner(rest),
                Given::Moved {
                    register: _,
                    low,
                    width: _,
                    rest,
                } => {
                    drop(low);
                    self = Box::into_inner(rest)
                }
            }
        }
    }
}

/// Statements. The ways of an IF and the arms of a CASE are lists, so that neither of them nests.
#[cycle(script)]
pub enum Script {
    /// Nothing, or the end of the arms of a CASE.
    Stop,
    /// The low bits of a word of 128 bits into a register from bit `low` on.
    Put {
        register: usize,
        low: u128,
        width: u32,
        word: Box<Word>,
    },
    /// The low bits of a constant into a register from bit `low` on.
    Fill {
        register: usize,
        low: u128,
        width: u128,
        number: WholeNumber,
    },
    /// Bits of a register into a register from bit `low` on.
    Copy {
        register: usize,
        low: u128,
        width: u128,
        from: usize,
        from_low: Low,
    },
    /// Bits of a register that a call leaves into a register from bit `low` on.
    CopyFrom {
        register: usize,
        low: u128,
        width: u128,
        frame: Box<Frame>,
        from: usize,
        from_low: Low,
    },
    /// A word of 128 bits into a variable.
    Give {
        variable: usize,
        word: Box<Word>,
    },
    /// The one after the other.
    Both {
        first: Box<Script>,
        second: Box<Script>,
    },
    /// An IF by its ways: `Way`s, then `Last`.
    Branch {
        ways: Box<Script>,
    },
    /// A way that is taken where a word of one bit is 1, and the ways after it.
    Way {
        condition: Box<Word>,
        body: Box<Script>,
        ways: Box<Script>,
    },
    Last {
        body: Box<Script>,
    },
    /// A CASE by a word of 128 bits and its arms: `Arm`s, then `Stop`.
    Pick {
        selector: Box<Word>,
        arms: Box<Script>,
    },
    Arm {
        number: u128,
        body: Box<Script>,
        arms: Box<Script>,
    },
}

/// Along the list in a loop, since a list may be long: what stands after first.
impl Drop for Script {
    #[cycle(script)]
    fn drop(mut self) {
        'rest: loop {
            match self {
                Script::Stop => return,
                Script::Put {
                    register: _,
                    low: _,
                    width: _,
                    word,
                } => return drop(word),
                Script::Fill {
                    register: _,
                    low: _,
                    width: _,
                    number: _,
                } => return,
                Script::Copy {
                    register: _,
                    low: _,
                    width: _,
                    from: _,
                    from_low,
                } => return drop(from_low),
                Script::CopyFrom {
                    register: _,
                    low: _,
                    width: _,
                    frame,
                    from: _,
                    from_low,
                } => {
                    drop(from_low);
                    return drop(frame);
                }
                Script::Give { variable: _, word } => return drop(word),
                Script::Both { first, second } => {
                    drop(second);
                    self = Box::into_inner(first)
                }
                Script::Branch { ways } => self = Box::into_inner(ways),
                Script::Way {
                    condition,
                    body,
                    ways,
                } => {
                    drop(condition);
                    drop(body);
                    self = Box::into_inner(ways)
                }
                Script::Last { body } => self = Box::into_inner(body),
                Script::Pick { selector, arms } => {
                    drop(selector);
                    self = Box::into_inner(arms)
                }
                Script::Arm {
                    number: _,
                    body,
                    arms,
                } => {
                    drop(body);
                    self = Box::into_inner(arms)
                }
            }
        }
    }
}
