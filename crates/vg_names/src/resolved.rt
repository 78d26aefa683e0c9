//! Operations with their names resolved. Contracts see them as the data of `specs/Views.antt`.

use vg_base::Items;
use vg_pseudo::{BinaryOp, Spot, UnaryOp};
use vg_text::Place;

/// An expression with its names resolved.
#[cycle(resolved)]
pub enum ResolvedExpr {
    /// A number, below 2^127.
    Literal {
        spot: Spot,
        value: u128,
    },
    /// The variable of a FOR, by how many FORs lie between.
    Counter {
        spot: Spot,
        turn: usize,
    },
    /// A number variable, by its number.
    Variable {
        spot: Spot,
        variable: usize,
    },
    /// `name[high:low]`
    Slice {
        spot: Spot,
        is_signed: bool,
        register: usize,
        /// n, where the text of the high index is that of the low one and `+ n` after it.
        spread: Option<u128>,
        high: Box<ResolvedExpr>,
        low: Box<ResolvedExpr>,
    },
    /// `name.elem[index]` or `name[index]`
    Element {
        spot: Spot,
        is_signed: bool,
        register: usize,
        /// Of the element in bits: 1, 8, 16, 32 or 64.
        size: u32,
        index: Box<ResolvedExpr>,
    },
    /// A bare name or `name.elem`: the bits of a register from bit 0 on.
    Front {
        spot: Spot,
        is_signed: bool,
        register: usize,
        /// How many bits.
        size: u128,
    },
    Unary {
        spot: Spot,
        op: UnaryOp,
        operand: Box<ResolvedExpr>,
    },
    Binary {
        spot: Spot,
        op: BinaryOp,
        left: Box<ResolvedExpr>,
        right: Box<ResolvedExpr>,
    },
    /// `condition ? first : second`
    Choice {
        spot: Spot,
        condition: Box<ResolvedExpr>,
        first: Box<ResolvedExpr>,
        second: Box<ResolvedExpr>,
    },
    /// A call of a DEFINE, by its place among all.
    Call {
        spot: Spot,
        function: usize,
        arguments: Box<ResolvedArguments>,
    },
}

/// Written out, so that the exits of an owner call it: a derived one would be proved anew at each.
impl Drop for ResolvedExpr {
    #[cycle(resolved)]
    fn drop(self) {
        match self {
            ResolvedExpr::Literal { spot: _, value: _ } => {}
            ResolvedExpr::Counter { spot: _, turn: _ } => {}
            ResolvedExpr::Variable {
                spot: _,
                variable: _,
            } => {}
            ResolvedExpr::Slice {
                spot: _,
                is_signed: _,
                register: _,
                spread: _,
                high: _,
                low: _,
            } => {}
            ResolvedExpr::Element {
                spot: _,
                is_signed: _,
                register: _,
                size: _,
                index: _,
            } => {}
            ResolvedExpr::Front {
                spot: _,
                is_signed: _,
                register: _,
                size: _,
            } => {}
            ResolvedExpr::Unary {
                spot: _,
                op: _,
                operand: _,
            } => {}
            ResolvedExpr::Binary {
                spot: _,
                op: _,
                left: _,
                right: _,
            } => {}
            ResolvedExpr::Choice {
                spot: _,
                condition: _,
                first: _,
                second: _,
            } => {}
            ResolvedExpr::Call {
                spot: _,
                function: _,
                arguments: _,
            } => {}
        }
    }
}

/// The arguments of a call in their order, each with those after it.
#[cycle(resolved)]
pub enum ResolvedArguments {
    End,
    More {
        argument: Box<ResolvedExpr>,
        rest: Box<ResolvedArguments>,
    },
}

/// Along the list in a loop, since a list may be long.
impl Drop for ResolvedArguments {
    #[cycle(resolved)]
    fn drop(mut self) {
        'rest: loop {
            match self {
                ResolvedArguments::End => return,
                ResolvedArguments::More { argument, rest } => {
                    drop(argument);
                    self = Box::into_inner(rest)
                }
            }
        }
    }
}

/// What an assignment writes. A register or a number variable goes by its number.
pub enum Target {
    /// The bits of a register from `low` to `high`.
    Bits {
        register: usize,
        high: Box<ResolvedExpr>,
        low: Box<ResolvedExpr>,
    },
    /// An element of a register, its size being in bits: 1, 8, 16, 32 or 64.
    Lane {
        register: usize,
        size: u32,
        index: Box<ResolvedExpr>,
    },
    /// So many bits of a register from bit 0 on.
    Whole {
        register: usize,
        size: u128,
    },
    /// A number variable.
    Number {
        variable: usize,
    },
}

/// Written out, so that the exits of an owner call it: a derived one would be proved anew at each.
impl Drop for Target {
    fn drop(self) {
        match self {
            Target::Bits {
                register: _,
                high: _,
                low: _,
            } => {}
            Target::Lane {
                register: _,
                size: _,
                index: _,
            } => {}
            Target::Whole {
                register: _,
                size: _,
            } => {}
            Target::Number { variable: _ } => {}
        }
    }
}

/// Statements, each with those after it. The ways of an IF and the arms of a CASE are lists of the
/// same kind, so that neither of them nests.
pub enum Code {
    /// The end of a list.
    Stop,
    Assign {
        place: Place,
        target: Target,
        value: Box<ResolvedExpr>,
        rest: Box<Code>,
    },
    /// An assignment with MAX, which has no effect.
    Skip {
        place: Place,
        rest: Box<Code>,
    },
    /// A FOR from the first number to the last.
    Repeat {
        place: Place,
        first: Box<ResolvedExpr>,
        last: Box<ResolvedExpr>,
        body: Box<Code>,
        rest: Box<Code>,
    },
    /// An IF by its ways: `Way`s, then `Last`.
    Choose {
        ways: Box<Code>,
        rest: Box<Code>,
    },
    Way {
        condition: Box<ResolvedExpr>,
        body: Box<Code>,
        ways: Box<Code>,
    },
    Last {
        body: Box<Code>,
    },
    /// A CASE by its arms: `Arm`s, then `Stop`.
    Pick {
        selector: Box<ResolvedExpr>,
        arms: Box<Code>,
        rest: Box<Code>,
    },
    Arm {
        number: u128,
        body: Box<Code>,
        arms: Box<Code>,
    },
}

/// Along the list in a loop, since a list may be long.
impl Drop for Code {
    fn drop(mut self) {
        'rest: loop {
            match self {
                Code::Stop => return,
                Code::Assign {
                    place: _,
                    target,
                    value,
                    rest,
                } => {
                    drop(target);
                    drop(value);
                    self = Box::into_inner(rest)
                }
                Code::Skip { place: _, rest } => self = Box::into_inner(rest),
                Code::Repeat {
                    place: _,
                    first,
                    last,
                    body,
                    rest,
                } => {
                    drop(first);
                    drop(last);
                    drop(body);
                    self = Box::into_inner(rest)
                }
                Code::Choose { ways, rest } => {
                    drop(ways);
                    self = Box::into_inner(rest)
                }
                Code::Way {
                    condition,
                    body,
                    ways,
                } => {
                    drop(condition);
                    drop(body);
                    self = Box::into_inner(ways)
                }
                Code::Last { body } => self = Box::into_inner(body),
                Code::Pick {
                    selector,
                    arms,
                    rest,
                } => {
                    drop(selector);
                    drop(arms);
                    self = Box::into_inner(rest)
                }
                Code::Arm {
                    number: _,
                    body,
                    arms,
                } => {
                    drop(body);
                    self = Box::into_inner(arms)
                }
            }
        }
    }
}

/// The statements of an operation or of a DEFINE, with what they stand on.
pub struct Body {
    /// The widths of the registers in bits, by their numbers. Parameters come first; after those
    /// of the operation the immediate, where there is one, and then dst.
    pub widths: Items<u128>,
    /// How many of the registers are parameters, the immediate counted.
    pub parameters: usize,
    /// How many number variables there are.
    pub numbers: usize,
    pub code: Code,
}

/// Written out, so that the exits of an owner call it: a derived one would be proved anew at each.
impl Drop for Body {
    fn drop(self) {
        let Body {
            widths: _,
            parameters: _,
            numbers: _,
            code: _,
        } = self;
    }
}

/// A DEFINE: its body, and the expression of its RETURN.
pub struct Function {
    pub body: Body,
    pub answer: ResolvedExpr,
}

/// Written out, so that the exits of an owner call it: a derived one would be proved anew at each.
impl Drop for Function {
    fn drop(self) {
        let Function { body: _, answer: _ } = self;
    }
}

/// An operation: its DEFINEs in their order, its body, and the number of dst among its registers.
pub struct Resolved {
    pub functions: Items<Function>,
    pub body: Body,
    pub result: usize,
}

/// Written out, so that the exits of an owner call it: a derived one would be proved anew at each.
impl Drop for Resolved {
    fn drop(self) {
        let Resolved {
            functions: _,
            body: _,
            result: _,
        } = self;
    }
}
