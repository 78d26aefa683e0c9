//! Statements without those after them.

ghost use Rattle.std.specs.Prelude.{Ok, map};
ghost use Rattle.vg_pseudo.specs.Resolved.{stop};
ghost use Rattle.vg_names.specs.Naming.{Gives};
ghost use Rattle.vg_names.specs.Pieces.{behind, code_behind};
ghost use Rattle.vg_names.specs.Views.{code_view};

use crate::name_fault::NameFault;
use crate::resolved::{Code, ResolvedExpr, Target};
use std::alloc::Global;
use vg_text::Place;

/// A statement, or a way or an arm, without those after it.
pub(crate) enum Piece {
    Assign {
        place: Place,
        target: Target,
        value: Box<ResolvedExpr>,
    },
    Skip {
        place: Place,
    },
    Repeat {
        place: Place,
        first: Box<ResolvedExpr>,
        last: Box<ResolvedExpr>,
        body: Box<Code>,
    },
    Choose {
        ways: Box<Code>,
    },
    Way {
        condition: Box<ResolvedExpr>,
        body: Box<Code>,
    },
    /// The last way of an IF, whose statements stand after it.
    Last,
    Pick {
        selector: Box<ResolvedExpr>,
        arms: Box<Code>,
    },
    Arm {
        number: u128,
        body: Box<Code>,
    },
}

/// Written out, so that the exits of an owner call it: a derived one would be proved anew at each.
impl Drop for Piece {
    fn drop(self) {
        match self {
            Piece::Assign {
                place: _,
                target: _,
                value: _,
            } => {}
            Piece::Skip { place: _ } => {}
            Piece::Repeat {
                place: _,
                first: _,
                last: _,
                body: _,
            } => {}
            Piece::Choose { ways: _ } => {}
            Piece::Way {
                condition: _,
                body: _,
            } => {}
            Piece::Last => {}
            Piece::Pick {
                selector: _,
                arms: _,
            } => {}
            Piece::Arm { number: _, body: _ } => {}
        }
    }
}

impl Piece {
    /// This statement with these after it.
    fn joined(self, alloc: Global, code: Code) -> Result<Code, NameFault>
        ensures { Gives code_view result (Ok (behind self (code_view code))) }
    {
        let rest = Box::new(alloc, code)?;
        match self {
            Piece::Assign {
                place,
                target,
                value,
            } => Ok(Code::Assign {
                place,
                target,
                value,
                rest,
            }),
            Piece::Skip { place } => Ok(Code::Skip { place, rest }),
            Piece::Repeat {
                place,
                first,
                last,
                body,
            } => Ok(Code::Repeat {
                place,
                first,
                last,
                body,
                rest,
            }),
            Piece::Choose { ways } => Ok(Code::Choose { ways, rest }),
            Piece::Way { condition, body } => Ok(Code::Way {
                condition,
                body,
                ways: rest,
            }),
            Piece::Last => Ok(Code::Last { body: rest }),
            Piece::Pick { selector, arms } => Ok(Code::Pick {
                selector,
                arms,
                rest,
            }),
            Piece::Arm { number, body } => Ok(Code::Arm {
                number,
                body,
                arms: rest,
            }),
        }
    }
}

/// These statements as a list.
pub(crate) fn linked(alloc: Global, mut done: Vec<Piece>) -> Result<Code, NameFault>
    ensures { Gives code_view result (Ok (code_behind (map behind done.items) stop)) }
{
    let mut code = Code::Stop;
    'statements: while let Some(piece) = done.pop() {
        match piece.joined(alloc, code) {
            Ok(longer) => code = longer,
            Err(fault) => return Err(fault),
        }
    }
    Ok(code)
}
