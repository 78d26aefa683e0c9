//! Statements of operation texts.

ghost use Rattle.std.specs.Prelude.{◌≡◌};
ghost use Rattle.vg_pseudo.specs.Statements.{followed};
ghost use Rattle.vg_pseudo.specs.Tree.{statements_of};

use crate::expression::Expr;
use vg_base::Name;
use vg_text::Place;

/// Statements, each with those after it. The ways of an IF and the arms of a CASE are lists of the same kind, so that
/// neither of them nests.
pub enum Stmt {
    /// The end of a list.
    End,
    /// `target := value`, the target being a name or one of the forms with brackets or an element.
    Assign {
        /// Of the target.
        place: Place,
        target: Expr,
        value: Expr,
        rest: Box<Stmt>,
    },
    /// `name[MAX:low] := value`, which has no effect.
    AssignAbove {
        /// Of the name.
        place: Place,
        name: Name,
        low: Expr,
        value: Expr,
        rest: Box<Stmt>,
    },
    /// `FOR variable := first to last body ENDFOR`
    For {
        /// Of the word FOR.
        place: Place,
        variable: Name,
        first: Expr,
        last: Expr,
        body: Box<Stmt>,
        rest: Box<Stmt>,
    },
    /// `IF .. FI` by its ways: `Way`s, then `Else`.
    If {
        ways: Box<Stmt>,
        rest: Box<Stmt>,
    },
    /// `IF condition body` or `ELSE IF condition body`, and the ways after it.
    Way {
        condition: Expr,
        body: Box<Stmt>,
        ways: Box<Stmt>,
    },
    /// The last way, empty where the text has no ELSE of its own.
    Else {
        body: Box<Stmt>,
    },
    /// `CASE selector OF .. ESAC` by its arms: `Arm`s, then `End`.
    Case {
        selector: Expr,
        arms: Box<Stmt>,
        rest: Box<Stmt>,
    },
    /// `number: body`, and the arms after it.
    Arm {
        number: u128,
        body: Box<Stmt>,
        arms: Box<Stmt>,
    },
}

/// Along the list in a loop, since a list may be long.
impl Drop for Stmt {
    fn drop(mut self) {
        'rest: loop {
            match self {
                Stmt::End => return,
                Stmt::Assign {
                    place: _,
                    target,
                    value,
                    rest,
                } => {
                    drop(target);
                    drop(value);
                    self = Box::into_inner(rest)
                }
                Stmt::AssignAbove {
                    place: _,
                    name,
                    low,
                    value,
                    rest,
                } => {
                    drop(name);
                    drop(low);
                    drop(value);
                    self = Box::into_inner(rest)
                }
                Stmt::For {
                    place: _,
                    variable,
                    first,
                    last,
                    body,
                    rest,
                } => {
                    drop(variable);
                    drop(first);
                    drop(last);
                    drop(body);
                    self = Box::into_inner(rest)
                }
                Stmt::If { ways, rest } => {
                    drop(ways);
                    self = Box::into_inner(rest)
                }
                Stmt::Way {
                    condition,
                    body,
                    ways,
                } => {
                    drop(condition);
                    drop(body);
                    self = Box::into_inner(ways)
                }
                Stmt::Else { body } => self = Box::into_inner(body),
                Stmt::Case {
                    selector,
                    arms,
                    rest,
                } => {
                    drop(selector);
                    drop(arms);
                    self = Box::into_inner(rest)
                }
                Stmt::Arm {
                    number: _,
                    body,
                    arms,
                } => {
                    drop(body);
                    self = Box::into_inner(arms)
                }
            }
        }
    }
}

impl Stmt {
    /// One statement, way or arm, with these after it in place of its own.
    pub(crate) fn followed(mut self, next: Stmt) -> Stmt
        ensures { statements_of result ≡ followed (statements_of self) (statements_of next) }
    {
        match &mut self {
            Stmt::End => {}
            Stmt::Assign { rest, .. } => **rest = next,
            Stmt::AssignAbove { rest, .. } => **rest = next,
            Stmt::For { rest, .. } => **rest = next,
            Stmt::If { rest, .. } => **rest = next,
            Stmt::Way { ways, .. } => **ways = next,
            Stmt::Else { .. } => {}
            Stmt::Case { rest, .. } => **rest = next,
            Stmt::Arm { arms, .. } => **arms = next,
        }
        self
    }
}
