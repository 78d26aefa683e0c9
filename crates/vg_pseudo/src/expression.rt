//! Expressions of operation texts.

ghost use Rattle.std.specs.Prelude.{◌≡◌};
ghost use Rattle.vg_pseudo.specs.Spots.{spot_of, with_outer};
ghost use Rattle.vg_pseudo.specs.Tree.{expression_of};

use crate::operators::{BinaryOp, UnaryOp};
use crate::spot::Spot;
use vg_base::{Name, Width};
use vg_text::Place;

/// An expression. Contracts see it as its tree. Parentheses are no part of it, but for its spot.
#[cycle(expression)]
pub enum Expr {
    /// A number, below 2^127.
    Number {
        spot: Spot,
        value: u128,
    },
    /// `name`
    Name {
        spot: Spot,
        name: Name,
    },
    /// `name[high:low]`
    Slice {
        spot: Spot,
        name: Name,
        high: Box<Expr>,
        low: Box<Expr>,
    },
    /// `name[index]`: a single bit
    Bit {
        spot: Spot,
        name: Name,
        index: Box<Expr>,
    },
    /// `name.elem[index]`
    Element {
        spot: Spot,
        name: Name,
        size: Width,
        index: Box<Expr>,
    },
    /// `name.elem`
    Part {
        spot: Spot,
        name: Name,
        size: Width,
    },
    Unary {
        spot: Spot,
        op: UnaryOp,
        operand: Box<Expr>,
    },
    Binary {
        spot: Spot,
        op: BinaryOp,
        left: Box<Expr>,
        right: Box<Expr>,
    },
    /// `condition ? first : second`
    Choice {
        spot: Spot,
        condition: Box<Expr>,
        first: Box<Expr>,
        second: Box<Expr>,
    },
    /// A call of a DEFINE by its name.
    Call {
        spot: Spot,
        name: Name,
        arguments: Arguments,
    },
}

/// Written out, so that the exits of an owner call it: a derived one would be proved anew at each.
impl Drop for Expr {
    #[cycle(expression)]
    fn drop(self) {
        match self {
            Expr::Number { spot: _, value: _ } => {}
            Expr::Name { spot: _, name: _ } => {}
            Expr::Slice {
                spot: _,
                name: _,
                high: _,
                low: _,
            } => {}
            Expr::Bit {
                spot: _,
                name: _,
                index: _,
            } => {}
            Expr::Element {
                spot: _,
                name: _,
                size: _,
                index: _,
            } => {}
            Expr::Part {
                spot: _,
                name: _,
                size: _,
            } => {}
            Expr::Unary {
                spot: _,
                op: _,
                operand: _,
            } => {}
            Expr::Binary {
                spot: _,
                op: _,
                left: _,
                right: _,
            } => {}
            Expr::Choice {
                spot: _,
                condition: _,
                first: _,
                second: _,
            } => {}
            Expr::Call {
                spot: _,
                name: _,
                arguments: _,
            } => {}
        }
    }
}

/// The arguments of a call in their order, each with those after it.
#[cycle(expression)]
pub enum Arguments {
    End,
    More {
        argument: Box<Expr>,
        rest: Box<Arguments>,
    },
}

/// Along the list in a loop, since a list may be long.
impl Drop for Arguments {
    #[cycle(expression)]
    fn drop(mut self) {
        'rest: loop {
            match self {
                Arguments::End => return,
                Arguments::More { argument, rest } => {
                    drop(argument);
                    self = Box::into_inner(rest)
                }
            }
        }
    }
}

impl Expr {
    /// Where it stands.
    pub fn spot(&self) -> Spot
        ensures { result ≡ spot_of (expression_of self.now) }
    {
        match *self {
            Expr::Number { spot, .. } => spot,
            Expr::Name { spot, .. } => spot,
            Expr::Slice { spot, .. } => spot,
            Expr::Bit { spot, .. } => spot,
            Expr::Element { spot, .. } => spot,
            Expr::Part { spot, .. } => spot,
            Expr::Unary { spot, .. } => spot,
            Expr::Binary { spot, .. } => spot,
            Expr::Choice { spot, .. } => spot,
            Expr::Call { spot, .. } => spot,
        }
    }

    /// The same in parentheses that begin at a place.
    pub(crate) fn with_outer(mut self, place: Place) -> Expr
        ensures { expression_of result ≡ with_outer place (expression_of self) }
    {
        match &mut self {
            Expr::Number { spot, .. } => *spot = spot.around(place),
            Expr::Name { spot, .. } => *spot = spot.around(place),
            Expr::Slice { spot, .. } => *spot = spot.around(place),
            Expr::Bit { spot, .. } => *spot = spot.around(place),
            Expr::Element { spot, .. } => *spot = spot.around(place),
            Expr::Part { spot, .. } => *spot = spot.around(place),
            Expr::Unary { spot, .. } => *spot = spot.around(place),
            Expr::Binary { spot, .. } => *spot = spot.around(place),
            Expr::Choice { spot, .. } => *spot = spot.around(place),
            Expr::Call { spot, .. } => *spot = spot.around(place),
        }
        self
    }
}
