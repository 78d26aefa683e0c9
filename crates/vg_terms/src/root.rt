//! The root of a term, and what stands below it.

ghost use Rattle.std.specs.Prelude.{◌≡◌};
ghost use Rattle.vg_terms.specs.Root.{amount_of, below, condition_of, else_of, first_of, is_constant, is_number, is_one, one_op_or, second_of, then_of, two_op_or};
ghost use Rattle.vg_terms.specs.Term.{WellFormed, tree};

use crate::term::{OneOp, Term, TwoOp, make_const};

impl Term {
    /// Whether the term is a constant.
    pub fn is_constant(&self) -> bool
        ensures { result ≡ is_constant (tree self.now) }
    {
        match self {
            Term::Const { .. } => true,
            _ => false,
        }
    }

    /// Whether the term is a constant, and this number.
    pub fn is_number(&self, number: u128) -> bool
        ensures { result ≡ is_number number (tree self.now) }
    {
        match self {
            Term::Const { value, .. } => *value == number,
            _ => false,
        }
    }

    /// Whether the term is this operation on one term.
    pub fn is_one(&self, op: OneOp) -> bool
        ensures { result ≡ is_one op (tree self.now) }
    {
        match self {
            Term::One { op: own, .. } => op.tag() == own.tag(),
            _ => false,
        }
    }

    /// The operation at the root where it is one on one term, else the other.
    pub fn one_op_or(&self, other: OneOp) -> OneOp
        ensures { result ≡ one_op_or other (tree self.now) }
    {
        match self {
            Term::One { op, .. } => *op,
            _ => other,
        }
    }

    /// The operation at the root where it is one on two terms, else the other.
    pub fn two_op_or(&self, other: TwoOp) -> TwoOp
        ensures { result ≡ two_op_or other (tree self.now) }
    {
        match self {
            Term::Two { op, .. } => *op,
            _ => other,
        }
    }

    /// The number of places of a shift, else 0.
    pub fn amount(&self) -> u32
        ensures { result ≡ amount_of (tree self.now) }
    {
        match self {
            Term::One { amount, .. } => *amount,
            _ => 0,
        }
    }

    /// The child of an operation on one term, else the term itself.
    pub fn below(&self) -> &Term
        ensures is { tree result.now ≡ below (tree self.now) }
        ensures well_formed { WellFormed (tree self.now) → WellFormed (tree result.now) }
    {
        match self {
            Term::One { x, .. } => x,
            _ => self,
        }
    }

    /// The same, moved out of the term.
    pub fn into_below(self) -> Term
        ensures is { tree result ≡ below (tree self) }
        ensures well_formed { WellFormed (tree self) → WellFormed (tree result) }
    {
        match self {
            Term::One { x, .. } => Box::into_inner(x),
            other => other,
        }
    }

    /// The children of an operation on two terms, moved out of it; else the term itself, and a constant
    /// of no bits.
    pub fn into_pair(self) -> (Term, Term)
        ensures first { tree result.0 ≡ first_of (tree self) }
        ensures second { tree result.1 ≡ second_of (tree self) }
    {
        match self {
            Term::Two { x, y, .. } => (Box::into_inner(x), Box::into_inner(y)),
            other => (other, make_const(0, 0)),
        }
    }

    /// The condition and the two terms of a selection, moved out of it; else the term itself, and
    /// constants of no bits.
    pub fn into_selection(self) -> (Term, Term, Term)
        ensures condition { tree result.0 ≡ condition_of (tree self) }
        ensures first { tree result.1 ≡ then_of (tree self) }
        ensures second { tree result.2 ≡ else_of (tree self) }
    {
        match self {
            Term::Sel { c, x, y, .. } => (
                Box::into_inner(c),
                Box::into_inner(x),
                Box::into_inner(y),
            ),
            other => (other, make_const(0, 0), make_const(0, 0)),
        }
    }
}
