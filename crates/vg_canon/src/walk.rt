//! How much of a term has to be walked.

ghost use Rattle.std.specs.Prelude.{◌≡◌};
ghost use Rattle.vg_canon.specs.Walk.{ends_at, first_walk, other_walk, walk_of_sum};
ghost use Rattle.vg_terms.specs.Term.{tree};

use vg_terms::{Term, TwoOp};

/// How much of a term has to be walked, where what lies beyond is known to be canonical: the whole term,
/// a chain of this operation without its parts, or so many levels from the root.
#[derive(Clone, Copy)]
pub enum Walk {
    Whole,
    Chain(TwoOp),
    Levels(u32),
}

impl Walk {
    /// Whether the term lies beyond.
    pub fn ends_at(self, t: &Term) -> bool
        ensures { result ≡ ends_at self (tree t.now) }
    {
        match self {
            Walk::Whole => false,
            Walk::Chain(op) => !t.opens(op),
            Walk::Levels(n) => n == 0,
        }
    }

    /// The walk of the first child of an operation on two terms.
    pub fn first(self) -> Walk
        ensures { result ≡ first_walk self }
    {
        match self {
            Walk::Whole => Walk::Whole,
            Walk::Chain(op) => Walk::Chain(op),
            Walk::Levels(n) => Walk::Levels(n.saturating_sub(1)),
        }
    }

    /// The walk of another child.
    pub fn other(self) -> Walk
        ensures { result ≡ other_walk self }
    {
        match self {
            Walk::Whole => Walk::Whole,
            Walk::Chain(_) => Walk::Levels(0),
            Walk::Levels(n) => Walk::Levels(n.saturating_sub(1)),
        }
    }

    /// The walk of what a rule for sums makes of a term over canonical children: a chain of the operation,
    /// or a constant.
    pub fn of_sum(t: &Term) -> Walk
        ensures { result ≡ walk_of_sum (tree t.now) }
    {
        match t {
            Term::Two { op, .. } => Walk::Chain(*op),
            _ => Walk::Levels(0),
        }
    }
}
