//! The measure of a term, which every rule lowers: weight, and then disorder.

ghost use Rattle.std.specs.Prelude.{◌≡◌, ◌-◌, ◌^◌, min};
ghost use Rattle.vg_terms.specs.Measure.{disorder, one_weight, two_weight, weight};
ghost use Rattle.vg_terms.specs.Term.{tree};

use crate::term::{OneOp, Term, TwoOp};

impl Term {
    /// The weight of the term, or the greatest `u64` where it is more. Each node has a weight by its
    /// operation and its width; a comparison counts the width that it compares.
    pub fn weight(&self) -> u64
        ensures { result ≡ min (weight (tree self.now)) (2 ^ 64 - 1) }
    {
        match self {
            Term::Leaf { .. } => 1,
            Term::Const { .. } => 1,
            Term::One { op, width, x, .. } => x.weight().saturating_add(weight_of_one(*op, *width)),
            Term::Two { op, width, x, y } => {
                let own = weight_of_two(*op, *width, x.width());
                own.saturating_add(x.weight()).saturating_add(y.weight())
            }
            Term::Sel { width, c, x, y } => {
                let own = 8 * *width as u64;
                let below = x.weight().saturating_add(y.weight());
                own.saturating_add(c.weight()).saturating_add(below)
            }
        }
    }

    /// How many subterms can be put in order, the term itself among them, or the greatest `u64` where
    /// there are more.
    pub fn disorder(&self) -> u64
        ensures { result ≡ min (disorder (tree self.now)) (2 ^ 64 - 1) }
    {
        match self {
            Term::Leaf { .. } => 0,
            Term::Const { .. } => 0,
            Term::One { x, .. } => x.disorder(),
            Term::Two { x, y, .. } => {
                let own = if self.is_disordered() { 1 } else { 0 };
                let below = x.disorder().saturating_add(y.disorder());
                below.saturating_add(own)
            }
            Term::Sel { c, x, y, .. } => {
                let below = x.disorder().saturating_add(y.disorder());
                below.saturating_add(c.disorder())
            }
        }
    }
}

// Of an operation of width w.
fn weight_of_one(op: OneOp, w: u32) -> u64
    ensures { result ≡ one_weight op w }
{
    match op {
        OneOp::Zext => 1,
        OneOp::Sext => 2,
        OneOp::Trunc => 1,
        OneOp::Lshr => 8 * w as u64,
        OneOp::Ashr => 8 * w as u64 + 1,
    }
}

// Of an operation of width w on terms of width m.
fn weight_of_two(op: TwoOp, w: u32, m: u32) -> u64
    ensures { result ≡ two_weight op w m }
{
    match op {
        TwoOp::Eq => 8 * m as u64,
        TwoOp::Slt => 8 * m as u64,
        TwoOp::Ult => 8 * m as u64,
        _ => 8 * w as u64,
    }
}
