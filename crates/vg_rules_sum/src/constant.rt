//! Constants: terms over them, and those that are neutral or absorb.

ghost use Rattle.std.specs.Prelude.{◌≡◌};
ghost use Rattle.vg_rules_sum.specs.Constant.{absorbing, folded, is_absorbing, is_neutral, is_over_constants};
ghost use Rattle.vg_terms.specs.Chain.{neutral};
ghost use Rattle.vg_terms.specs.Term.{IsWidth, WellFormed, tree};

use std::alloc::Global;
use vg_base::Items;
use vg_base::number::greatest;
use vg_terms::{Env, Term, TwoOp, make_const};

/// Whether the term has children, all of them constants.
pub fn is_over_constants(t: &Term) -> bool
    ensures { result ≡ is_over_constants (tree t.now) }
{
    match t {
        Term::One { x, .. } => x.is_constant(),
        Term::Two { x, y, .. } => x.is_constant() && y.is_constant(),
        Term::Sel { c, x, y, .. } => c.is_constant() && x.is_constant() && y.is_constant(),
        _ => false,
    }
}

/// The constant that has the width of the term, and its value where no leaf has one. Takes no memory.
pub fn fold(alloc: Global, t: Term) -> Term
    requires { WellFormed (tree t) }
    ensures { tree result ≡ folded (tree t) }
{
    let env = Env {
        pairs: Items::from_vec(Vec::new(alloc)),
    };
    make_const(t.width(), t.value(&env))
}

/// Whether the number leaves every number of this width as it is, on its right under the operation.
pub fn is_neutral(op: TwoOp, width: u32, number: u128) -> bool
    requires { IsWidth width }
    ensures { result ≡ is_neutral op width number }
{
    op.makes_chains() && neutral(op, width) == number
}

/// Whether the number is the result beside every number of this width.
pub fn is_absorbing(op: TwoOp, width: u32, number: u128) -> bool
    requires { IsWidth width }
    ensures { result ≡ is_absorbing op width number }
{
    match absorbing(op, width) {
        Some(constant) => constant == number,
        None => false,
    }
}

fn neutral(op: TwoOp, width: u32) -> u128
    requires { IsWidth width }
    ensures { result ≡ neutral op width }
{
    match op {
        TwoOp::Mul => 1,
        TwoOp::And => greatest(width),
        TwoOp::Smin => greatest(width - 1),
        TwoOp::Smax => 1 << (width - 1),
        TwoOp::Umin => greatest(width),
        _ => 0,
    }
}

fn absorbing(op: TwoOp, width: u32) -> Option<u128>
    requires { IsWidth width }
    ensures { result ≡ absorbing op width }
{
    match op {
        TwoOp::Mul => Some(0),
        TwoOp::And => Some(0),
        TwoOp::Or => Some(greatest(width)),
        TwoOp::Smin => Some(1 << (width - 1)),
        TwoOp::Smax => Some(greatest(width - 1)),
        TwoOp::Umin => Some(0),
        TwoOp::Umax => Some(greatest(width)),
        _ => None,
    }
}
