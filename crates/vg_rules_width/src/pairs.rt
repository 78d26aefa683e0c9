//! Parts of pairs, and pairs with 0 above.
#![tactic(auto, unfolding(crate::specs::Rules::part_of_concatenation, crate::specs::Rules::zero_on_top))]

ghost use Rattle.std.specs.Prelude.{◌≡◌, IfOk, IsSome, Some, is_some};
ghost use Rattle.vg_rules_width.specs.Rules.{low_of_pair, part_of_concatenation, shifted_pair, zero_on_top};
ghost use Rattle.vg_terms.specs.Term.{tree};

use std::alloc::{AllocError, Global};
use vg_terms::{OneOp, Term, TwoOp, low_part, make_one, make_two};

/// Whether the term is a truncation of a pair, or a shift that leaves nothing of its lower part.
pub fn is_part_of_concatenation(t: &Term) -> bool
    ensures { result ≡ is_some (part_of_concatenation (tree t.now)) }
{
    match t {
        Term::One {
            op: OneOp::Trunc,
            x,
            ..
        } => x.opens(TwoOp::Cat),
        Term::One {
            op: OneOp::Lshr,
            amount,
            x,
            ..
        } => match &**x {
            Term::Two {
                op: TwoOp::Cat,
                y,
                ..
            } => y.width() <= *amount,
            _ => false,
        },
        _ => false,
    }
}

/// Low bits of a pair are low bits of its lower part, or all of that below low bits of the upper part;
/// a shift past the lower part moves the upper part alone.
#[tactic(auto, unfolding(crate::specs::Rules::part_of_concatenation), using(crate::proofs::Rows::part_of_concatenation_cut))]
pub fn part_of_concatenation(alloc: Global, t: Term) -> Result<Term, AllocError>
    requires { IsSome (part_of_concatenation (tree t)) }
    ensures { IfOk result (λ new. part_of_concatenation (tree t) ≡ Some (tree new)) }
{
    let is_cut = t.is_one(OneOp::Trunc);
    let (width, amount) = (t.width(), t.amount());
    let (high, low) = t.into_below().into_pair();
    if is_cut {
        low_of_pair(alloc, width, high, low)
    } else {
        shifted_pair(alloc, width, amount, high, low)
    }
}

fn low_of_pair(alloc: Global, width: u32, high: Term, low: Term) -> Result<Term, AllocError>
    ensures { IfOk result (λ term. tree term ≡ low_of_pair width (tree high) (tree low)) }
{
    let below = low.width();
    if width <= below {
        low_part(alloc, width, low)
    } else {
        let high = low_part(alloc, width - below, high)?;
        make_two(alloc, TwoOp::Cat, width, high, low)
    }
}

// What a shift past `low` leaves of `high` above it.
fn shifted_pair(
    alloc: Global,
    width: u32,
    amount: u32,
    high: Term,
    low: Term,
) -> Result<Term, AllocError>
    ensures { IfOk result (λ term. tree term ≡ shifted_pair width amount (tree high) (tree low)) }
{
    let rest = amount.saturating_sub(low.width());
    if rest == 0 {
        make_one(alloc, OneOp::Zext, width, 0, high)
    } else {
        let inner = high.width();
        let shift = make_one(alloc, OneOp::Lshr, inner, rest, high)?;
        make_one(alloc, OneOp::Zext, width, 0, shift)
    }
}

/// Whether the term is a pair with 0 above.
pub fn is_zero_on_top(t: &Term) -> bool
    ensures { result ≡ is_some (zero_on_top (tree t.now)) }
{
    match t {
        Term::Two {
            op: TwoOp::Cat,
            x,
            ..
        } => matches!(&**x, Term::Const { value: 0, .. }),
        _ => false,
    }
}

/// 0 above a term is its extension by zeros.
pub fn zero_on_top(alloc: Global, t: Term) -> Result<Term, AllocError>
    requires { IsSome (zero_on_top (tree t)) }
    ensures { IfOk result (λ new. zero_on_top (tree t) ≡ Some (tree new)) }
{
    let width = t.width();
    let (_, low) = t.into_pair();
    make_one(alloc, OneOp::Zext, width, 0, low)
}
