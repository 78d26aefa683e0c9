//! One step at the root of a term.

ghost use Rattle.std.specs.Prelude.{◌≡◌, IfOk};
ghost use Rattle.vg_canon.specs.Canonical.{HasCanonicalChildren};
ghost use Rattle.vg_canon.specs.Step.{Stepped, fills, is_at_rest};
ghost use Rattle.vg_terms.specs.Term.{WellFormed, tree};

use crate::walk::Walk;
use std::alloc::{AllocError, Global};
use vg_rules_choice::ChoiceRules;
use vg_rules_sum::SumRules;
use vg_rules_width::WidthRules;
use vg_terms::{Rule, Term, TwoOp};

/// What became of a term: what a rule made of it and how much of that has to be walked, or the term itself
/// where no rule applies.
#[derive(Drop)]
pub enum Step {
    Rewritten(Term, Walk),
    Finished(Term),
}

/// The first rule that applies at the root of the term, first those for sums, then those for widths, then
/// those for choices.
#[tactic(auto, unfolding(crate::specs::Canonical::first_rule))]
pub fn take_step(alloc: Global, t: Term) -> Result<Step, AllocError>
    requires well_formed { WellFormed (tree t) }
    requires children { HasCanonicalChildren (tree t) }
    ensures { IfOk result (λ s. Stepped (tree t) s) }
{
    if is_at_rest(&t) {
        return Ok(Step::Finished(t));
    }
    if SumRules.applies(&t) {
        let walk = Walk::of_sum(&t);
        Ok(Step::Rewritten(SumRules.apply(alloc, t)?, walk))
    } else if WidthRules.applies(&t) {
        Ok(Step::Rewritten(WidthRules.apply(alloc, t)?, Walk::Levels(3)))
    } else if ChoiceRules.applies(&t) {
        Ok(Step::Rewritten(ChoiceRules.apply(alloc, t)?, Walk::Levels(3)))
    } else {
        Ok(Step::Finished(t))
    }
}

/// Whether it is plain that no rule applies. The rules look at the whole of a chain, and so again for each
/// of its parts; here the last part alone tells, since the chain before it is canonical.
pub fn is_at_rest(t: &Term) -> bool
    requires { WellFormed (tree t.now) }
    ensures { result ≡ is_at_rest (tree t.now) }
{
    match t {
        Term::Two { op, width, x, y } => match &**x {
            Term::Two { op: own, y: b, .. } => {
                op.makes_chains()
                    && op.is(*own)
                    && !y.is_constant()
                    && !y.opens(*op)
                    && b.is_not_after(y)
                    && does_fill(*op, *width, y)
            }
            _ => false,
        },
        _ => false,
    }
}

// Whether the last term of an operation of this width leaves none of its bits known, or they do not count.
fn does_fill(op: TwoOp, width: u32, y: &Term) -> bool
    requires { WellFormed (tree y.now) }
    ensures { result ≡ fills op width (tree y.now) }
{
    match op {
        TwoOp::Add => true,
        TwoOp::And => true,
        TwoOp::Or => true,
        TwoOp::Xor => true,
        _ => {
            let (unsigned, signed) = y.known();
            width <= unsigned && width <= signed
        }
    }
}
