//! Whether two terms have the same sum.

ghost use Rattle.std.specs.Prelude.{◌≡◌, true, IfOk};
ghost use Rattle.vg_terms.specs.declared.value.Env.{Env};
ghost use Rattle.vg_terms.specs.Term.{IsWidth, WellFormed, tree, width_of};
ghost use Rattle.vg_terms.specs.Value.{value};
ghost use Rattle.vg_sums.specs.Gives.{Gives};
ghost use Rattle.vg_sums.specs.Same.{difference, have_same_sum, is_vanishing, vanishes};
ghost use Rattle.vg_sums.specs.Sums.{polynomial};

use crate::arithmetic::subtract;
use crate::lost::Lost;
use crate::sum::Sum;
use crate::terms::sum_of;
use std::alloc::{AllocError, Global};
use vg_base::number::unsigned;
use vg_terms::Term;

// Whether each coefficient is 0 modulo a power of two.
fn vanishes(width: u32, p: &Sum) -> bool
    requires { IsWidth width }
    ensures { result ≡ vanishes width (polynomial p.now) }
{
    match p {
        Sum::Number(z) => unsigned(*z, width) == 0,
        Sum::Plus { factor, rest, .. } => vanishes(width, factor) && vanishes(width, rest),
    }
}

fn difference(alloc: Global, left: &Term, right: &Term) -> Result<Sum, Lost>
    requires left { WellFormed (tree left.now) }
    requires right { WellFormed (tree right.now) }
    ensures { Gives result (difference (tree left.now) (tree right.now)) }
{
    let p = sum_of(alloc, left)?;
    let q = sum_of(alloc, right)?;
    subtract(alloc, &p, &q)
}

fn is_same(alloc: Global, left: &Term, right: &Term) -> Result<bool, AllocError>
    requires left { WellFormed (tree left.now) }
    requires right { WellFormed (tree right.now) }
    ensures { IfOk result (λ same. same ≡ have_same_sum (tree left.now) (tree right.now)) }
{
    let width = left.width();
    if width != right.width() {
        return Ok(false);
    }
    match difference(alloc, left, right) {
        Ok(sum) => Ok(vanishes(width, &sum)),
        Err(Lost::Past) => Ok(false),
        Err(Lost::Memory(error)) => Err(error),
    }
}

/// Whether two terms have one width and the same sum: then they have equal values in every environment. Terms
/// whose sums pass a bound do not have the same. Fails for want of memory alone.
#[tactic(auto, using(crate::proofs::Equal::same_means))]
pub fn have_same_sum(alloc: Global, left: &Term, right: &Term) -> Result<bool, AllocError>
    requires left { WellFormed (tree left.now) }
    requires right { WellFormed (tree right.now) }
    ensures is { IfOk result (λ same. same ≡ have_same_sum (tree left.now) (tree right.now)) }
    ensures equal { IfOk result
        (λ same. same ≡ true → (env : Env) → value env (tree left.now) ≡ value env (tree right.now)) }
{
    let same = is_same(alloc, left, right)?;
    Ok(same)
}
