//! Numbered values without cut terms.

ghost use Rattle.std.specs.Prelude.{◌≡◌, IfOk, map};
ghost use Rattle.vg_compile.specs.Listed.{AreUncut};
ghost use Rattle.vg_shapes.specs.Sound.{IsSound};
ghost use Rattle.vg_terms.specs.Term.{tree};

use std::alloc::{AllocError, Global};
use vg_base::Items;
use vg_rewrite::copy_params;
use vg_shapes::Ssa;
use vg_terms::Term;

// The terms a second time.
fn copy_terms(alloc: Global, terms: &[Term]) -> Result<Vec<Term>, AllocError>
    ensures { IfOk result (λ all. map tree all.items ≡ map tree terms.now) }
{
    let mut all = Vec::new(alloc);
    let mut rest = terms;
    'terms: while let [term, behind @ ..] = rest {
        let copy = term.copy(alloc)?;
        all.push(copy)?;
        rest = behind;
    }
    Ok(all)
}

/// The same numbered values without cut terms. Fails for want of memory alone.
pub(crate) fn uncut(alloc: Global, ssa: &Ssa) -> Result<Ssa, AllocError>
    requires { IsSound ssa.now }
    ensures uncut { IfOk result (AreUncut ssa.now) }
    ensures sound { IfOk result IsSound }
{
    let name = ssa.name.copy(alloc)?;
    let params = copy_params(alloc, ssa.params.as_slice())?;
    let units = ssa.units.as_slice().to_vec(alloc)?;
    let terms = copy_terms(alloc, ssa.terms.as_slice())?;
    Ok(Ssa {
        name,
        params: Items::from_vec(params),
        units: Items::from_vec(units),
        terms: Items::from_vec(terms),
        cuts: Items::from_vec(Vec::new(alloc)),
    })
}
