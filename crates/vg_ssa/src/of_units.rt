//! Units over parameters as numbered values.

ghost use Rattle.std.specs.Prelude.{◌≡◌, [], IfOk};
ghost use Rattle.vg_shapes.specs.Sound.{IsSound};
ghost use Rattle.vg_ssa.specs.Cuts.{AreOverNames};
ghost use Rattle.vg_ssa.specs.OfUnits.{AreNumbered, CanBeNumbered, HaveCuts, without_terms};

use crate::value_terms::{Depth, terms_of_units};
use std::alloc::{AllocError, Global};
use vg_base::{Items, Name};
use vg_shapes::{Ssa, SsaParam, SsaUnit};

/// Units over parameters as numbered values, whatever kernel they are of: the integer parameters
/// have the first numbers, then the units in their order. Each value has its canonical term, cut
/// where it would have more than 128 nodes, and its cut term. The answer is sound. Fails for want of
/// memory alone.
pub fn number_units(
    alloc: Global,
    name: Name,
    params: Items<SsaParam>,
    units: Items<SsaUnit>,
) -> Result<Ssa, AllocError>
    requires { CanBeNumbered (without_terms name params units) }
    ensures exact { IfOk result (AreNumbered name params units) }
    ensures cuts { IfOk result (HaveCuts params units) }
    ensures over_names { IfOk result AreOverNames }
    ensures sound { IfOk result IsSound }
{
    let mut ssa = without_cuts(alloc, name, params, units)?;
    let cuts = terms_of_units(
        alloc,
        Depth::Cut,
        ssa.params.as_slice(),
        ssa.units.as_slice(),
    )?;
    ssa.cuts = Items::from_vec(cuts);
    Ok(ssa)
}

/// The same without cut terms.
pub(crate) fn without_cuts(
    alloc: Global,
    name: Name,
    params: Items<SsaParam>,
    units: Items<SsaUnit>,
) -> Result<Ssa, AllocError>
    requires { CanBeNumbered (without_terms name params units) }
    ensures exact { IfOk result (AreNumbered name params units) }
    ensures uncut { IfOk result (λ ssa. ssa.cuts ≡ []) }
    ensures sound { IfOk result IsSound }
{
    let terms = terms_of_units(alloc, Depth::Whole, params.as_slice(), units.as_slice())?;
    Ok(Ssa {
        name,
        params,
        units,
        terms: Items::from_vec(terms),
        cuts: Items::from_vec(Vec::new(alloc)),
    })
}
