//! Units with loads more, as numbered values.

ghost use Rattle.std.specs.Prelude.{◌≡◌, ◌+◌, ◌++◌, filter, length, not, nat_le, IfOk};
ghost use Rattle.vg_rewrite.specs.Rewritten.{are_few, over};
ghost use Rattle.vg_shapes.specs.Sound.{IsSound, is_store};
ghost use Rattle.vg_ssa.specs.OfUnits.{AreNumbered, CanBeNumbered};

use std::alloc::{AllocError, Global};
use vg_base::Items;
use vg_rewrite::copy_params;
use vg_shapes::{Ssa, SsaUnit};
use vg_ssa::number_units;

const MOST_USES: usize = 8192;

fn is_store(unit: &SsaUnit) -> bool
    ensures { result ≡ is_store unit.now }
{
    match *unit {
        SsaUnit::Load { .. } => false,
        SsaUnit::Store { .. } => true,
        SsaUnit::Operation { .. } => false,
    }
}

fn count_uses(units: &[SsaUnit]) -> usize
    ensures { result ≡ length (filter (λ u. not (is_store u)) units.now) }
{
    units.iter().filter(|unit| !is_store(unit)).count()
}

/// Both lists of units, one behind the other.
pub(crate) fn both(
    alloc: Global,
    units: &[SsaUnit],
    added: &[SsaUnit],
) -> Result<Vec<SsaUnit>, AllocError>
    ensures { IfOk result (λ all. all.items ≡ units.now ++ added.now) }
{
    let mut all = Vec::from_slice(alloc, units)?;
    all.extend_from_slice(added)?;
    Ok(all)
}

/// Whether there are at most 8,192 loads and operations.
pub(crate) fn are_few(units: &[SsaUnit]) -> bool
    ensures { result ≡ are_few units.now }
{
    count_uses(units) <= MOST_USES
}

/// Units over the parameters of numbered values, with terms. Fails for want of memory alone.
pub(crate) fn numbered(alloc: Global, ssa: &Ssa, units: Vec<SsaUnit>) -> Result<Ssa, AllocError>
    requires { CanBeNumbered (over ssa.now units.items) }
    ensures exact { IfOk result (AreNumbered ssa.now.name ssa.now.params units.items) }
    ensures sound { IfOk result IsSound }
{
    let name = ssa.name.copy(alloc)?;
    let params = copy_params(alloc, ssa.params.as_slice())?;
    number_units(alloc, name, Items::from_vec(params), Items::from_vec(units))
}
