//! Rewritten units, numbered.

ghost use Rattle.std.specs.Prelude.{◌≡◌, IfOk, filter, length, not};
ghost use Rattle.vg_rewrite.specs.Narrowed.{narrowed_units};
ghost use Rattle.vg_rewrite.specs.Repeated.{repeated_units};
ghost use Rattle.vg_rewrite.specs.Rewritten.{IsRenumbered, IsSoundIfSome, KeepsKernels, KeepsFitting, are_few, over};
ghost use Rattle.vg_rewrite.specs.Renumbering.{CanBeRenumbered};
ghost use Rattle.vg_shapes.specs.Sound.{IsSound, is_store};

use crate::narrow::narrowed_units;
use crate::repeat::{repeat_few, repeated_units};
use std::alloc::{AllocError, Global};
use vg_base::Items;
use vg_shapes::{Ssa, SsaParam, SsaUnit};
use vg_ssa::number_units;

const MOST_USES: usize = 8192;

fn is_store(unit: &SsaUnit) -> bool
    ensures { result ≡ is_store unit.now }
{
    match *unit {
        SsaUnit::Load { .. } => false,
        SsaUnit::Store { .. } => true,
        SsaUnit::Operation { .. } => false,
    }
}

// How many loads and operations there are.
fn count_uses(units: &[SsaUnit]) -> usize
    ensures { result ≡ length (filter (λ u. not (is_store u)) units.now) }
{
    units.iter().filter(|unit| !is_store(unit)).count()
}

// Whether there are at most 8,192.
fn are_few(units: &[SsaUnit]) -> bool
    ensures { result ≡ are_few units.now }
{
    count_uses(units) <= MOST_USES
}

/// The parameters of numbered values a second time. Fails for want of memory alone.
pub fn copy_params(alloc: Global, params: &[SsaParam]) -> Result<Vec<SsaParam>, AllocError>
    ensures { IfOk result (λ all. all.items ≡ params.now) }
{
    let mut all = Vec::new(alloc);
    let mut rest = params;
    'params: while let [param, behind @ ..] = rest {
        let name = param.name.copy(alloc)?;
        all.push(SsaParam {
            name,
            kind: param.kind,
        })?;
        rest = behind;
    }
    Ok(all)
}

// These units over the parameters of numbered values, with terms; none where they are too many.
fn renumbered(alloc: Global, ssa: &Ssa, units: Vec<SsaUnit>) -> Result<Option<Ssa>, AllocError>
    requires { CanBeRenumbered ssa.now units.items }
    ensures exact { IfOk result (IsRenumbered ssa.now units.items) }
    ensures sound { IfOk result IsSoundIfSome }
{
    if !are_few(&units) {
        return Ok(None);
    }
    let name = ssa.name.copy(alloc)?;
    let params = copy_params(alloc, ssa.params.as_slice())?;
    let new = number_units(alloc, name, Items::from_vec(params), Items::from_vec(units))?;
    Ok(Some(new))
}

// Units over the parameters of numbered values, without terms.
fn over(alloc: Global, ssa: &Ssa, units: Vec<SsaUnit>) -> Result<Ssa, AllocError>
    ensures { IfOk result (λ new. new ≡ over ssa.now units.items) }
{
    let name = ssa.name.copy(alloc)?;
    let params = copy_params(alloc, ssa.params.as_slice())?;
    Ok(Ssa {
        name,
        params: Items::from_vec(params),
        units: Items::from_vec(units),
        terms: Items::from_vec(Vec::new(alloc)),
        cuts: Items::from_vec(Vec::new(alloc)),
    })
}

/// The repeated units of numbered values as numbered values with terms and cut terms: each free use
/// of a load has a load of its own. None where they have more than 8,192 loads and operations. The
/// answer stands for each kernel for which the given values stand, in each layout that respects the
/// kernel's noalias. Fails for want of memory alone.
pub fn repeated(alloc: Global, ssa: &Ssa) -> Result<Option<Ssa>, AllocError>
    requires { IsSound ssa.now }
    ensures exact { IfOk result (IsRenumbered ssa.now (repeated_units ssa.now)) }
    ensures sound { IfOk result IsSoundIfSome }
    ensures stands_for_apart { IfOk result (KeepsKernels ssa.now) }
{
    let units = repeated_units(alloc, ssa)?;
    renumbered(alloc, ssa, units)
}

/// The narrowed units of numbered values as numbered values with terms and cut terms: each number in
/// the widths that are asked of it. None where they have more than 8,192 loads and operations. The
/// answer stands for each kernel for which the given values stand, in each layout, for memory of bytes
/// and arguments that fit their widths. Fails for want of memory alone.
pub fn narrowed(alloc: Global, ssa: &Ssa) -> Result<Option<Ssa>, AllocError>
    requires { IsSound ssa.now }
    ensures exact { IfOk result (IsRenumbered ssa.now (narrowed_units ssa.now)) }
    ensures sound { IfOk result IsSoundIfSome }
    ensures stands_for { IfOk result (KeepsFitting ssa.now) }
    ensures stands_for_apart { IfOk result (KeepsKernels ssa.now) }
{
    let units = narrowed_units(alloc, ssa)?;
    renumbered(alloc, ssa, units)
}

/// The narrowed units of numbered values, repeated, as numbered values with terms and cut terms,
/// however many the narrowed ones are. None where they have more than 8,192 loads and operations. The
/// answer stands for each kernel for which the given values stand, in each layout that respects the
/// kernel's noalias. Fails for want of memory alone.
pub fn narrowed_repeated(alloc: Global, ssa: &Ssa) -> Result<Option<Ssa>, AllocError>
    requires { IsSound ssa.now }
    ensures exact { IfOk result
        (IsRenumbered ssa.now (repeated_units (over ssa.now (narrowed_units ssa.now)))) }
    ensures sound { IfOk result IsSoundIfSome }
    ensures stands_for_apart { IfOk result (KeepsKernels ssa.now) }
{
    let narrow = narrowed_units(alloc, ssa)?;
    let between = over(alloc, ssa, narrow)?;
    let units = repeat_few(alloc, &between)?;
    renumbered(alloc, ssa, units)
}
