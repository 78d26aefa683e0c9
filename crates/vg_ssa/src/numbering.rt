//! Kernels as numbered values.

ghost use Rattle.std.specs.Prelude.{◌≡◌, [], IfOk, map};
ghost use Rattle.vg_kernel.specs.Tree.{tree_of};
ghost use Rattle.vg_kernel.specs.WellFormed.{IsWellFormed};
ghost use Rattle.vg_shapes.specs.Sound.{IsSound};
ghost use Rattle.vg_ssa.specs.Cuts.{AreOverNames, HasCuts};
ghost use Rattle.vg_ssa.specs.Numbering.{IsNumbering, kind_of, param_of};
ghost use Rattle.vg_ssa.specs.StandsFor.{StandsFor};

use crate::kernels::kernel_units;
use crate::of_units::{number_units, without_cuts};
use std::alloc::{AllocError, Global};
use vg_base::Items;
use vg_kernel::{KParam, KParamKind, Kernel};
use vg_shapes::{Ssa, SsaParam, SsaParamKind};

/// A kernel as numbered values: its loads, operations and stores in the order in which they run,
/// and for each value its canonical term; where that would have more than 128 nodes, the operands
/// that are units stand in it as leaves. No value has a cut term.
///
/// The units leave the memory that the kernel leaves and trap where it traps, the accesses are the
/// same, and the layouts that respect noalias are the same. Fails for want of memory alone.
pub fn number_values(alloc: Global, kernel: &Kernel) -> Result<Ssa, AllocError>
    requires { IsWellFormed (tree_of kernel.now) }
    ensures exact { IfOk result (IsNumbering (tree_of kernel.now)) }
    ensures uncut { IfOk result (λ ssa. ssa.cuts ≡ []) }
    ensures sound { IfOk result IsSound }
    ensures stands_for { IfOk result (StandsFor (tree_of kernel.now)) }
{
    let name = kernel.name.copy(alloc)?;
    let params = ssa_params(alloc, kernel.params.as_slice())?;
    let units = kernel_units(alloc, kernel)?;
    without_cuts(alloc, name, Items::from_vec(params), Items::from_vec(units))
}

/// The same numbered values, and for each its cut term: that of an operation is its canonical form
/// over the names of its operands. An argument is named by its leaf, a value of more than one bit
/// by a leaf of its own, a bit by its cut term.
///
/// Name, parameters, units and terms are those that `number_values` gives, and what that promises
/// holds here too. Fails for want of memory alone.
pub fn number_more(alloc: Global, kernel: &Kernel) -> Result<Ssa, AllocError>
    requires { IsWellFormed (tree_of kernel.now) }
    ensures exact { IfOk result (IsNumbering (tree_of kernel.now)) }
    ensures cuts { IfOk result (HasCuts (tree_of kernel.now)) }
    ensures over_names { IfOk result AreOverNames }
    ensures sound { IfOk result IsSound }
    ensures stands_for { IfOk result (StandsFor (tree_of kernel.now)) }
{
    let name = kernel.name.copy(alloc)?;
    let params = ssa_params(alloc, kernel.params.as_slice())?;
    let units = kernel_units(alloc, kernel)?;
    number_units(alloc, name, Items::from_vec(params), Items::from_vec(units))
}

// The parameters, in their order.
fn ssa_params(alloc: Global, params: &[KParam]) -> Result<Vec<SsaParam>, AllocError>
    ensures { IfOk result (λ all. all.items ≡ map param_of params.now) }
{
    let mut all = Vec::new(alloc);
    let mut rest = params;
    'params: while let [param, behind @ ..] = rest {
        let one = ssa_param(alloc, param)?;
        all.push(one)?;
        rest = behind;
    }
    Ok(all)
}

fn ssa_param(alloc: Global, param: &KParam) -> Result<SsaParam, AllocError>
    ensures { IfOk result (λ p. p ≡ param_of param.now) }
{
    let name = param.name.copy(alloc)?;
    Ok(SsaParam {
        name,
        kind: ssa_kind(param.kind),
    })
}

fn ssa_kind(kind: KParamKind) -> SsaParamKind
    ensures { result ≡ kind_of kind }
{
    match kind {
        KParamKind::Pointer { noalias } => SsaParamKind::Pointer { noalias },
        KParamKind::Integer(width) => SsaParamKind::Integer(width),
    }
}
