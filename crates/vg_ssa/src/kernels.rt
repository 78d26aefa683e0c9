//! The units of a kernel.

ghost use Rattle.std.specs.Prelude.{◌≡◌, IfOk, filter, length, map};
ghost use Rattle.vg_kernel.specs.Tree.{tree_of};
ghost use Rattle.vg_kernel.specs.WellFormed.{IsWellFormed};
ghost use Rattle.vg_shapes.specs.Units.{is_integer};
ghost use Rattle.vg_ssa.specs.Numbering.{kind_of, param_of, units_of};
ghost use Rattle.vg_ssa.specs.OfUnits.{CanBeNumbered, without_terms};

use crate::values::Values;
use std::alloc::{AllocError, Global};
use vg_kernel::{KParam, KParamKind, Kernel};
use vg_shapes::SsaUnit;

/// The units of a kernel: its loads, operations and stores in the order in which they run, numbered
/// after its integer parameters. They can be numbered over its parameters. Fails for want of memory
/// alone.
pub fn kernel_units(alloc: Global, kernel: &Kernel) -> Result<Vec<SsaUnit>, AllocError>
    requires { IsWellFormed (tree_of kernel.now) }
    ensures exact { IfOk result (λ units. units.items ≡ units_of (tree_of kernel.now)) }
    ensures numbered { IfOk result (λ units. CanBeNumbered (without_terms
        (tree_of kernel.now).name (map param_of (tree_of kernel.now).params) units.items)) }
{
    let mut values = Values::new(alloc, count_integers(kernel.params.as_slice()));
    values.number_statements(kernel.statements.as_slice())?;
    let Values {
        first: _,
        units,
        names: _,
    } = values;
    Ok(units)
}

// How many of the parameters are integers.
fn count_integers(params: &[KParam]) -> usize
    ensures { result ≡ length (filter (λ p. is_integer (kind_of p.kind)) params.now) }
{
    params.iter().filter(|param| is_integer(param.kind)).count()
}

// Whether a parameter is an integer.
fn is_integer(kind: KParamKind) -> bool
    ensures { result ≡ is_integer (kind_of kind) }
{
    match kind {
        KParamKind::Pointer { .. } => false,
        KParamKind::Integer(_) => true,
    }
}
