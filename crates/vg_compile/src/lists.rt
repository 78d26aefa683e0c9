//! The lists of units that are planned for a kernel with more plans.

ghost use Rattle.std.specs.Prelude.{◌≡◌, true, IfOk};
ghost use Rattle.vg_compile.specs.Listed.{AreLists, IsLeft, IsLeftBeside};
ghost use Rattle.vg_kernel.specs.Tree.{tree_of};
ghost use Rattle.vg_kernel.specs.WellFormed.{IsWellFormed};

use crate::same_units::same_units;
use std::alloc::{AllocError, Global};
use vg_kernel::Kernel;
use vg_rewrite::{narrowed, narrowed_repeated, repeated};
use vg_shapes::Ssa;
use vg_ssa::number_more;

/// The values of the lists of units of a kernel, each with its cut term. Of lists that have the same
/// units the first alone is here, and none that is too long.
#[derive(Drop)]
pub(crate) struct Lists {
    /// Of its own units.
    pub(crate) own: Ssa,
    /// Of those repeated.
    pub(crate) repeated: Option<Ssa>,
    /// Of those narrowed.
    pub(crate) narrowed: Option<Ssa>,
    /// Of the narrowed ones repeated.
    pub(crate) both: Option<Ssa>,
}

// Whether values have the units of others.
fn has_units(ssa: &Ssa, earlier: &Ssa) -> bool
    ensures { result ≡ true → ssa.now.units ≡ earlier.now.units }
{
    same_units(ssa.units.as_slice(), earlier.units.as_slice())
}

// Values, unless their units are those of others: what is planned for them would be the same.
fn unless_same(values: Option<Ssa>, earlier: &Ssa) -> Option<Ssa>
    ensures { IsLeft values earlier.now result }
{
    match values {
        None => None,
        Some(ssa) => {
            if has_units(&ssa, earlier) {
                None
            } else {
                Some(ssa)
            }
        }
    }
}

// The same where there are others.
fn unless_same_as(values: Option<Ssa>, earlier: &Option<Ssa>) -> Option<Ssa>
    ensures { IsLeftBeside values earlier.now result }
{
    match earlier {
        None => values,
        Some(ssa) => unless_same(values, ssa),
    }
}

/// The lists of units that are planned for a kernel with more plans. Fails for want of memory alone.
pub(crate) fn lists_of(alloc: Global, kernel: &Kernel) -> Result<Lists, AllocError>
    requires { IsWellFormed (tree_of kernel.now) }
    ensures { IfOk result (AreLists (tree_of kernel.now)) }
{
    let own = number_more(alloc, kernel)?;
    let all_repeated = repeated(alloc, &own)?;
    let repeated = unless_same(all_repeated, &own);
    let all_narrowed = narrowed(alloc, &own)?;
    let some_narrowed = unless_same(all_narrowed, &own);
    let narrowed = unless_same_as(some_narrowed, &repeated);
    let all_both = narrowed_repeated(alloc, &own)?;
    let some_both = unless_same(all_both, &own);
    let more_both = unless_same_as(some_both, &repeated);
    let both = unless_same_as(more_both, &narrowed);
    Ok(Lists {
        own,
        repeated,
        narrowed,
        both,
    })
}
