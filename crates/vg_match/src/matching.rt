//! The table of the matches of descriptions with the values of a kernel.

ghost use Rattle.std.specs.Prelude.{IfOk, map};
ghost use Rattle.std.specs.List.{AllByRecursion};
ghost use Rattle.vg_shapes.specs.Bindings.{BindsInOrder};
ghost use Rattle.vg_shapes.specs.Description.{description_of};
ghost use Rattle.vg_shapes.specs.MatchTable.{IsTable};
ghost use Rattle.vg_shapes.specs.Matches.{AreMatches};

use crate::table::all_matches;
use std::alloc::{AllocError, Global};
use vg_shapes::{Description, MatchTable, Ssa};

/// The table of all lanes of descriptions and all values of a kernel that they fit, with what the
/// leaves of each lane are bound to, in the order in which they first occur in its term. A lane fits a
/// value whole, else cut, else turned; where the kernel has no cut terms, whole alone.
///
/// Fails for want of memory, or where there are more than `2 ^ 24` descriptions, lanes of a
/// description, or values, or more than `2 ^ 24` matches and bound leaves together.
pub fn build(
    alloc: Global,
    descriptions: &[Description],
    ssa: &Ssa,
) -> Result<MatchTable, AllocError>
    ensures matches { IfOk result
        (λ table. AreMatches (map description_of descriptions.now) ssa.now table) }
    ensures order { IfOk result (λ table. IsTable table) }
    ensures bindings { IfOk result
        (λ table. AllByRecursion (BindsInOrder (map description_of descriptions.now)) table) }
{
    let matches = all_matches(alloc, descriptions, ssa)?;
    Ok(MatchTable::from_vec(matches))
}
