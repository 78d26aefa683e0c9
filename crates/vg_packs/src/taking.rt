//! What packs take.

ghost use Rattle.std.specs.Prelude.{◌≡◌, IfOk, map, true};
ghost use Rattle.vg_kernel_plans.specs.Taken.{IsShort, MatchesNear, operands_of};
ghost use Rattle.vg_shapes.specs.Description.{description_of};

use std::alloc::{AllocError, Global};
use vg_kernel_plans::taken::operands_of;
use vg_shapes::{Description, MatchTable, Operand, Pack, Ssa};

/// The greatest number of lanes of a call.
const MOST: usize = 1 << 24;

/// Whether a pack has few enough lanes to tell its operands, as store groups and producers have.
fn is_short(pack: &Pack) -> bool
    ensures { result ≡ true → IsShort pack.now }
{
    match pack {
        Pack::Stores(units) => units.as_slice().len() <= 64,
        Pack::Loads(units) => units.as_slice().len() <= 64,
        Pack::Call { lanes, .. } => lanes.as_slice().len() <= MOST,
    }
}

/// The operands of a pack. Where it has more than 64 loads or stores, or more than some 2^24 lanes, there
/// is no memory.
pub(crate) fn taken_by(
    alloc: Global,
    descriptions: &[Description],
    table: &MatchTable,
    ssa: &Ssa,
    pack: &Pack,
) -> Result<Vec<Operand>, AllocError>
    requires near { MatchesNear table.now }
    ensures { IfOk result (λ operands. operands.items ≡ operands_of (map description_of
        descriptions.now) table.now ssa.now pack.now) }
{
    if !is_short(pack) {
        return Err(AllocError);
    }
    operands_of(alloc, descriptions, table, ssa, pack)
}
