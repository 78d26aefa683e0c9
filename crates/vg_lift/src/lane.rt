//! The lanes of terms.

ghost use Rattle.std.specs.Prelude.{◌≡◌, ◌<◌, IfOk, length};
ghost use Rattle.vg_pool.specs.Pool.{tree_at};
ghost use Rattle.vg_shapes.specs.Lane.{lane_of};
ghost use Rattle.vg_lift.specs.Lanes.{sized};

use std::alloc::{AllocError, Global};
use vg_pool::Pool;
use vg_shapes::Lane;

/// The greatest number of nodes of a lane's term.
const MAX_LANE: u32 = 1024;

/// The lane whose term is that of a node: `Big` exactly where that has more than 1,024 nodes. Fails
/// for want of memory alone.
#[tactic(auto, using(crate::proofs::Lining::is_big, crate::proofs::Lining::is_known))]
pub fn lane_at(pool: &Pool, alloc: Global, node: usize) -> Result<Lane, AllocError>
    requires { node < length pool.now }
    ensures { IfOk result (λ lane. lane_of lane ≡ sized (tree_at pool.now node)) }
{
    if pool.size(node) > MAX_LANE {
        Ok(Lane::Big)
    } else {
        let term = pool.tree_of(alloc, node)?;
        Ok(Lane::Tree(term))
    }
}
