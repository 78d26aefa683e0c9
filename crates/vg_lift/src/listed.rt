//! All lanes of an instance.

ghost use Rattle.std.specs.Prelude.{◌≡◌, ◌+◌, ◌*◌, ◌<◌, ◌≤◌, IfOk, length, map};
ghost use Rattle.vg_pool.specs.Pool.{Keeps};
ghost use Rattle.vg_shapes.specs.Lane.{dynamic, lane_of};
ghost use Rattle.vg_lift.specs.Lanes.{lanes_from, sized};
ghost use Rattle.vg_lift.specs.LaneTerm as terms;
ghost use Rattle.vg_lift.specs.Views.{BitsFit, bits_of};

use crate::lifted::Lifted;
use std::alloc::{AllocError, Global};
use vg_pool::Pool;
use vg_shapes::Lane;

/// So many lanes without terms.
#[tactic(auto, using(crate::proofs::Lining::next_lane, crate::proofs::Lining::no_lane))]
pub(crate) fn all_dynamic(alloc: Global, count: u32) -> Result<Vec<Lane>, AllocError>
    ensures is { IfOk result (λ ls. map lane_of ls.items ≡ lanes_from (λ k. dynamic) 0 count) }
{
    let mut all = Vec::new(alloc);
    'lanes: for _lane in 0..count {
        all.push(Lane::Dynamic)?;
    }
    Ok(all)
}

/// So many lanes of this width, the lowest first.
#[tactic(auto, using(crate::proofs::Lining::next_lane, crate::proofs::Lining::no_lane, crate::proofs::Lining::lane_inside, crate::proofs::Nodes::bits_kept, crate::proofs::Nodes::bits_fit, crate::proofs::Puts::kept_twice))]
pub(crate) fn all_lanes(
    pool: &mut Pool,
    alloc: Global,
    lifted: &Lifted,
    width: u32,
    count: u32,
) -> Result<Vec<Lane>, AllocError>
    requires fit { BitsFit pool.old lifted.now.bits }
    requires some { 0 < width }
    requires few { width ≤ 128 }
    requires inside { count * width ≤ length lifted.now.bits }
    ensures is { IfOk result (λ ls. map lane_of ls.items ≡ lanes_from (λ k. sized (terms.lane_of
        (bits_of pool.old lifted.now.bits) width k)) 0 count) }
    ensures keeps { Keeps pool.old pool.new }
{
    let mut all = Vec::new(alloc);
    'lanes: for lane in 0..count {
        let next = lifted.term(pool, alloc, width, lane)?;
        all.push(next)?;
    }
    Ok(all)
}
