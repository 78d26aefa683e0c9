//! The lanes of the instances of accepted entries.

ghost use Rattle.std.specs.Prelude.{◌≡◌, ◌+◌, ◌*◌, ◌≤◌, ◌↔◌, false, IfOk, IsTrue, length, map};
ghost use Rattle.vg_names.specs.Written.{IsWritten};
ghost use Rattle.vg_pool.specs.Pool.{Keeps, StandsFor, tree_at};
ghost use Rattle.vg_range.specs.Checks.{header_in, operation_in};
ghost use Rattle.vg_shapes.specs.Lane.{lane_of};
ghost use Rattle.vg_lift.specs.Instances.{HasInstance, HasLanes, InResult, IsLaneOf, MeanLanes, MeansLane, instance_lane, instance_lanes, instance_term, is_dynamic};
ghost use Rattle.vg_lift.specs.Lifts.{Lifts};

use crate::lifted::{Lifted, lift_instance};
use crate::listed::{all_dynamic, all_lanes};
use std::alloc::{AllocError, Global};
use vg_pool::Pool;
use vg_pseudo::{Header, Param};
use vg_range::Checked;
use vg_range::unrolling::immediate_of;
use vg_shapes::Lane;

/// The greatest number of nodes of the script of an instance.
const MAX_NODES: u64 = 16_777_216;

/// How many parameters there are, or want of memory where they are more than a leaf can name.
fn count_of(params: &[Param]) -> Result<u32, AllocError>
    ensures { IfOk result (λ n. n ≡ length params.now) }
{
    if params.len() > u32::MAX as usize {
        Err(AllocError)
    } else {
        Ok(params.len() as u32)
    }
}

/// Whether lanes of 1 to 128 bits fill the result of an entry, as they do in each entry of a file.
pub fn has_lanes(header: &Header) -> bool
    ensures { IsTrue result ↔ HasLanes header.now }
{
    let width = header.lane_width;
    if width == 0 || width > 128 {
        return false;
    }
    header.register % width == 0
}

/// Runs the instance of an accepted entry for a number of its range once, for any number where it
/// has no immediate. All its lanes are gathered of what this answers; None where a slice or a shift
/// of the instance depends on data.
///
/// Fails for want of memory, also past 2^24 expressions that are kept while the script is written
/// out, 2^24 nodes of the script or of the pool, or 2^21 bits of all registers of a body.
pub fn lift_entry(
    pool: &mut Pool,
    alloc: Global,
    checked: &Checked,
    imm: u8,
) -> Result<Option<Lifted>, AllocError>
    requires written { IsWritten (header_in checked.now) (operation_in checked.now) }
    requires range { HasInstance (header_in checked.now) imm }
    ensures lifts { Lifts pool.new (header_in checked.now) (operation_in checked.now) imm result }
    ensures keeps { Keeps pool.old pool.new }
{
    let parameters = count_of(checked.header().params.as_slice())?;
    let at = immediate_of(&checked.header().imm, imm);
    match checked.unroll(alloc, at)? {
        None => unreachable!(),
        Some(whole) => {
            if whole.is_dynamic {
                return Ok(None);
            }
            if whole.nodes > MAX_NODES {
                return Err(AllocError);
            }
            let lifted = lift_instance(pool, alloc, &whole, parameters, imm)?;
            Ok(Some(lifted))
        }
    }
}

/// The node of the term of a lane, of whatever size, of an instance of which no slice and no shift
/// depends on data. Old nodes keep their terms. Who asks for more than one lane of an instance calls
/// [`lift_entry`] once. Fails for want of memory, also at the bounds of [`lift_entry`].
pub fn lane_node(
    alloc: Global,
    pool: &mut Pool,
    checked: &Checked,
    imm: u8,
    lane: u32,
) -> Result<usize, AllocError>
    requires written { IsWritten (header_in checked.now) (operation_in checked.now) }
    requires range { HasInstance (header_in checked.now) imm }
    requires is_static { is_dynamic (header_in checked.now) (operation_in checked.now) imm ≡ false }
    requires lane { InResult (header_in checked.now) lane }
    ensures node { IfOk result (λ n. StandsFor pool.new n
        (instance_term (header_in checked.now) (operation_in checked.now) imm lane)) }
    ensures means { IfOk result (λ n.
        IsLaneOf (header_in checked.now) (operation_in checked.now) imm lane (tree_at pool.new n)) }
    ensures keeps { Keeps pool.old pool.new }
{
    match lift_entry(pool, alloc, checked, imm)? {
        None => unreachable!(),
        Some(lifted) => lifted.lane(pool, checked.header().lane_width, lane),
    }
}

/// What an instance computes in a lane: its term; `Big` exactly where that has more than 1,024
/// nodes; `Dynamic` exactly where a slice or a shift of the instance depends on data. Fails for want
/// of memory, also at the bounds of [`lift_entry`], over a pool of its own.
pub fn lane_term(alloc: Global, checked: &Checked, imm: u8, lane: u32) -> Result<Lane, AllocError>
    requires written { IsWritten (header_in checked.now) (operation_in checked.now) }
    requires range { HasInstance (header_in checked.now) imm }
    requires lane { InResult (header_in checked.now) lane }
    ensures is { IfOk result (λ l.
        lane_of l ≡ instance_lane (header_in checked.now) (operation_in checked.now) imm lane) }
    ensures means { IfOk result (λ l.
        MeansLane (header_in checked.now) (operation_in checked.now) imm lane (lane_of l)) }
{
    let mut pool = Pool::new(alloc);
    match lift_entry(&mut pool, alloc, checked, imm)? {
        None => Ok(Lane::Dynamic),
        Some(lifted) => lifted.term(&mut pool, alloc, checked.header().lane_width, lane),
    }
}

/// All lanes of an instance by one run, lane 0 first. Old nodes of the pool keep their terms, and
/// instances that are lifted over one pool share theirs, and its 2^24 nodes. Fails for want of
/// memory, also at the bounds of [`lift_entry`].
pub fn lanes_of(
    pool: &mut Pool,
    alloc: Global,
    checked: &Checked,
    imm: u8,
) -> Result<Vec<Lane>, AllocError>
    requires written { IsWritten (header_in checked.now) (operation_in checked.now) }
    requires range { HasInstance (header_in checked.now) imm }
    requires lanes { HasLanes (header_in checked.now) }
    ensures is { IfOk result (λ ls. map lane_of ls.items ≡
        instance_lanes (header_in checked.now) (operation_in checked.now) imm) }
    ensures means { IfOk result (λ ls.
        MeanLanes (header_in checked.now) (operation_in checked.now) imm 0 (map lane_of ls.items)) }
    ensures fill { IfOk result (λ ls.
        length ls.items * (header_in checked.now).lane_width ≡ (header_in checked.now).register) }
    ensures keeps { Keeps pool.old pool.new }
{
    let header = checked.header();
    let width = header.lane_width;
    let count = header.register / width;
    match lift_entry(pool, alloc, checked, imm)? {
        None => all_dynamic(alloc, count),
        Some(lifted) => all_lanes(pool, alloc, &lifted, width, count),
    }
}
