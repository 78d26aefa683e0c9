//! The first cause why packs cannot call an instance.

ghost use Rattle.std.specs.Prelude.{◌≡◌, IfOk, OnOk, map};
ghost use Rattle.std.specs.List.{list_any};
ghost use Rattle.vg_shapes.specs.Lane.{lane_of};
ghost use Rattle.vg_shapes.specs.Leaves.{clash, is_odd, same_leaf, some_clash};
ghost use Rattle.vg_lanes.specs.Described.{cause_of, cause_of_leaves, is_big, is_dynamic};
ghost use Rattle.vg_lanes.specs.Noted.{noted};

use crate::cause::Cause;
use crate::lane_leaves::lane_leaves;
use std::alloc::{AllocError, Global};
use vg_shapes::{Lane, Leaf};

fn is_dynamic(lane: &Lane) -> bool
    ensures { result ≡ is_dynamic (lane_of lane.now) }
{
    match lane {
        Lane::Dynamic => true,
        _ => false,
    }
}

fn is_big(lane: &Lane) -> bool
    ensures { result ≡ is_big (lane_of lane.now) }
{
    match lane {
        Lane::Big => true,
        _ => false,
    }
}

fn is_any_dynamic(lanes: &[Lane]) -> bool
    ensures { result ≡ list_any (λ l. is_dynamic (lane_of l)) lanes.now }
{
    lanes.iter().any(|lane| is_dynamic(lane))
}

fn is_any_big(lanes: &[Lane]) -> bool
    ensures { result ≡ list_any (λ l. is_big (lane_of l)) lanes.now }
{
    lanes.iter().any(|lane| is_big(lane))
}

fn is_any_odd(leaves: &[Leaf]) -> bool
    ensures { result ≡ list_any is_odd leaves.now }
{
    leaves.iter().any(|leaf| leaf.is_odd())
}

fn clashes_with_any(leaf: &Leaf, others: &[Leaf]) -> bool
    ensures { result ≡ list_any (clash leaf.now) others.now }
{
    others.iter().any(|other| leaf.clashes(other))
}

fn is_among(leaf: &Leaf, others: &[Leaf]) -> bool
    ensures { result ≡ list_any (same_leaf leaf.now) others.now }
{
    others.iter().any(|other| leaf.is_same(other))
}

/// Appends a leaf that is not among these.
fn note(kept: &mut Vec<Leaf>, leaf: &Leaf) -> Result<(), AllocError>
    ensures { OnOk result (kept.new.items ≡ noted kept.old.items leaf.now) }
{
    if is_among(leaf, kept.as_slice()) {
        return Ok(());
    }
    kept.push(*leaf)?;
    Ok(())
}

/// Whether two leaves clash. Each leaf is compared with the different ones before it, of which
/// there are at most 256 where the leaves lie at multiples of bytes and none clash.
fn is_some_clash(alloc: Global, leaves: &[Leaf]) -> Result<bool, AllocError>
    ensures { IfOk result (λ is. is ≡ some_clash leaves.now) }
{
    let mut kept: Vec<Leaf> = Vec::new(alloc);
    'leaves: for leaf in leaves {
        if clashes_with_any(leaf, kept.as_slice()) {
            return Ok(true);
        }
        note(&mut kept, leaf)?;
    }
    Ok(false)
}

/// The first cause that the leaves give.
fn cause_of_leaves(alloc: Global, leaves: &[Leaf]) -> Result<Option<Cause>, AllocError>
    ensures { IfOk result (λ cause. cause ≡ cause_of_leaves leaves.now) }
{
    if is_any_odd(leaves) {
        return Ok(Some(Cause::OddLeaf));
    }
    if is_some_clash(alloc, leaves)? {
        Ok(Some(Cause::MixedInput))
    } else {
        Ok(None)
    }
}

/// The first cause that holds of lanes whose terms are canonical.
#[tactic(auto, using(crate::proofs::Lanes::any_lane, crate::proofs::Lanes::leaves_of_lanes))]
pub(crate) fn first_cause(alloc: Global, lanes: &[Lane]) -> Result<Option<Cause>, AllocError>
    ensures { IfOk result (λ cause. cause ≡ cause_of (map lane_of lanes.now)) }
{
    if is_any_dynamic(lanes) {
        return Ok(Some(Cause::Dynamic));
    }
    if is_any_big(lanes) {
        return Ok(Some(Cause::TooLarge));
    }
    let leaves = lane_leaves(alloc, lanes)?;
    cause_of_leaves(alloc, leaves.as_slice())
}
