//! The lanes that may compute values, by the roots of their terms.

ghost use Rattle.std.specs.Prelude.{◌≡◌, ◌++◌, IfOk, filter, map, not, true};
ghost use Rattle.std.specs.Option.{option_map};
ghost use Rattle.std.specs.Ordering.{is_lt};
ghost use Rattle.std.specs.Result.{OnOk};
ghost use Rattle.std.specs.Set.{sorted_merge};
ghost use Rattle.vg_match.specs.declared.root.Root.{Root};
ghost use Rattle.vg_match.specs.LaneList.{IsByRoot, all_lanes, has_root, lanes_from, lanes_like, lanes_near, place_cmp, root_cmp};
ghost use Rattle.vg_terms.specs.Term.{tree};

use crate::root::{Root, is_compound};
use std::alloc::{AllocError, Global};
use std::cmp::Ordering;
use vg_shapes::Description;
use vg_terms::Term;

/// A lane of a description, by number, and the root of its term.
#[derive(Clone, Copy)]
pub(crate) struct LaneAt {
    pub(crate) root: Root,
    pub(crate) description: u32,
    pub(crate) lane: u32,
}

impl LaneAt {
    /// An order of lanes: by description, then lane.
    fn compare(&self, other: &LaneAt) -> Ordering
        ensures { result ≡ place_cmp self.now other.now }
    {
        self.description
            .cmp(&other.description)
            .then(self.lane.cmp(&other.lane))
    }
}

/// The lanes of the descriptions that are no leaf and no constant, by description, then lane.
///
/// Fails for want of memory, or where there are more than `2 ^ 24` descriptions or lanes.
pub(crate) fn lanes_of(
    alloc: Global,
    descriptions: &[Description],
) -> Result<Vec<LaneAt>, AllocError>
    ensures { IfOk result
        (λ lanes. lanes.items ≡ all_lanes 0 (map (λ d. map tree d.lanes) descriptions.now)) }
{
    if descriptions.len() > crate::MOST_NODES {
        return Err(AllocError);
    }
    let mut all = Vec::new(alloc);
    for (number, description) in descriptions.iter().enumerate() {
        add_lanes(number as u32, description.lanes.as_slice(), &mut all)?;
    }
    Ok(all)
}

// Appends the lanes of a description that are no leaf and no constant.
fn add_lanes(description: u32, terms: &[Term], to: &mut Vec<LaneAt>) -> Result<(), AllocError>
    ensures { OnOk result
        (to.new.items ≡ to.old.items ++ lanes_from description 0 (map tree terms.now)) }
{
    if terms.len() > crate::MOST_NODES {
        return Err(AllocError);
    }
    for (lane, term) in terms.iter().enumerate() {
        if is_compound(term) {
            to.push(LaneAt {
                root: Root::of(term),
                description,
                lane: lane as u32,
            })?;
        }
    }
    Ok(())
}

/// Sorts lanes by their roots. Lanes of one root stay in their order.
pub(crate) fn sort_lanes(lanes: &mut Vec<LaneAt>) -> Result<(), AllocError>
    ensures sorted { OnOk result (IsByRoot lanes.new.items) }
    ensures groups { OnOk result
        ((r : Root) → filter (has_root r) lanes.new.items ≡ filter (has_root r) lanes.old.items) }
{
    lanes.sort_by(|a, b| a.root.compare(&b.root))?;
    Ok(())
}

/// The lanes of the root of a term, of lanes that are sorted by their roots; none where there is no
/// term. Takes no memory.
pub(crate) fn lanes_like<'a>(lanes: &'a [LaneAt], term: Option<&Term>) -> &'a [LaneAt]
    requires { IsByRoot lanes.now }
    ensures { result.now ≡ lanes_like lanes.now (option_map (λ t. tree t.now) term.entry) }
{
    match term {
        Some(t) => group(lanes, Root::of(t)),
        None => &lanes[..0],
    }
}

/// Lanes of two roots in one order: by description, then lane. A lane of both stands there once.
pub(crate) fn merge(
    alloc: Global,
    first: &[LaneAt],
    second: &[LaneAt],
) -> Result<Vec<LaneAt>, AllocError>
    ensures { IfOk result
        (λ lanes. lanes.items ≡ sorted_merge place_cmp true first.now second.now) }
{
    let mut all = Vec::new(alloc);
    let mut xs = first;
    let mut ys = second;
    'lanes: while let [x, behind_x @ ..] = xs {
        let [y, behind_y @ ..] = ys else {
            all.extend_from_slice(xs)?;
            return Ok(all);
        };
        match x.compare(y) {
            Ordering::Less => {
                all.push(*x)?;
                xs = behind_x;
            }
            Ordering::Equal => {
                all.push(*x)?;
                xs = behind_x;
                ys = behind_y;
            }
            Ordering::Greater => {
                all.push(*y)?;
                ys = behind_y;
            }
        }
    }
    all.extend_from_slice(ys)?;
    Ok(all)
}

// The lanes of a root, of lanes that are sorted by their roots. Takes no memory.
fn group(lanes: &[LaneAt], root: Root) -> &[LaneAt]
    requires { IsByRoot lanes.now }
    ensures { result.now ≡ filter (has_root root) lanes.now }
{
    up_to(from(lanes, root), root)
}

// The lanes of this root and of those after it.
fn from(lanes: &[LaneAt], root: Root) -> &[LaneAt]
    requires { IsByRoot lanes.now }
    ensures { result.now ≡ filter (λ x. not (is_lt (root_cmp x.root root))) lanes.now }
{
    let place = lanes.partition_point(|x| x.root.compare(&root).is_lt());
    &lanes[place..]
}

// The lanes of this root and of those before it.
fn up_to(lanes: &[LaneAt], root: Root) -> &[LaneAt]
    requires { IsByRoot lanes.now }
    ensures { result.now ≡ filter (λ x. not (is_lt (root_cmp root x.root))) lanes.now }
{
    let place = lanes.partition_point(|x| !root.compare(&x.root).is_lt());
    &lanes[..place]
}
