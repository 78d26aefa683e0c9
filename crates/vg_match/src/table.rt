//! The table of all matches.

ghost use Rattle.std.specs.Prelude.{◌≡◌, ◌≤◌, [], ◌∷◌, ◌++◌, IfOk};
ghost use Rattle.std.specs.List.{filter_map};
ghost use Rattle.std.specs.Option.{option_map};
ghost use Rattle.std.specs.Result.{OnOk};
ghost use Rattle.vg_match.specs.LaneList.{IsByRoot};
ghost use Rattle.vg_match.specs.Table.{count_of, lane_term, lane_trees, match_of, matches_of, value_matches};
ghost use Rattle.vg_match.specs.Values.{AreSearched, of_kernel, terms_by};
ghost use Rattle.vg_terms.specs.Term.{tree};

use crate::lane_list::{LaneAt, lanes_like, lanes_of, merge, sort_lanes};
use crate::names::names_of;
use crate::values::Values;
use std::alloc::{AllocError, Global};
use vg_base::Items;
use vg_shapes::{Description, Match, Ssa};
use vg_terms::Term;

/// Matches that have been found, in order.
#[derive(Drop)]
struct Found {
    matches: Vec<Match>,
    /// How many matches and bound leaves there are.
    nodes: usize,
}

impl Found {
    // One match more. Fails for want of memory, or where there are more than `2 ^ 24` matches and
    // bound leaves.
    fn push(&mut self, found: Match) -> Result<(), AllocError>
        ensures { OnOk result (self.new.matches.items ≡ self.old.matches.items ++ found ∷ []) }
    {
        let leaves = found.bound.as_slice().len();
        let nodes = self.nodes.saturating_add(leaves).saturating_add(1);
        if nodes > crate::MOST_NODES {
            return Err(AllocError);
        }
        self.nodes = nodes;
        self.matches.push(found)?;
        Ok(())
    }
}

// The term of a lane.
fn lane_term<'a>(descriptions: &'a [Description], place: &LaneAt) -> Option<&'a Term>
    ensures { option_map (λ t. tree t.now) result
        ≡ lane_term (lane_trees descriptions.now) place.now }
{
    match descriptions.get(place.description as usize) {
        Some(description) => description.lanes.as_slice().get(place.lane as usize),
        None => None,
    }
}

// The match of a lane with a value, if they fit.
fn match_lane(
    alloc: Global,
    descriptions: &[Description],
    values: &Values<'_>,
    value: u32,
    place: &LaneAt,
) -> Result<Option<Match>, AllocError>
    requires { AreSearched values.now }
    ensures { IfOk result
        (λ found. found
        ≡ match_of (lane_trees descriptions.now) (terms_by values.now) value place.now) }
{
    match lane_term(descriptions, place) {
        Some(lane) => match values.fit(alloc, value, lane)? {
            Some(bound) => {
                let bound = Vec::from_slice(alloc, bound.as_slice())?;
                Ok(Some(Match {
                    description: place.description,
                    lane: place.lane,
                    value,
                    bound: Items::from_vec(bound),
                }))
            }
            None => Ok(None),
        },
        None => Ok(None),
    }
}

// Appends the matches of a value with lanes.
fn add_matches(
    alloc: Global,
    descriptions: &[Description],
    values: &Values<'_>,
    value: u32,
    lanes: &[LaneAt],
    to: &mut Found,
) -> Result<(), AllocError>
    requires { AreSearched values.now }
    ensures { OnOk result
        (to.new.matches.items ≡ to.old.matches.items
        ++ filter_map (match_of (lane_trees descriptions.now) (terms_by values.now) value)
        lanes.now) }
{
    for place in lanes {
        if let Some(found) = match_lane(alloc, descriptions, values, value, place)? {
            to.push(found)?;
        }
    }
    Ok(())
}

// Appends the matches of a value with lanes that are sorted by their roots. Those are tried that have
// the root of its term or of its cut term.
fn add_value(
    alloc: Global,
    descriptions: &[Description],
    values: &Values<'_>,
    value: u32,
    lanes: &[LaneAt],
    to: &mut Found,
) -> Result<(), AllocError>
    requires searched { AreSearched values.now }
    requires sorted { IsByRoot lanes.now }
    ensures { OnOk result
        (to.new.matches.items ≡ to.old.matches.items
        ++ value_matches (lane_trees descriptions.now) (terms_by values.now) lanes.now value) }
{
    let whole = lanes_like(lanes, values.term(value));
    let cut = lanes_like(lanes, values.cut(value));
    if cut.is_empty() {
        return add_matches(alloc, descriptions, values, value, whole, to);
    }
    let near = merge(alloc, whole, cut)?;
    add_matches(alloc, descriptions, values, value, near.as_slice(), to)
}

// The matches of all lanes with values.
fn matches_with(
    alloc: Global,
    descriptions: &[Description],
    values: &Values<'_>,
) -> Result<Vec<Match>, AllocError>
    requires searched { AreSearched values.now }
    requires few { count_of (terms_by values.now) ≤ 16777216 }
    ensures { IfOk result
        (λ matches. matches.items
        ≡ matches_of (lane_trees descriptions.now) (terms_by values.now)) }
{
    let mut lanes = lanes_of(alloc, descriptions)?;
    sort_lanes(&mut lanes)?;
    let mut found = Found {
        matches: Vec::new(alloc),
        nodes: 0,
    };
    for value in 0..values.count() {
        add_value(
            alloc,
            descriptions,
            values,
            value as u32,
            lanes.as_slice(),
            &mut found,
        )?;
    }
    let Found { matches, nodes: _ } = found;
    Ok(matches)
}

/// The matches of all lanes with all values of a kernel, by value, then description, then lane. A lane
/// is tried with the values of its root alone.
///
/// Fails for want of memory, or past the bounds of `build`.
pub(crate) fn all_matches(
    alloc: Global,
    descriptions: &[Description],
    ssa: &Ssa,
) -> Result<Vec<Match>, AllocError>
    ensures { IfOk result
        (λ matches. matches.items ≡ matches_of (lane_trees descriptions.now) (of_kernel ssa.now)) }
{
    let cuts = ssa.cuts.as_slice();
    if cuts.len() > crate::MOST_NODES {
        return Err(AllocError);
    }
    let names = names_of(alloc, ssa)?;
    let values = Values::new(alloc, ssa.terms.as_slice(), cuts, names.as_slice())?;
    matches_with(alloc, descriptions, &values)
}
