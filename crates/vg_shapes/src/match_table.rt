//! Which lanes of instructions compute which values.

ghost use Rattle.std.specs.Prelude.{◌≡◌, ◌≤◌, ◌&&◌, nat_eq, nat_le, filter, length, true, false};
ghost use Rattle.std.specs.List.Sorted.{IsPartitionPoint};
ghost use Rattle.std.specs.Option.{option_copied};
ghost use Rattle.vg_shapes.specs.MatchTable.{IsTable, stands_before};
ghost use Rattle.vg_shapes.specs.Pack.{match_at};

use crate::wanted::Wanted;
use std::marker::Model;
use vg_base::Items;
use vg_terms::LeafKey;

/// A leaf of a lane and the value or the constant that it stands for.
#[derive(Clone, Copy)]
pub struct Bound {
    pub key: LeafKey,
    /// The width of the leaf in bits.
    pub width: u32,
    pub wanted: Wanted,
}

/// A lane of a description that computes a value.
#[derive(Drop)]
pub struct Match {
    /// The number of the description.
    pub description: u32,
    pub lane: u32,
    pub value: u32,
    /// What each leaf of the lane is bound to.
    pub bound: Items<Bound>,
}

/// Matches by value, then description, then lane, no two with the same three. Contracts see it as
/// their list.
#[derive(Drop)]
pub struct MatchTable {
    matches: Vec<Match>,
}

impl Model for MatchTable {
    ghost use Rattle.std.specs.Prelude.{List};
    ghost use Rattle.vg_shapes.specs.declared.match_table.Match.{Match as Matched};
    ghost use Rattle.vg_shapes.specs.MatchTable.{IsTable as IsOrdered};

    ghost Value = { List Matched };

    ghost view = { λ s. s.matches.items };

    ghost invariant = { λ s. IsOrdered s.matches.items };
}

impl Match {
    /// Whether it stands in a table before a lane of a description and a value.
    fn stands_before(&self, description: u32, lane: u32, value: u32) -> bool
        ensures { result ≡ stands_before description lane value self.now }
    {
        self.value < value
            || (self.value == value
                && (self.description < description
                    || (self.description == description && self.lane < lane)))
    }

    /// Whether it is of this lane of a description and this value.
    fn is_of(&self, description: u32, lane: u32, value: u32) -> bool
        ensures { result ≡ (nat_eq self.now.description description && (nat_eq self.now.lane lane &&
            nat_eq self.now.value value)) }
    {
        self.description == description && (self.lane == lane && self.value == value)
    }
}

impl MatchTable {
    /// The table of matches that stand in order. Takes no memory.
    pub fn from_vec(matches: Vec<Match>) -> MatchTable
        requires { IsTable matches.items }
        ensures { result ≡ matches.items }
    {
        MatchTable { matches }
    }

    /// All matches.
    pub fn as_slice(&self) -> &[Match]
        ensures value { result.now ≡ self.now }
        ensures order { IsTable self.now }
    {
        self.matches.as_slice()
    }

    /// The match of a lane of a description with a value. Takes as many looks as the number of
    /// matches has binary digits, and no memory.
    pub fn get(&self, description: u32, lane: u32, value: u32) -> Option<&Match>
        ensures { option_copied result ≡ match_at self.now description lane value }
    {
        match_of(self.as_slice(), description, lane, value)
    }

    /// All matches of a value, by description, then lane. Takes no memory.
    pub fn at(&self, value: u32) -> &[Match]
        ensures { result.now ≡ filter (λ m. nat_eq m.value value) self.now }
    {
        not_above(not_below(self.as_slice(), value), value)
    }
}

// How many matches stand before a lane of a description and a value.
fn place_of(matches: &[Match], description: u32, lane: u32, value: u32) -> usize
    requires { IsTable matches.now }
    ensures inside { result ≤ length matches.now }
    ensures splits { IsPartitionPoint (λ m. stands_before description lane value m ≡ true) (λ m.
        stands_before description lane value m ≡ false) matches.now result }
{
    matches.partition_point(|m| m.stands_before(description, lane, value))
}

// The match of a lane of a description with a value.
fn match_of(matches: &[Match], description: u32, lane: u32, value: u32) -> Option<&Match>
    requires { IsTable matches.now }
    ensures { option_copied result ≡ match_at matches.now description lane value }
{
    let place = place_of(matches, description, lane, value);
    match matches.get(place) {
        Some(found) => {
            if found.is_of(description, lane, value) {
                Some(found)
            } else {
                None
            }
        }
        None => None,
    }
}

// The matches of this value and of greater ones.
fn not_below(matches: &[Match], value: u32) -> &[Match]
    requires { IsTable matches.now }
    ensures { result.now ≡ filter (λ m. nat_le value m.value) matches.now }
{
    let place = matches.partition_point(|m| m.value < value);
    &matches[place..]
}

// The matches of this value and of smaller ones.
fn not_above(matches: &[Match], value: u32) -> &[Match]
    requires { IsTable matches.now }
    ensures { result.now ≡ filter (λ m. nat_le m.value value) matches.now }
{
    let place = matches.partition_point(|m| m.value <= value);
    &matches[..place]
}
