//! Lists of dependences.

ghost use Rattle.std.specs.Prelude.{◌≡◌, nat_eq, slice_index_or, []};
ghost use Rattle.std.specs.List.{list_any};
ghost use Rattle.vg_shapes.specs.DepList.{is_listed, pairs_from, row_of};

use std::marker::Model;
use vg_base::Items;

/// Which units depend on which. Contracts see it as a list of pairs: a unit, and a unit on which it
/// depends.
#[derive(Drop)]
pub struct DepList {
    // For each unit, by its number, those on which it depends.
    rows: Items<Items<u32>>,
}

impl Model for DepList {
    ghost use Rattle.std.specs.Prelude.{List, ℕ};
    ghost use Rattle.vg_shapes.specs.DepList.{pairs_from as pairs_behind};

    ghost Value = { List (ℕ × ℕ) };

    ghost view = { λ s. pairs_behind 0 s.rows };
}

impl DepList {
    /// The list that has for each unit, by its number, a row of those on which it depends. Takes no
    /// memory.
    pub fn from_rows(rows: Items<Items<u32>>) -> DepList
        ensures { result ≡ pairs_from 0 rows }
    {
        DepList { rows }
    }

    /// The units on which a unit depends. Takes no memory.
    pub fn row(&self, unit: u32) -> &[u32]
        ensures { result.now ≡ row_of self.now unit }
    {
        row_at(self.rows.as_slice(), unit)
    }

    /// Whether a unit depends on another. Takes one look at each unit on which it depends, and no
    /// memory.
    pub fn has(&self, later: u32, earlier: u32) -> bool
        ensures { result ≡ is_listed self.now later earlier }
    {
        is_member(self.row(later), earlier)
    }
}

// The row at an index, or none.
fn row_at(rows: &[Items<u32>], index: u32) -> &[u32]
    ensures { result.now ≡ slice_index_or rows.now index [] }
{
    match rows.get(index as usize) {
        Some(row) => row.as_slice(),
        None => &[],
    }
}

fn is_member(numbers: &[u32], number: u32) -> bool
    ensures { result ≡ list_any (nat_eq number) numbers.now }
{
    numbers.iter().any(|x| number == *x)
}
