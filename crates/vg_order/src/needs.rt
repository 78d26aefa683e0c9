//! What nodes depend on.

ghost use Rattle.std.specs.Prelude.{◌≡◌, ◌<◌, ◌≤◌, ◌⊎◌, ℕ, [], length, slice_index, slice_index_or, false, true};
ghost use Rattle.std.specs.List.{concat};
ghost use Rattle.vg_order.specs.Needs.{flag_at, Looked, rows_of};

use vg_base::Items;
use vg_shapes::DepList;

/// On which units a node depends.
#[derive(Drop)]
pub(crate) enum Needs {
    /// On these.
    Those(Items<u32>),
    /// On those on which these depend.
    RowsOf(Items<u32>),
}

/// A place in the rows of units on which a node depends.
#[derive(Clone, Copy)]
pub(crate) struct Cursor {
    /// The index of the row.
    pub row: usize,
    /// The index in the row.
    pub index: usize,
}

/// What a look along these rows came to.
#[derive(Clone, Copy)]
pub(crate) struct Look {
    /// The place at which it stopped.
    pub cursor: Cursor,
    /// The unit there whose node is not placed, if any.
    pub open: Option<u32>,
}

/// A flag by its index, false past the end.
pub(crate) fn flag_at(flags: &[bool], index: u32) -> bool
    ensures { result ≡ flag_at flags.now index }
{
    flags.get(index as usize).copied().unwrap_or(false)
}

/// The node of a unit, by their numbers.
pub(crate) fn home_of(homes: &[u32], unit: u32) -> u32
    ensures { result ≡ slice_index homes.now unit }
{
    homes.get(unit as usize).copied().unwrap_or(0)
}

impl Needs {
    /// How many rows of units there are.
    fn row_count(&self, deps: &DepList) -> usize
        ensures { result ≡ length (rows_of deps.now self.now) }
    {
        match self {
            Needs::Those(_) => 1,
            Needs::RowsOf(units) => units.as_slice().len(),
        }
    }

    /// The row of units at an index.
    fn row_at<'a>(&'a self, deps: &'a DepList, index: usize) -> &'a [u32]
        requires { index < length (rows_of deps.now self.now) }
        ensures { result.now ≡ slice_index_or (rows_of deps.now self.now) index [] }
    {
        match self {
            Needs::Those(units) => units.as_slice(),
            Needs::RowsOf(units) => deps.row(units.as_slice()[index]),
        }
    }

    /// The first unit from a place on whose node is not placed.
    pub(crate) fn look(&self, deps: &DepList, homes: &[u32], placed: &[bool], from: Cursor) -> Look
        ensures { Looked homes.now placed.now (rows_of deps.now self.now) from result }
    {
        let count = self.row_count(deps);
        let mut index = from.index;
        'rows: for row in from.row..count {
            let units = self.row_at(deps, row);
            let open = first_open(units, homes, placed, index);
            if open < units.len() {
                return Look {
                    cursor: Cursor { row, index: open },
                    open: Some(units[open]),
                };
            }
            index = 0;
        }
        Look {
            cursor: Cursor {
                row: count,
                index: 0,
            },
            open: None,
        }
    }
}

// The first unit of a row from an index on whose node is not placed, else the length of the row.
fn first_open(row: &[u32], homes: &[u32], placed: &[bool], from: usize) -> usize
    ensures range { result ≤ length row.now }
    ensures low { result < length row.now → from ≤ result }
    ensures known { (k : ℕ) → from ≤ k → k < result → flag_at placed.now (slice_index homes.now
        (slice_index row.now k)) ≡ true }
    ensures open { result < length row.now → flag_at placed.now (slice_index homes.now (slice_index
        row.now result)) ≡ false }
{
    for k in from..row.len() {
        if !flag_at(placed, home_of(homes, row[k])) {
            return k;
        }
    }
    row.len()
}
