//! Dependences between units.

ghost use Rattle.std.specs.Prelude.{◌≡◌, ◌+◌, ◌<◌, ◌++◌, [], ◌∷◌, if◌then◌else◌, length, map, IfOk, OnOk};
ghost use Rattle.vg_deps.specs.Independent.{ListsDependences};
ghost use Rattle.vg_shapes.specs.Depends.{depended, dependences};
ghost use Rattle.vg_shapes.specs.Layout.{noalias_flags};
ghost use Rattle.vg_shapes.specs.Order.{numbers_from};
ghost use Rattle.vg_shapes.specs.Sound.{IsSound};
ghost use Rattle.vg_shapes.specs.Units.{arguments};

use crate::conflict::depends_by;
use std::alloc::{AllocError, Global};
use vg_base::Items;
use vg_shapes::{DepList, Ssa};

/// Each unit with each earlier unit on which it depends: by unit, and of each unit the greatest first.
pub fn depends(alloc: Global, ssa: &Ssa) -> Result<DepList, AllocError>
    requires { IsSound ssa.now }
    ensures exact { IfOk result (λ deps. deps ≡ dependences ssa.now) }
    ensures pairs { IfOk result (λ deps. ListsDependences deps ssa.now) }
{
    let flags = noalias_flags(alloc, ssa)?;
    let rows = rows(alloc, ssa, &flags)?;
    Ok(DepList::from_rows(rows))
}

// Of each pointer in order, whether it is noalias.
fn noalias_flags(alloc: Global, ssa: &Ssa) -> Result<Vec<bool>, AllocError>
    ensures { IfOk result (λ flags. flags.items ≡ noalias_flags ssa.now) }
{
    let params = ssa.params.as_slice();
    params
        .iter()
        .filter_map(|p| p.kind.noalias())
        .collect(alloc)
}

// For each number of a value the units on which its unit depends; an integer parameter is no unit.
fn rows(alloc: Global, ssa: &Ssa, flags: &[bool]) -> Result<Items<Items<u32>>, AllocError>
    requires sound { IsSound ssa.now }
    requires flags { flags.now ≡ noalias_flags ssa.now }
    ensures { IfOk result (λ rows. rows ≡ map (depended ssa.now) (numbers_from 0 (arguments ssa.now
        + length ssa.now.units))) }
{
    let first = ssa.arguments();
    let count = first + ssa.units.as_slice().len();
    let mut rows = Vec::new(alloc);
    'values: for value in 0..count {
        let row = row(alloc, ssa, flags, first, value)?;
        rows.push(row)?;
    }
    Ok(Items::from_vec(rows))
}

// The units on which the unit of a number depends, the greatest first. The units are numbered from the
// first on.
fn row(
    alloc: Global,
    ssa: &Ssa,
    flags: &[bool],
    first: usize,
    value: usize,
) -> Result<Items<u32>, AllocError>
    requires sound { IsSound ssa.now }
    requires flags { flags.now ≡ noalias_flags ssa.now }
    requires first { first ≡ arguments ssa.now }
    requires value { value < first + length ssa.now.units }
    ensures { IfOk result (λ row. row ≡ depended ssa.now value) }
{
    let mut row = Vec::new(alloc);
    if value < first {
        return Ok(Items::from_vec(row));
    }
    let units = ssa.units.as_slice();
    let index = value - first;
    let later = &units[index];
    let mut left = index;
    'earlier: while left > 0 {
        left -= 1;
        let number = (first + left) as u32;
        let dependent = depends_by(flags, later, &units[left], number);
        push_where(&mut row, number, dependent)?;
    }
    Ok(Items::from_vec(row))
}

// Puts a number after the others where this holds.
fn push_where(numbers: &mut Vec<u32>, number: u32, holds: bool) -> Result<(), AllocError>
    ensures { OnOk result (numbers.new.items ≡ numbers.old.items ++ (if holds then number ∷ [] else
        [])) }
{
    if holds {
        numbers.push(number)?;
    }
    Ok(())
}
