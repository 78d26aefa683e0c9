//! The names of values.

ghost use Rattle.std.specs.Prelude.{◌≡◌, ◌≤◌, IfOk, length, map, unwrap_or};
ghost use Rattle.vg_match.specs.Names.{names_of, no_name};
ghost use Rattle.vg_shapes.specs.Sound.{cut_key, name_of, unit_name};
ghost use Rattle.vg_terms.specs.Term.{leaf, tree};

use std::alloc::{AllocError, Global};
use vg_shapes::{Ssa, SsaUnit};
use vg_terms::{LeafKey, Term, make_const, make_leaf};

// The leaf of a value whose term is not looked into.
fn cut_leaf(width: u32, value: u32) -> Term
    ensures { tree result ≡ leaf width (cut_key value) }
{
    let key = LeafKey {
        kind: 3,
        first: value,
        second: 0,
        third: 0,
    };
    make_leaf(width, key)
}

// The name of the value of a unit, by its number and its cut term; a constant for a store.
fn unit_name(alloc: Global, value: u32, cut: &Term, unit: &SsaUnit) -> Result<Term, AllocError>
    ensures { IfOk result
        (λ name. tree name ≡ unwrap_or (unit_name value (tree cut.now) unit.now) no_name) }
{
    match unit {
        SsaUnit::Load { address: _, width } => Ok(cut_leaf(width.bits(), value)),
        SsaUnit::Store { .. } => Ok(make_const(8, 0)),
        SsaUnit::Operation { .. } => {
            if cut.width() == 1 {
                cut.copy(alloc)
            } else {
                Ok(cut_leaf(cut.width(), value))
            }
        }
    }
}

// The name of a value, by its number and its cut term; a constant where it has none.
fn name_of(alloc: Global, ssa: &Ssa, value: u32, cut: &Term) -> Result<Term, AllocError>
    ensures { IfOk result
        (λ name. tree name ≡ unwrap_or (name_of ssa.now value (tree cut.now)) no_name) }
{
    let first = ssa.arguments();
    if (value as usize) < first {
        return cut.copy(alloc);
    }
    match ssa.units.as_slice().get(value as usize - first) {
        Some(unit) => unit_name(alloc, value, cut, unit),
        None => Ok(make_const(8, 0)),
    }
}

/// The names of the values of a kernel that have cut terms, by number; a constant where a value has
/// none.
pub(crate) fn names_of(alloc: Global, ssa: &Ssa) -> Result<Vec<Term>, AllocError>
    requires { length ssa.now.cuts ≤ 16777216 }
    ensures { IfOk result (λ names. map tree names.items ≡ names_of ssa.now) }
{
    let mut names = Vec::new(alloc);
    for (value, cut) in ssa.cuts.as_slice().iter().enumerate() {
        let name = name_of(alloc, ssa, value as u32, cut)?;
        names.push(name)?;
    }
    Ok(names)
}
