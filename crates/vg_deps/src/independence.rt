//! Units of which neither depends on the other.

ghost use Rattle.std.specs.Prelude.{◌≡◌, ◌||◌};
ghost use Rattle.vg_deps.specs.Independent.{are_independent, KeepApart};
ghost use Rattle.vg_shapes.specs.DepList.{is_listed};

use vg_shapes::DepList;

/// Whether neither of two units depends on the other. Takes no memory.
///
/// Of two accesses, one of them a store, that are independent by the list of [`crate::depends`] the
/// bytes are apart in each layout that respects noalias.
pub fn independent(deps: &DepList, a: u32, b: u32) -> bool
    ensures is { result ≡ are_independent deps.now a b }
    ensures apart { KeepApart deps.now a b result }
{
    !one_depends(deps, a, b)
}

// Whether one of two units depends on the other.
fn one_depends(deps: &DepList, a: u32, b: u32) -> bool
    ensures { result ≡ (is_listed deps.now a b || is_listed deps.now b a) }
{
    deps.has(a, b) || deps.has(b, a)
}
