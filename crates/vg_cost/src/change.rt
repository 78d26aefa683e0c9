//! What a plan changes into.

use vg_shapes::Ssa;

/// A plan that changes, by the marks of the units of its packs.
#[derive(Drop)]
pub(crate) struct Change<'a> {
    pub(crate) ssa: &'a Ssa,
    /// The number of the first unit.
    pub(crate) first: usize,
    /// The marks before the change.
    pub(crate) packed: &'a [bool],
    /// How often each value is needed before it.
    pub(crate) counts: &'a [u32],
    /// The marks after it.
    pub(crate) longer: &'a [bool],
}
