//! A plan with a pack after it.

use crate::shuffles::Shuffles;
use vg_shapes::{Description, Pack, Ssa};

/// A plan with a pack after it, the descriptions and the kernel that it is of, and what is known of
/// it.
#[derive(Drop)]
pub(crate) struct LongerPlan<'a, 'm> {
    pub(crate) descriptions: &'a [Description],
    pub(crate) ssa: &'a Ssa,
    /// The packs of the plan.
    pub(crate) packs: &'a [Pack],
    /// The pack after it.
    pub(crate) last: &'a Pack,
    /// The marks of the units of all these packs, by the number of the unit.
    pub(crate) marks: &'m [bool],
    /// The marks of the units of the pack after it.
    pub(crate) own: &'m [bool],
    /// Which descriptions are shuffles.
    pub(crate) shuffles: &'a Shuffles,
}
