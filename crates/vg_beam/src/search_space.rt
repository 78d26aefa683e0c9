//! What plans are searched over.

use vg_kernel_plans::LoadGroups;
use vg_shapes::{DepList, Description, MatchTable, Ssa};

/// What plans are searched over: descriptions, the places where they match, a kernel, which of its units
/// depend on which, and which load groups are tried.
#[derive(Drop)]
pub(crate) struct SearchSpace<'a> {
    pub(crate) descriptions: &'a [Description],
    pub(crate) table: &'a MatchTable,
    pub(crate) ssa: &'a Ssa,
    pub(crate) deps: &'a DepList,
    pub(crate) groups: &'a LoadGroups,
}
