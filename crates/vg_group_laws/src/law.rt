//! The laws on runs of loads, on load groups and on aligned store groups.

ghost use Rattle.vg_group_laws.specs.Laws.{AlignedGroupsAreTiles, AlignedGroupsTile, FirstLoadsAreInRuns, GroupsAreCutFromRuns, LoadGroupsAreApart, RunsCannotBeLonger};

/// A law that costs nothing to call: the run that a load begins begins with it, each unit of it is the
/// first that loads from its place, right behind the place of the one before, and no load of that pointer
/// and width stands right ahead of the first or right behind the last.
pub fn runs_cannot_be_longer()
    ensures { RunsCannotBeLonger }
{}

/// A law: the first load of each place and width stands in the run of one load, and of no other, and runs
/// have nothing else.
pub fn first_loads_are_in_runs()
    ensures { FirstLoadsAreInRuns }
{}

/// A law: the groups of a run are its front, one after the other, each the largest part of what is left
/// there that a line loads into a register of the width, and nothing of what is left behind the last is one.
pub fn groups_are_cut_from_runs()
    ensures { GroupsAreCutFromRuns }
{}

/// A law: no unit stands in two load groups of a register, or twice in one.
pub fn load_groups_are_apart()
    ensures { LoadGroupsAreApart }
{}

/// A law: the aligned store groups are those store groups that begin a multiple of as many places behind the
/// place where their run begins, the run of the stores of one width and rank beside each other.
pub fn aligned_groups_are_tiles()
    ensures { AlignedGroupsAreTiles }
{}

/// A law: two aligned store groups of as many stores are the same or have no unit in common.
pub fn aligned_groups_tile()
    ensures { AlignedGroupsTile }
{}
