//! What the list of store groups promises, and what holds of dependences.

ghost use Rattle.vg_packs.specs.Laws.{DependencesAreEarlier, StoreGroupsAreListed};

/// A law that costs nothing to call: each of the list of store groups is stores that are
/// consecutive in memory, as many as a vector line can store, each with as many before it to its
/// own place; and each such group is in the list, once.
pub fn store_groups_are_listed()
    ensures { StoreGroupsAreListed }
{}

/// A law that costs nothing to call: a list that has exactly the dependences of a kernel names earlier
/// units alone, as the plain plan wants it.
pub fn dependences_are_earlier()
    ensures { DependencesAreEarlier }
{}
