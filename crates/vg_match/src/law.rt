//! Laws on matches.

ghost use Rattle.vg_match.specs.Laws.{BoundEarlier, FoundFit, LanesHaveNumbers, OneBinding, OneTable, ReachedHave};

/// A law that costs nothing to call: what is found in a table of all matches for a lane and a value
/// is what the leaves of the lane are bound to by the first way in which it fits the value.
pub fn found_matches_fit()
    ensures { FoundFit }
{}

/// A law: two bindings by which a term fits a value, in one way or by the first of the ways, bind
/// each leaf to the same.
pub fn there_is_one_binding()
    ensures { OneBinding }
{}

/// A law: there is one table of all matches of descriptions with values of the same parameters, units,
/// terms and cut terms, in order, as are the leaves that each match binds.
pub fn there_is_one_table()
    ensures { OneTable }
{}

/// A law: where a term fits a value, its leaves are bound to constants and to values before it.
pub fn bound_values_are_earlier()
    ensures { BoundEarlier }
{}

/// A law: where a run of units reaches values of a sound kernel, their terms have their numbers, and
/// so have their cut terms and names, if there are any.
pub fn reached_terms_have_numbers()
    ensures { ReachedHave }
{}

/// A law: a term that fits a value, whole, cut or turned, has the number of the value in registers
/// whose bits have the numbers of what its leaves are bound to. So a lane of which the term is true
/// has it.
pub fn lanes_have_numbers()
    ensures { LanesHaveNumbers }
{}
