//! Laws on what is emitted for plans.

ghost use Rattle.vg_emit_laws.specs.Laws.{EmittedProgramsAreRight, MatchesAreNear, MatchesAreOfUnits, PacksAreShort, PacksByChoiceAreShort, PlansCanBeEmitted};

/// A law that costs nothing to call: the packs of a plan are short, also where load groups feed
/// operands. A load pack and a store group have at most 64 units, a call fewer than 2^32 lanes.
pub fn packs_are_short()
    ensures { PacksAreShort }
{}

/// A law: the packs of plans by any choice of what is tried are short, as a search over these plans
/// asks: with load groups or without, of all store groups or of the aligned ones alone.
pub fn packs_by_choice_are_short()
    ensures { PacksByChoiceAreShort }
{}

/// A law: the leaves that matches bind begin within 2^32 bits of their parameter.
pub fn matches_are_near()
    ensures { MatchesAreNear }
{}

/// A law: the matches of a sound kernel are those of its units.
pub fn matches_are_of_units()
    ensures { MatchesAreOfUnits }
{}

/// A law: each plan by packs, units and nodes, in which load groups may feed operands, has what `emit`
/// asks, and its recipes and calls keep what they promise where descriptions are true.
pub fn plans_can_be_emitted()
    ensures { PlansCanBeEmitted }
{}

/// A law: the program that `emit` gives for a plan by packs, units and nodes, in which load groups may
/// feed operands, in any legal order, leaves the memory that the units of the kernel leave, or traps
/// where they do, where descriptions are true. It costs what the plan costs, and where that is at most
/// the number of units, its text is within the bound on programs.
pub fn emitted_programs_are_right()
    ensures { EmittedProgramsAreRight }
{}
