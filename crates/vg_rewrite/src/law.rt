//! What forms and rewritten units promise.

ghost use Rattle.vg_rewrite.specs.Laws.{BitFormsHold, FormsHold};
ghost use Rattle.vg_rewrite.specs.Rewritten.{RewrittenUnitsRunAlike, StandingIsApart};
ghost use Rattle.vg_rewrite.specs.Running.{NarrowedUnitsRunAlike, RepeatedUnitsRunAlike};

/// A law that costs nothing to call: in each run of a sound kernel's units the form of a value at a
/// width makes, from the numbers of the forms that it is made of, the number that is congruent to
/// the value's whole number modulo 2 to the width; and that of a comparison makes its bit.
pub fn forms_hold()
    ensures numbers { FormsHold }
    ensures bits { BitFormsHold }
{}

/// A law that costs nothing to call: in each layout that respects noalias, for every memory and all
/// integer arguments, the repeated units of a sound kernel's units leave the memory that those leave,
/// and trap where they trap.
pub fn repeated_units_run_alike()
    ensures { RepeatedUnitsRunAlike }
{}

/// A law that costs nothing to call: in each layout, for every memory of bytes and all integer
/// arguments, the narrowed units of a sound kernel's units leave the memory that those leave, and trap
/// where they trap.
pub fn narrowed_units_run_alike()
    ensures { NarrowedUnitsRunAlike }
{}

/// A law that costs nothing to call: what stands for a kernel does so in each layout that respects the
/// kernel's noalias.
pub fn standing_is_apart()
    ensures { StandingIsApart }
{}

/// A law that costs nothing to call: in each layout that respects noalias, for every memory of bytes and
/// all integer arguments, each list of units that is planned for a sound kernel's units leaves the
/// memory that those leave, and traps where they trap.
pub fn rewritten_units_run_alike()
    ensures { RewrittenUnitsRunAlike }
{}
