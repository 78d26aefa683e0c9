//! The laws on the programs of looped texts.

ghost use Rattle.vg_looped_laws.specs.Laws.{LoopedProgramsAreValid};

/// A law: both programs of a looped text are valid programs by themselves.
pub fn looped_programs_are_valid()
    ensures { LoopedProgramsAreValid }
{}
