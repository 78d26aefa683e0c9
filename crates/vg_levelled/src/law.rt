//! Laws on what is levelled.

ghost use Rattle.vg_levelled.specs.Laws.{AddedCanBeNumbered, AddedKeepsRules, LevelledMeans};

/// Where the levelled program means the levelled units, the program means the units: loads that nothing uses
/// change no memory, and they read bytes alone that the same side reads anyway.
pub fn levelled_means()
    ensures { LevelledMeans }
{}

/// The units of sound values with their loads more can be numbered.
pub fn added_can_be_numbered()
    ensures { AddedCanBeNumbered }
{}

/// A valid program with its loads more is valid.
pub fn added_keeps_rules()
    ensures { AddedKeepsRules }
{}
