//! A law of what is compiled of loops.

ghost use Rattle.vg_loops.specs.OneLooped.{OneLoopedIsCompiled};

/// A law that costs nothing to call: two looped texts that are compiled of a loop by the same
/// entries, set of extensions and width, both with more plans or both without, are the same.
pub fn one_looped_is_compiled()
    ensures { OneLoopedIsCompiled }
{}
