//! A law of what is compiled of loops with guards.

ghost use Rattle.vg_loop_guard.specs.OneGuardedLoop.{OneGuardedLoopIsCompiled};

/// A law that costs nothing to call: two guarded loops that are compiled of a loop by the same
/// entries, set of extensions and width, both with more plans or both without, are the same.
pub fn one_guarded_loop_is_compiled()
    ensures { OneGuardedLoopIsCompiled }
{}
