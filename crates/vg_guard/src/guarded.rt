//! Guarded programs.

ghost use Rattle.std.specs.Prelude.{◌≡◌};
ghost use Rattle.vg_guard.specs.Checks.{all_hold};

use crate::check::{Check, all_hold};
use vg_base::Items;
use vg_program::Program;

/// Two programs with the same name and the same parameters, and the checks that choose between
/// them.
pub struct Guarded {
    /// At most 120, by rising pairs of pointers.
    pub checks: Items<Check>,
    /// Runs where all checks hold.
    pub fast: Program,
    /// Runs where one does not hold.
    pub slow: Program,
}

/// Written out, so that the exits of an owner call it: a derived one would be proved anew at each.
impl Drop for Guarded {
    fn drop(self) {
        let Guarded {
            checks: _,
            fast: _,
            slow: _,
        } = self;
    }
}

/// Whether all checks of a guarded program hold at these places, one for each pointer; one that is
/// missing is 0. Takes no memory.
pub fn checks_hold(guarded: &Guarded, places: &[u64]) -> bool
    ensures { result ≡ all_hold places.now guarded.now.checks }
{
    all_hold(guarded.checks.as_slice(), places)
}
