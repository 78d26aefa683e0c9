//! Guarded loops.

use vg_base::Items;
use vg_guard::Guarded;
use vg_program::Program;

/// The guarded program of a block of turns and the program of one turn, under one first line: blocks
/// run as long as there are turns for one, each by the side that its checks choose at the places of
/// its pointers, and the turns that are left over run one by one.
pub struct GuardedLoop {
    pub block: Guarded,
    pub rest: Program,
    /// The parameter that says how many turns there are, by its number among the integers.
    pub times: u32,
    /// For each pointer the bytes by which a turn moves it on, 0 to 65,536; one at least is not 0.
    pub steps: Items<u32>,
    /// How many turns a block has, 1 to 16.
    pub turns: u32,
}

/// Written out, so that the exits of an owner call it: a derived one would be proved anew at each.
impl Drop for GuardedLoop {
    fn drop(self) {
        let GuardedLoop {
            block: _,
            rest: _,
            times: _,
            steps: _,
            turns: _,
        } = self;
    }
}
