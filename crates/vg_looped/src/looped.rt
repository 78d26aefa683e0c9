//! Looped texts.

use vg_base::Items;
use vg_program::Program;

/// The program of a block of turns and that of one turn, under one first line: blocks run as long
/// as there are turns for one, and the turns that are left over run one by one.
pub struct Looped {
    pub block: Program,
    pub rest: Program,
    /// The parameter that says how many turns there are, by its number among the integers.
    pub times: u32,
    /// For each pointer the bytes by which a turn moves it on, 0 to 65,536; one at least is not 0.
    pub steps: Items<u32>,
    /// How many turns a block has, 1 to 16.
    pub turns: u32,
}

/// Written out, so that the exits of an owner call it: a derived one would be proved anew at each.
impl Drop for Looped {
    fn drop(self) {
        let Looped {
            block: _,
            rest: _,
            times: _,
            steps: _,
            turns: _,
        } = self;
    }
}
