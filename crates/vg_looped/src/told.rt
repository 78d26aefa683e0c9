//! What the first line of a looped text tells of the turns.

use vg_base::Items;

/// The integer parameter that says how many turns there are, the pointers that move with their
/// steps, and how many turns a block has.
#[derive(Drop)]
pub struct Told {
    pub times: u32,
    pub pairs: Items<(u32, u32)>,
    pub turns: u32,
}
