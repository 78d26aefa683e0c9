//! What an instance computes.

use vg_base::{Items, Name};
use vg_terms::Term;

/// An instance that packs may call: what each lane of its result is of the bits of its parameters.
/// Contracts speak of it as `description_of` of `specs/Description.antt`.
pub struct Description {
    /// The name of its entry.
    pub name: Name,
    /// The immediate, where its entry has one.
    pub imm: Option<u8>,
    /// What a call costs, from 1 to 1,000.
    pub cost: u32,
    /// The widths of the parameters in bits, one to four of 128, 256 and 512.
    pub params: Items<u32>,
    /// The width of the result in bits: 128, 256 or 512.
    pub register: u32,
    /// The width of a lane of the result in bits: 8, 16, 32 or 64.
    pub lane_width: u32,
    /// The canonical terms of the lanes, lane 0 first.
    pub lanes: Items<Term>,
}

/// Written out, so that the exits of an owner call it: a derived one would be proved anew at each.
impl Drop for Description {
    fn drop(self) {
        let Description {
            name: _,
            imm: _,
            cost: _,
            params: _,
            register: _,
            lane_width: _,
            lanes: _,
        } = self;
    }
}
