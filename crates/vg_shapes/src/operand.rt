//! What the registers of an instruction are to hold.

use crate::wanted::Wanted;
use vg_base::Items;

/// A range of the bits of a register, and what is wanted there.
#[derive(Clone, Copy, PartialEq, Eq)]
pub struct Slot {
    /// The lowest bit.
    pub low: u32,
    /// In bits.
    pub width: u32,
    pub wanted: Wanted,
}

/// A register and what is wanted in it.
#[derive(Drop)]
pub struct Operand {
    /// The width of the register in bits.
    pub register: u32,
    /// By rising lowest bit, none in another.
    pub slots: Items<Slot>,
}
