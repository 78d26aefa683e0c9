//! Bits of lifted registers.

/// A bit of a register, over the nodes of a pool.
#[derive(Clone, Copy)]
pub enum Bit {
    /// 0.
    Clear,
    /// A bit of a parameter.
    Input { parameter: u32, bit: u32 },
    /// A bit of the term of a node, which has so many.
    OfTerm { node: u32, width: u32, bit: u32 },
}
