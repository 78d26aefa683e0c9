//! How operands are brought into registers.

use vg_base::Items;

/// How the operand of a pack is brought into a register.
pub enum Recipe {
    /// The register of a pack that holds it, by its index in the plan. Costs nothing.
    Reuse(u32),
    /// A register of constants, the lowest byte first: 16, 32 or 64 bytes. Costs 1.
    Constant(Items<u8>),
    /// A call of a shuffle by the number of its description, on the registers of these packs, one for
    /// each parameter, each by its index in the plan. Costs what the call costs.
    Shuffle { description: u32, packs: Items<u32> },
    /// A register with the constants, and an insert for each slot that wants a value. Each costs 1.
    Inserts,
}

/// Written out, so that the exits of an owner call it: a derived one would be proved anew at each.
impl Drop for Recipe {
    fn drop(self) {
        match self {
            Recipe::Reuse(_) => {}
            Recipe::Constant(_) => {}
            Recipe::Shuffle {
                description: _,
                packs: _,
            } => {}
            Recipe::Inserts => {}
        }
    }
}
