//! Packs: units that one vector line does together.

use crate::lanes::Lanes;

/// Units that one vector line does together, named by their numbers, lane 0 first.
pub enum Pack {
    /// Stores of one width that are consecutive in memory, lane 0 at the lowest address.
    Stores(Lanes<u32>),
    /// Loads of one width that are consecutive in memory, lane 0 at the lowest address.
    Loads(Lanes<u32>),
    /// A call of an instruction, by the number of its description, and for each lane the operation
    /// that it computes, if any.
    Call {
        description: u32,
        lanes: Lanes<Option<u32>>,
    },
}

/// Written out, so that the exits of an owner call it: a derived one would be proved anew at each.
impl Drop for Pack {
    fn drop(self) {
        match self {
            Pack::Stores(_) => {}
            Pack::Loads(_) => {}
            Pack::Call {
                description: _,
                lanes: _,
            } => {}
        }
    }
}
