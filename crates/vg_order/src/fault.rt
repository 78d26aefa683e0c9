//! Why there is no order.

ghost use Rattle.std.specs.Prelude.{◌≡◌, alloc_error};
ghost use Rattle.vg_order.specs.declared.fault.OrderFault.TheVariants.{Memory};

use std::alloc::{AllocError, AllocFailed};
use thiserror::Error;

/// Why the nodes of a plan have no order.
#[derive(Debug, Drop, Error)]
pub enum OrderFault {
    /// The node of each of these units depends on that of the next, and the node of the last on that of
    /// the first.
    #[error("a cycle of {} nodes", .0.len())]
    Cycle(Vec<u32>),
    /// No memory is left.
    #[error("Memory")]
    Memory(AllocError),
}

impl From<AllocError> for OrderFault {
    ghost from_gives = { λ x e. e ≡ Memory x };

    fn from(error: AllocError) -> OrderFault {
        OrderFault::Memory(error)
    }
}

impl<T: Drop> From<AllocFailed<T>> for OrderFault {
    ghost from_gives = { λ _ e. e ≡ Memory alloc_error };

    fn from(_failed: AllocFailed<T>) -> OrderFault {
        OrderFault::Memory(AllocError)
    }
}
