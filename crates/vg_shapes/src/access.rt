//! Accesses of memory.

use vg_base::Address;

/// Bytes that a load reads, or a store writes.
#[derive(Clone, Copy)]
pub struct Access {
    pub address: Address,
    /// In bytes.
    pub size: u32,
    /// Whether it is that of a store.
    pub writes: bool,
}
