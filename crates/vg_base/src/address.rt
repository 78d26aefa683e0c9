//! Places in memory as kernels and programs name them.

/// A pointer and an offset in bytes.
#[derive(Clone, Copy)]
pub struct Address {
    /// The number of the pointer among the pointer parameters, from 0.
    pub pointer: u32,
    /// From the place of the pointer, in bytes.
    pub offset: i32,
}
