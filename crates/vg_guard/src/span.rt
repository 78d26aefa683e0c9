//! Ranges of bytes after pointers.

/// A range of bytes, by its offset from a pointer.
#[derive(Clone, Copy)]
pub struct Span {
    /// The number of the pointer among the pointers, from 0.
    pub pointer: u32,
    /// The offset of the first byte.
    pub low: i64,
    /// How many bytes the range has.
    pub len: u64,
}
