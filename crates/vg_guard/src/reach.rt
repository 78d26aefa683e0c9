//! How far the accesses of a kernel reach.

/// The bytes that the accesses through a pointer reach.
#[derive(Clone, Copy)]
pub struct Reach {
    /// The least offset of an access.
    pub low: i64,
    /// Where the access that reaches farthest ends, as an offset too.
    pub high: i64,
    /// Whether one of them writes.
    pub writes: bool,
}
