//! Intervals of whole numbers.

/// The whole numbers from the least to the greatest.
#[derive(Clone, Copy)]
pub struct Span {
    pub least: i128,
    pub greatest: i128,
}
