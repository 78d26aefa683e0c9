//! Whole numbers of more than 128 signed bits.

/// A whole number. A constant of an accepted operation is at least -2^127 and below 2^128.
#[derive(Clone, Copy)]
pub enum WholeNumber {
    /// This number.
    Natural(u128),
    /// -1 minus this number.
    Negative(u128),
}
