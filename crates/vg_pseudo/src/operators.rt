//! Operators, and the functions that every operation text may call.

use vg_base::Width;

/// An operator or a function of one operand.
#[derive(Clone, Copy, Debug)]
pub enum UnaryOp {
    /// `NOT x`
    Not,
    /// `-x`
    Negate,
    /// `ABS(x)`
    Absolute,
    /// `Signed(x)`
    Signed,
    /// `SignExtendN(x)`
    SignExtend(Width),
    /// `ZeroExtendN(x)`
    ZeroExtend(Width),
    /// `SaturateN(x)`
    Saturate(Width),
    /// `SaturateUN(x)`
    SaturateUnsigned(Width),
    /// `TruncateN(x)`
    Truncate(Width),
}

/// An operator or a function of two operands.
#[derive(Clone, Copy, Debug)]
pub enum BinaryOp {
    /// `x OR y`
    Or,
    /// `x XOR y`
    Xor,
    /// `x AND y`
    And,
    /// `x == y`
    Equal,
    /// `x != y`
    NotEqual,
    /// `x < y`
    Less,
    /// `x <= y`
    LessOrEqual,
    /// `x > y`
    Greater,
    /// `x >= y`
    GreaterOrEqual,
    /// `x << y`
    ShiftLeft,
    /// `x >> y`
    ShiftRight,
    /// `x + y`
    Add,
    /// `x - y`
    Subtract,
    /// `x * y`
    Multiply,
    /// `MIN(x, y)`
    Minimum,
    /// `MAX(x, y)`
    Maximum,
}
