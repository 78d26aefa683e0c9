//! How a number is had at a width.

use vg_base::Width;
use vg_shapes::{Operands, Operator, Wanted};

/// An operation on forms of operands.
#[derive(Clone, Copy)]
pub struct Made {
    pub op: Operator,
    /// The width of the operation.
    pub width: Width,
    /// The number of places of a shift, and 0 elsewhere.
    pub amount: u32,
    pub operands: Operands,
    /// The width at which the forms of the operands are asked for. The condition of a choice is a
    /// bit.
    pub asked: Width,
}

/// How the number of a value is had at a width.
#[derive(Clone, Copy)]
pub enum Form {
    /// It is the value itself.
    Own,
    /// It is the constant 0.
    Zero,
    /// It is the form of this operand at the same width.
    Same(Wanted),
    /// It is what an operation makes.
    Whole(Made),
    /// It is the low bits of what an operation of a greater width makes.
    Cut(Made),
}
