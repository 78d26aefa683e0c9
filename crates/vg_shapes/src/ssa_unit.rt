//! The loads, operations and stores of a kernel.

ghost use Rattle.std.specs.Prelude.{◌≡◌};
ghost use Rattle.vg_shapes.specs.Layout.{access_of};
ghost use Rattle.vg_shapes.specs.Units.{is_among, uses_value};

use crate::access::Access;
use crate::wanted::Wanted;
use vg_base::{Address, Width};
use vg_scalar::{Comparison, Resize, Shift, TwoOp};

/// What an operation does with its operands.
#[derive(Clone, Copy)]
pub enum Operator {
    /// An operation on two integers.
    Two(TwoOp),
    /// A shift of an integer.
    Shift(Shift),
    /// An integer of the width `from` at another width.
    Resize { op: Resize, from: Width },
    /// Whether this holds of two integers, as a bit.
    Compare(Comparison),
    /// The second operand where the first, a bit, is 1, else the third.
    Select,
}

/// The operands of an operation in order, `Nothing` after the last.
#[derive(Clone, Copy)]
pub struct Operands {
    pub first: Wanted,
    pub second: Wanted,
    pub third: Wanted,
}

/// A load, an operation or a store.
#[derive(Clone, Copy)]
pub enum SsaUnit {
    /// Reads an integer of this width from memory.
    Load {
        address: Address,
        width: Width,
    },
    /// Writes an integer of this width to memory.
    Store {
        address: Address,
        width: Width,
        value: Wanted,
    },
    /// Makes an integer of this width, or of a comparison of integers of this width a bit. The amount
    /// is the number of places of a shift, and 0 elsewhere.
    Operation {
        op: Operator,
        width: Width,
        amount: u32,
        operands: Operands,
    },
}

impl SsaUnit {
    /// What a load reads, and what a store writes.
    pub fn access(&self) -> Option<Access>
        ensures { result ≡ access_of self.now }
    {
        match *self {
            SsaUnit::Load { address, width } => Some(Access {
                address,
                size: width.size(),
                writes: false,
            }),
            SsaUnit::Store { address, width, .. } => Some(Access {
                address,
                size: width.size(),
                writes: true,
            }),
            SsaUnit::Operation { .. } => None,
        }
    }

    /// Whether it uses the value of this number.
    pub fn uses(&self, value: u32) -> bool
        ensures { result ≡ uses_value value self.now }
    {
        match self {
            SsaUnit::Load { .. } => false,
            SsaUnit::Store { value: stored, .. } => stored.is_value(value),
            SsaUnit::Operation { operands, .. } => operands.has(value),
        }
    }
}

impl Operands {
    // Whether the value of this number is among them.
    fn has(&self, value: u32) -> bool
        ensures { result ≡ is_among value self.now }
    {
        self.first.is_value(value) || self.second.is_value(value) || self.third.is_value(value)
    }
}
