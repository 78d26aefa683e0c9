//! Terms as they are lifted: numbers are in 128 bits, and lanes are cut from them.

use std::alloc::{AllocError, Global};
use vg_terms::{LeafKey, OneOp, Term, TwoOp, make_const, make_leaf, make_one, make_two};

/// So many bits of a parameter from a bit on.
pub fn leaf(parameter: u32, low: i64, width: u32) -> Term {
    let key = LeafKey {
        kind: 0,
        first: parameter,
        second: low,
        third: 0,
    };
    make_leaf(width, key)
}

/// Bits of a parameter as a number of 128 bits.
pub fn extended(alloc: Global, op: OneOp, bits: Term) -> Result<Term, AllocError> {
    make_one(alloc, op, 128, 0, bits)
}

/// An operation on two numbers of 128 bits.
pub fn pair(alloc: Global, op: TwoOp, x: Term, y: Term) -> Result<Term, AllocError> {
    make_two(alloc, op, 128, x, y)
}

/// A number of 128 bits.
pub fn number(value: u128) -> Term {
    make_const(128, value)
}

/// The low bits of a number of 128 bits.
pub fn cut(alloc: Global, width: u32, x: Term) -> Result<Term, AllocError> {
    make_one(alloc, OneOp::Trunc, width, 0, x)
}
