//! What judging an instance counts and keeps. Contracts see it as the data of `specs/Views.antt`.

use crate::found::Operand;
use crate::span::Span;
use vg_script::WholeNumber;

/// An index.
#[derive(Drop)]
pub enum Index {
    /// A constant.
    Settled(WholeNumber),
    /// A number; one that no interval holds is outside of every register.
    Unsettled(Option<Operand>),
}

/// What is known of a number variable.
#[derive(Clone, Copy, Drop)]
pub enum KnownNumber {
    Constant(i128),
    Varying(Span),
}

/// How many assignments, turns and calls there were, and whether a slice or a shift depended on
/// data.
#[derive(Clone, Copy, Drop)]
pub struct Count {
    pub steps: u32,
    pub is_dynamic: bool,
}

/// Bits of a register, from a bit on.
#[derive(Clone, Copy, Drop)]
pub struct Bits {
    pub low: u128,
    pub width: u128,
}
