//! What is known of an expression. Contracts see it as the data of `specs/Views.antt`.

use crate::span::Span;
use vg_script::{Frame, Low, WholeNumber, Word};

/// What is known of an expression.
#[derive(Drop)]
pub enum Found {
    /// A constant that is no slice.
    Known {
        number: WholeNumber,
    },
    /// A slice that is a constant: the low bits, as many as its width, of a number.
    KnownSlice {
        is_signed: bool,
        bits: u128,
        width: u128,
    },
    /// Another slice by its reading, its register, where it begins and its width.
    Read {
        is_signed: bool,
        register: usize,
        low: Low,
        width: u128,
    },
    /// A slice of a register that a call leaves.
    Handed {
        frame: Box<Frame>,
        register: usize,
        low: Low,
        width: u128,
    },
    /// A comparison, by its bit.
    Bit {
        word: Word,
    },
    /// Another number, by an interval that holds it and its word.
    Within {
        span: Span,
        word: Word,
    },
    /// The low 128 bits of a slice of 128 bits or more, that went through two calls.
    Wide {
        word: Word,
    },
    /// A left shift that need not fit.
    Loose {
        word: Word,
    },
}

/// An operand.
#[derive(Drop)]
pub enum Operand {
    /// A constant.
    Fixed(i128),
    /// A number, by an interval that holds it and its word.
    Moving { span: Span, word: Word },
}

/// What an argument hands.
#[derive(Drop)]
pub enum Passed {
    /// A constant.
    Constant(u128),
    /// A word of 128 bits.
    Computed {
        word: Word,
    },
    /// Bits of a register.
    Bits {
        register: usize,
        low: Low,
        width: u128,
    },
}

/// A condition.
#[derive(Drop)]
pub enum Condition {
    /// A constant, which is false where it is 0.
    Always(i128),
    /// One bit.
    Tested { word: Word },
}
