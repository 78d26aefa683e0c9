//! Places between the words of a text that is being read.

use crate::expression::KExpr;
use vg_text::Lexer;

/// What is left of a text, and how many loads and operations were counted before it.
#[derive(Clone, Copy)]
pub(crate) struct Scan<'a> {
    pub(crate) lexer: Lexer<'a>,
    pub(crate) used: u32,
}

/// An expression that was read, how many nodes it has one below the other, and what is left after
/// it.
#[derive(Drop)]
pub(crate) struct Part<'a> {
    pub(crate) expression: KExpr,
    pub(crate) depth: u32,
    pub(crate) scan: Scan<'a>,
}
