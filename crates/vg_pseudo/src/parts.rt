//! Expressions that were read.

ghost use Rattle.std.specs.Prelude.{◌≡◌, ◌≤◌, ◌<◌, ◌+◌, max};
ghost use Rattle.vg_pseudo.specs.Views.{part_of, linked_of};
ghost use Rattle.vg_pseudo.specs.Tree.{expression_of};
ghost use Rattle.vg_pseudo.specs.Expressions.{leaf};

use crate::expression::{Arguments, Expr};

/// An expression that was read.
#[derive(Drop)]
pub(crate) struct Part {
    pub(crate) expression: Expr,
    /// How many nodes it has one below the other, parentheses counted.
    pub(crate) depth: u32,
    /// The greatest depth of the DEFINEs that it calls, where a DEFINE is being read, else 0.
    pub(crate) calls: u8,
}

/// Arguments that were read.
#[derive(Drop)]
pub(crate) struct Linked {
    pub(crate) arguments: Arguments,
    /// How many nodes the deepest of them has one below the other, parentheses counted.
    pub(crate) depth: u32,
    /// The greatest depth of the DEFINEs that they and their call call, where a DEFINE is being read, else 0.
    pub(crate) calls: u8,
}

/// An expression with nothing below it.
pub(crate) fn leaf(expression: Expr) -> Part
    ensures { part_of result ≡ leaf (expression_of expression) }
{
    Part {
        expression,
        depth: 1,
        calls: 0,
    }
}
