//! What a node says: the root of its term, over the nodes of the children.

ghost use Rattle.std.specs.Prelude.{◌≡◌};
ghost use Rattle.vg_pool.specs.Content.{content_width};
ghost use Rattle.vg_pool.specs.Hashed.{hashed};
ghost use Rattle.vg_pool.specs.Laws.Equal.{alike};

use std::hash::{Hash, Hasher};
use vg_terms::{LeafKey, OneOp, TwoOp};

/// The root of a term, whose children are numbers of nodes.
#[derive(Clone, Copy, PartialEq, Eq)]
pub(crate) enum Content {
    Leaf {
        width: u32,
        key: LeafKey,
    },
    Const {
        width: u32,
        value: u128,
    },
    One {
        op: OneOp,
        width: u32,
        amount: u32,
        x: usize,
    },
    Two {
        op: TwoOp,
        width: u32,
        x: usize,
        y: usize,
    },
    Sel {
        width: u32,
        c: usize,
        x: usize,
        y: usize,
    },
}

impl Hash for Content {
    ghost hash_input = { hashed };

    ghost respects_eq = { alike };

    fn hash<H: Hasher>(&self, state: &mut H) {
        match self {
            Content::Leaf { width, key } => {
                state.write_u32(*width);
                state.write_u8(key.kind);
                state.write_u32(key.first);
                state.write_i64(key.second);
                state.write_u32(key.third);
            }
            Content::Const { width, value } => {
                state.write_u32(*width);
                state.write_u128(*value);
            }
            Content::One {
                op,
                width,
                amount,
                x,
            } => {
                state.write_u32(op.tag());
                state.write_u32(*width);
                state.write_u32(*amount);
                state.write_usize(*x);
            }
            Content::Two { op, width, x, y } => {
                state.write_u32(op.tag());
                state.write_u32(*width);
                state.write_usize(*x);
                state.write_usize(*y);
            }
            Content::Sel { c, x, y, .. } => {
                state.write_usize(*c);
                state.write_usize(*x);
                state.write_usize(*y);
            }
        }
    }
}

/// A node: its content, and the number of nodes of its term, at most `MAX_TREE + 1`.
#[derive(Clone, Copy, Drop)]
pub(crate) struct Entry {
    pub(crate) content: Content,
    pub(crate) count: u32,
}

impl Content {
    /// The width of the term in bits.
    pub(crate) fn width(self) -> u32
        ensures { result ≡ content_width self }
    {
        match self {
            Content::Leaf { width, .. } => width,
            Content::Const { width, .. } => width,
            Content::One { width, .. } => width,
            Content::Two { width, .. } => width,
            Content::Sel { width, .. } => width,
        }
    }
}
