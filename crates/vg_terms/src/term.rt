//! Terms and how they are built.

ghost use Rattle.std.specs.Prelude.{◌≡◌, ◌-◌, ◌^◌, IfOk, min};
ghost use Rattle.vg_terms.specs.Term.{constant, leaf, node_count, one, sel, tree, two, width_of};

use std::alloc::{AllocError, Global};

/// What a leaf stands for. Keys are compared field by field, in this order.
///
/// `(0, parameter, low bit, 0)` is bits of a parameter, `(1, pointer, offset in bytes, number)` a
/// load, `(2, integer parameter, 0, 0)` an argument, `(3, number, 0, 0)` a value that was cut off.
#[derive(Clone, Copy, PartialEq, Eq)]
pub struct LeafKey {
    pub kind: u8,
    pub first: u32,
    pub second: i64,
    pub third: u32,
}

/// An operation on one term. The two extensions are to a greater width, `Trunc` is to a lesser one.
#[derive(Clone, Copy, PartialEq, Eq)]
pub enum OneOp {
    Zext,
    Sext,
    Trunc,
    Lshr,
    Ashr,
}

/// An operation on two terms of one width; the terms under `Cat` may differ in width.
#[derive(Clone, Copy, PartialEq, Eq)]
pub enum TwoOp {
    Add,
    Mul,
    And,
    Or,
    Xor,
    Smin,
    Smax,
    Umin,
    Umax,
    Eq,
    Slt,
    Ult,
    Cat,
}

/// A term of a width of 1 to 128 bits, with a value below `2 ^ width` in each environment.
///
/// `amount` is the number of places of a shift, and 0 elsewhere. The width of a comparison is 1, that
/// of `Cat` the sum of the widths of its children, `x` above `y`. Contracts see a term as its tree.
#[derive(Drop)]
pub enum Term {
    Leaf {
        width: u32,
        key: LeafKey,
    },
    Const {
        width: u32,
        value: u128,
    },
    One {
        op: OneOp,
        width: u32,
        amount: u32,
        x: Box<Term>,
    },
    Two {
        op: TwoOp,
        width: u32,
        x: Box<Term>,
        y: Box<Term>,
    },
    Sel {
        width: u32,
        c: Box<Term>,
        x: Box<Term>,
        y: Box<Term>,
    },
}

impl Term {
    /// The width in bits. Takes one step.
    pub fn width(&self) -> u32
        ensures { result ≡ width_of (tree self.now) }
    {
        match self {
            Term::Leaf { width, .. } => *width,
            Term::Const { width, .. } => *width,
            Term::One { width, .. } => *width,
            Term::Two { width, .. } => *width,
            Term::Sel { width, .. } => *width,
        }
    }

    /// The number of nodes, or the greatest `u64` where there are more.
    pub fn node_count(&self) -> u64
        ensures { result ≡ min (node_count (tree self.now)) (2 ^ 64 - 1) }
    {
        match self {
            Term::Leaf { .. } => 1,
            Term::Const { .. } => 1,
            Term::One { x, .. } => x.node_count().saturating_add(1),
            Term::Two { x, y, .. } => {
                let below = x.node_count().saturating_add(y.node_count());
                below.saturating_add(1)
            }
            Term::Sel { c, x, y, .. } => {
                let below = x.node_count().saturating_add(y.node_count());
                below.saturating_add(c.node_count()).saturating_add(1)
            }
        }
    }

    /// The same term a second time. Fails for want of memory alone.
    pub fn copy(&self, alloc: Global) -> Result<Term, AllocError>
        ensures { IfOk result (λ term. tree term ≡ tree self.now) }
    {
        match self {
            Term::Leaf { width, key } => Ok(make_leaf(*width, *key)),
            Term::Const { width, value } => Ok(make_const(*width, *value)),
            Term::One {
                op,
                width,
                amount,
                x,
            } => {
                let x = x.copy(alloc)?;
                make_one(alloc, *op, *width, *amount, x)
            }
            Term::Two { op, width, x, y } => {
                let x = x.copy(alloc)?;
                let y = y.copy(alloc)?;
                make_two(alloc, *op, *width, x, y)
            }
            Term::Sel { width, c, x, y } => {
                let c = c.copy(alloc)?;
                let x = x.copy(alloc)?;
                let y = y.copy(alloc)?;
                make_sel(alloc, *width, c, x, y)
            }
        }
    }
}

/// A leaf.
pub fn make_leaf(width: u32, key: LeafKey) -> Term
    ensures { tree result ≡ leaf width key }
{
    Term::Leaf { width, key }
}

/// A constant.
pub fn make_const(width: u32, value: u128) -> Term
    ensures { tree result ≡ constant width value }
{
    Term::Const { width, value }
}

/// An operation on one term. Fails for want of memory alone.
pub fn make_one(
    alloc: Global,
    op: OneOp,
    width: u32,
    amount: u32,
    x: Term,
) -> Result<Term, AllocError>
    ensures { IfOk result (λ term. tree term ≡ one op width amount (tree x)) }
{
    let x = Box::new(alloc, x)?;
    Ok(Term::One {
        op,
        width,
        amount,
        x,
    })
}

/// An operation on two terms. Fails for want of memory alone.
pub fn make_two(alloc: Global, op: TwoOp, width: u32, x: Term, y: Term) -> Result<Term, AllocError>
    ensures { IfOk result (λ term. tree term ≡ two op width (tree x) (tree y)) }
{
    let x = Box::new(alloc, x)?;
    let y = Box::new(alloc, y)?;
    Ok(Term::Two { op, width, x, y })
}

/// A selection: `x` where `c` is 1, else `y`. Fails for want of memory alone.
pub fn make_sel(alloc: Global, width: u32, c: Term, x: Term, y: Term) -> Result<Term, AllocError>
    ensures { IfOk result (λ term. tree term ≡ sel width (tree c) (tree x) (tree y)) }
{
    let c = Box::new(alloc, c)?;
    let x = Box::new(alloc, x)?;
    let y = Box::new(alloc, y)?;
    Ok(Term::Sel { width, c, x, y })
}
