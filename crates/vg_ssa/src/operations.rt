//! The terms of operations.

ghost use Rattle.std.specs.Prelude.{◌≡◌, ◌<◌, IfOk};
ghost use Rattle.vg_base.specs.Width.{bits_of};
ghost use Rattle.vg_canon.specs.Canonical.{IsCanonical, canonical};
ghost use Rattle.vg_shapes.specs.Sound.{IsChange};
ghost use Rattle.vg_ssa.specs.Fitting.{IsTermOf, OperandsFit};
ghost use Rattle.vg_ssa.specs.ValueTerm.{comparison_term, operation_term, resize_term, shift_term, two_term};
ghost use Rattle.vg_terms.specs.Term.{IsWidth, WellFormed, one, sel, tree, two};

use std::alloc::{AllocError, Global};
use vg_base::Width;
use vg_canon::canon_root;
use vg_scalar::{Comparison, Resize, Shift, TwoOp};
use vg_shapes::Operator;
use vg_terms::{OneOp, Term, TwoOp as TermOp, make_const, make_one, make_sel, make_two};

/// The canonical form of an operation over canonical terms. Those after the operands that it has
/// count for nothing.
pub(crate) fn operation(
    alloc: Global,
    op: Operator,
    width: Width,
    amount: u32,
    x: Term,
    y: Term,
    z: Term,
) -> Result<Term, AllocError>
    requires { OperandsFit op width amount (tree x) (tree y) (tree z) }
    ensures { IfOk result (λ t. tree t
        ≡ canonical (operation_term op (bits_of width) amount (tree x) (tree y) (tree z))) }
{
    match op {
        Operator::Two(op) => two(alloc, op, width.bits(), x, y),
        Operator::Shift(op) => shift(alloc, op, width.bits(), amount, x),
        Operator::Resize { op, from } => resize(alloc, op, width, from, x),
        Operator::Compare(op) => comparison(alloc, op, width, x, y),
        Operator::Select => selection(alloc, width.bits(), x, y, z),
    }
}

// An operation on two canonical terms.
fn settled_two(alloc: Global, op: TermOp, width: u32, x: Term, y: Term) -> Result<Term, AllocError>
    requires well_formed { WellFormed (two op width (tree x) (tree y)) }
    requires first { IsCanonical (tree x) }
    requires second { IsCanonical (tree y) }
    ensures { IfOk result (λ t. tree t ≡ canonical (two op width (tree x) (tree y))) }
{
    let t = make_two(alloc, op, width, x, y)?;
    canon_root(alloc, t)
}

// An operation on a canonical term.
fn settled_one(
    alloc: Global,
    op: OneOp,
    width: u32,
    amount: u32,
    x: Term,
) -> Result<Term, AllocError>
    requires well_formed { WellFormed (one op width amount (tree x)) }
    requires child { IsCanonical (tree x) }
    ensures { IfOk result (λ t. tree t ≡ canonical (one op width amount (tree x))) }
{
    let t = make_one(alloc, op, width, amount, x)?;
    canon_root(alloc, t)
}

fn two(alloc: Global, op: TwoOp, width: u32, x: Term, y: Term) -> Result<Term, AllocError>
    requires width { IsWidth width }
    requires first { IsTermOf width (tree x) }
    requires second { IsTermOf width (tree y) }
    ensures { IfOk result (λ t. tree t ≡ canonical (two_term op width (tree x) (tree y))) }
{
    match op {
        TwoOp::Add => settled_two(alloc, TermOp::Add, width, x, y),
        TwoOp::Sub => difference(alloc, width, x, y),
        TwoOp::Mul => settled_two(alloc, TermOp::Mul, width, x, y),
        TwoOp::And => settled_two(alloc, TermOp::And, width, x, y),
        TwoOp::Or => settled_two(alloc, TermOp::Or, width, x, y),
        TwoOp::Xor => settled_two(alloc, TermOp::Xor, width, x, y),
        TwoOp::Smin => settled_two(alloc, TermOp::Smin, width, x, y),
        TwoOp::Smax => settled_two(alloc, TermOp::Smax, width, x, y),
        TwoOp::Umin => settled_two(alloc, TermOp::Umin, width, x, y),
        TwoOp::Umax => settled_two(alloc, TermOp::Umax, width, x, y),
    }
}

// The sum with the second term times -1, which is made canonical first.
fn difference(alloc: Global, width: u32, x: Term, y: Term) -> Result<Term, AllocError>
    requires width { IsWidth width }
    requires first { IsTermOf width (tree x) }
    requires second { IsTermOf width (tree y) }
    ensures { IfOk result (λ t. tree t ≡ canonical (two_term TwoOp.Sub width (tree x) (tree y))) }
{
    let ones = make_const(width, u128::MAX >> (128 - width));
    let negative = settled_two(alloc, TermOp::Mul, width, y, ones)?;
    settled_two(alloc, TermOp::Add, width, x, negative)
}

fn shift(alloc: Global, op: Shift, width: u32, amount: u32, x: Term) -> Result<Term, AllocError>
    requires width { IsWidth width }
    requires amount { amount < width }
    requires operand { IsTermOf width (tree x) }
    ensures { IfOk result (λ t. tree t ≡ canonical (shift_term op width amount (tree x))) }
{
    match op {
        Shift::Shl => {
            let power = make_const(width, 1 << amount);
            settled_two(alloc, TermOp::Mul, width, x, power)
        }
        Shift::Lshr => settled_one(alloc, OneOp::Lshr, width, amount, x),
        Shift::Ashr => settled_one(alloc, OneOp::Ashr, width, amount, x),
    }
}

fn resize(alloc: Global, op: Resize, width: Width, from: Width, x: Term) -> Result<Term, AllocError>
    requires change { IsChange op width from }
    requires operand { IsTermOf (bits_of from) (tree x) }
    ensures { IfOk result (λ t. tree t ≡ canonical (resize_term op (bits_of width) (tree x))) }
{
    match op {
        Resize::Sext => settled_one(alloc, OneOp::Sext, width.bits(), 0, x),
        Resize::Zext => settled_one(alloc, OneOp::Zext, width.bits(), 0, x),
        Resize::Trunc => settled_one(alloc, OneOp::Trunc, width.bits(), 0, x),
    }
}

fn comparison(
    alloc: Global,
    op: Comparison,
    width: Width,
    x: Term,
    y: Term,
) -> Result<Term, AllocError>
    requires first { IsTermOf (bits_of width) (tree x) }
    requires second { IsTermOf (bits_of width) (tree y) }
    ensures { IfOk result (λ t. tree t ≡ canonical (comparison_term op (tree x) (tree y))) }
{
    match op {
        Comparison::Eq => settled_two(alloc, TermOp::Eq, 1, x, y),
        Comparison::Slt => settled_two(alloc, TermOp::Slt, 1, x, y),
        Comparison::Ult => settled_two(alloc, TermOp::Ult, 1, x, y),
    }
}

fn selection(alloc: Global, width: u32, c: Term, x: Term, y: Term) -> Result<Term, AllocError>
    requires width { IsWidth width }
    requires condition { IsTermOf 1 (tree c) }
    requires first { IsTermOf width (tree x) }
    requires second { IsTermOf width (tree y) }
    ensures { IfOk result (λ t. tree t ≡ canonical (sel width (tree c) (tree x) (tree y))) }
{
    let t = make_sel(alloc, width, c, x, y)?;
    canon_root(alloc, t)
}
