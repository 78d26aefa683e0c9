//! The terms of operations, as they are put together.

ghost use Rattle.std.specs.Prelude.{◌≡◌, IfOk};
ghost use Rattle.vg_base.specs.Width.{bits_of};
ghost use Rattle.vg_ssa.specs.ValueTerm.{comparison_term, operation_term, resize_term, shift_term, two_term};
ghost use Rattle.vg_terms.specs.Term.{one, tree, two};

use std::alloc::{AllocError, Global};
use vg_base::Width;
use vg_scalar::{Comparison, Resize, Shift, TwoOp};
use vg_shapes::Operator;
use vg_terms::{OneOp, Term, TwoOp as TermOp, make_const, make_one, make_sel, make_two};

/// The term of an operation of a width and an amount on three terms; those after the operands that it has
/// count for nothing. Fails for want of memory, also where an amount is 128 or more, which no shift has.
pub(crate) fn operation_term(
    alloc: Global,
    op: Operator,
    width: Width,
    amount: u32,
    x: &Term,
    y: &Term,
    z: &Term,
) -> Result<Term, AllocError>
    ensures { IfOk result (λ t. tree t
        ≡ operation_term op (bits_of width) amount (tree x.now) (tree y.now) (tree z.now)) }
{
    match op {
        Operator::Two(op) => two_term(alloc, op, width, x, y),
        Operator::Shift(op) => shift_term(alloc, op, width.bits(), amount, x),
        Operator::Resize { op, .. } => resize_term(alloc, op, width.bits(), x),
        Operator::Compare(op) => comparison_term(alloc, op, x, y),
        Operator::Select => selection(alloc, width.bits(), x, y, z),
    }
}

// An operation over copies of two terms.
fn pair(alloc: Global, op: TermOp, width: u32, x: &Term, y: &Term) -> Result<Term, AllocError>
    ensures { IfOk result (λ t. tree t ≡ two op width (tree x.now) (tree y.now)) }
{
    let x = x.copy(alloc)?;
    let y = y.copy(alloc)?;
    make_two(alloc, op, width, x, y)
}

// An operation over a copy of a term.
fn single(alloc: Global, op: OneOp, width: u32, amount: u32, x: &Term) -> Result<Term, AllocError>
    ensures { IfOk result (λ t. tree t ≡ one op width amount (tree x.now)) }
{
    let x = x.copy(alloc)?;
    make_one(alloc, op, width, amount, x)
}

fn two_term(alloc: Global, op: TwoOp, width: Width, x: &Term, y: &Term) -> Result<Term, AllocError>
    ensures { IfOk result (λ t. tree t ≡ two_term op (bits_of width) (tree x.now) (tree y.now)) }
{
    let bits = width.bits();
    match op {
        TwoOp::Add => pair(alloc, TermOp::Add, bits, x, y),
        TwoOp::Sub => difference(alloc, width, x, y),
        TwoOp::Mul => pair(alloc, TermOp::Mul, bits, x, y),
        TwoOp::And => pair(alloc, TermOp::And, bits, x, y),
        TwoOp::Or => pair(alloc, TermOp::Or, bits, x, y),
        TwoOp::Xor => pair(alloc, TermOp::Xor, bits, x, y),
        TwoOp::Smin => pair(alloc, TermOp::Smin, bits, x, y),
        TwoOp::Smax => pair(alloc, TermOp::Smax, bits, x, y),
        TwoOp::Umin => pair(alloc, TermOp::Umin, bits, x, y),
        TwoOp::Umax => pair(alloc, TermOp::Umax, bits, x, y),
    }
}

// The sum with the second term times -1.
fn difference(alloc: Global, width: Width, x: &Term, y: &Term) -> Result<Term, AllocError>
    ensures { IfOk result (λ t. tree t ≡ two_term TwoOp.Sub (bits_of width) (tree x.now) (tree
        y.now)) }
{
    let bits = width.bits();
    let ones = make_const(bits, u128::MAX >> (128 - bits));
    let second = y.copy(alloc)?;
    let negative = make_two(alloc, TermOp::Mul, bits, second, ones)?;
    let first = x.copy(alloc)?;
    make_two(alloc, TermOp::Add, bits, first, negative)
}

fn shift_term(
    alloc: Global,
    op: Shift,
    width: u32,
    amount: u32,
    x: &Term,
) -> Result<Term, AllocError>
    ensures { IfOk result (λ t. tree t ≡ shift_term op width amount (tree x.now)) }
{
    match op {
        Shift::Shl => product(alloc, width, amount, x),
        Shift::Lshr => single(alloc, OneOp::Lshr, width, amount, x),
        Shift::Ashr => single(alloc, OneOp::Ashr, width, amount, x),
    }
}

// The product with a power of 2.
fn product(alloc: Global, width: u32, amount: u32, x: &Term) -> Result<Term, AllocError>
    ensures { IfOk result (λ t. tree t ≡ shift_term Shift.Shl width amount (tree x.now)) }
{
    if amount >= 128 {
        return Err(AllocError);
    }
    let power = make_const(width, 1 << amount);
    let x = x.copy(alloc)?;
    make_two(alloc, TermOp::Mul, width, x, power)
}

fn resize_term(alloc: Global, op: Resize, width: u32, x: &Term) -> Result<Term, AllocError>
    ensures { IfOk result (λ t. tree t ≡ resize_term op width (tree x.now)) }
{
    match op {
        Resize::Sext => single(alloc, OneOp::Sext, width, 0, x),
        Resize::Zext => single(alloc, OneOp::Zext, width, 0, x),
        Resize::Trunc => single(alloc, OneOp::Trunc, width, 0, x),
    }
}

fn comparison_term(alloc: Global, op: Comparison, x: &Term, y: &Term) -> Result<Term, AllocError>
    ensures { IfOk result (λ t. tree t ≡ comparison_term op (tree x.now) (tree y.now)) }
{
    match op {
        Comparison::Eq => pair(alloc, TermOp::Eq, 1, x, y),
        Comparison::Slt => pair(alloc, TermOp::Slt, 1, x, y),
        Comparison::Ult => pair(alloc, TermOp::Ult, 1, x, y),
    }
}

fn selection(alloc: Global, width: u32, c: &Term, x: &Term, y: &Term) -> Result<Term, AllocError>
    ensures { IfOk result (λ t. tree t ≡ operation_term Operator.Select width 0 (tree c.now) (tree
        x.now) (tree y.now)) }
{
    let c = c.copy(alloc)?;
    let x = x.copy(alloc)?;
    let y = y.copy(alloc)?;
    make_sel(alloc, width, c, x, y)
}
