//! Known widths: how many bits the number of a term needs.

ghost use Rattle.std.specs.Prelude.{◌≡◌, ◌<◌, ◌≤◌, ◌^◌, ◌-◌, max};
ghost use Rattle.vg_terms.specs.Known.{IsKnown, cut_to, digits, known, known_at, one_known, product_signed, two_known};
ghost use Rattle.vg_terms.specs.Term.{constant, IsWidth, WellFormed, tree, width_of};
ghost use Rattle.vg_terms.specs.Value.{value};

use crate::term::{OneOp, Term, TwoOp};
use crate::value::Env;
use vg_base::number::signed;

/// Widths that hold the number of a term in every environment, each at least 1 and at most its width.
#[derive(Clone, Copy)]
pub struct Known {
    /// The number read unsigned is below `2 ^ unsigned`.
    pub unsigned: u32,
    /// The number read signed is at least `-2 ^ (signed - 1)` and below `2 ^ (signed - 1)`.
    pub signed: u32,
}

impl Term {
    /// The known widths: bits of the number read unsigned, and of the number read signed. Each is at
    /// least 1 and at most the width, and true in every environment; neither need be the least. Takes
    /// no memory, and one step a node.
    pub fn known(&self) -> (u32, u32)
        requires { WellFormed (tree self.now) }
        ensures is { known_at result.0 result.1 ≡ known (tree self.now) }
        ensures holds { (env : Env) → IsKnown (width_of (tree self.now)) (value env (tree self.now))
            (known_at result.0 result.1) }
        ensures unsigned { result.0 ≤ width_of (tree self.now) }
        ensures signed { result.1 ≤ width_of (tree self.now) }
    {
        let known = widths_of(self);
        (known.unsigned, known.signed)
    }
}

fn widths_of(t: &Term) -> Known
    requires { WellFormed (tree t.now) }
    ensures is { result ≡ known (tree t.now) }
    ensures unsigned { result.unsigned ≤ width_of (tree t.now) }
    ensures signed { result.signed ≤ width_of (tree t.now) }
{
    match t {
        Term::Leaf { width, .. } => cut(*width, *width, *width),
        Term::Const { width, value } => known_const(*width, *value),
        Term::One {
            op,
            width,
            amount,
            x,
        } => {
            let known = widths_of(x);
            known_one(*op, *width, *amount, x.width(), known)
        }
        Term::Two { op, width, x, y } => {
            let first = widths_of(x);
            let second = widths_of(y);
            known_two(*op, *width, y.width(), first, second)
        }
        Term::Sel { width, x, y, .. } => {
            let first = widths_of(x);
            let second = widths_of(y);
            cut(
                *width,
                first.unsigned.max(second.unsigned),
                first.signed.max(second.signed),
            )
        }
    }
}

// Widths of no more than w, where 2 ^ unsigned is a bound.
fn cut(w: u32, unsigned: u32, signed: u32) -> Known
    requires { w ≤ 128 }
    ensures { result ≡ cut_to w (known_at unsigned signed) }
{
    let unsigned = unsigned.min(w);
    let signed = signed.min(w).min(unsigned + 1);
    Known { unsigned, signed }
}

// The digits of a number in binary.
fn digits_of(n: u128) -> u32
    ensures is { result ≡ digits n }
    ensures most { result ≤ 128 }
{
    128 - n.leading_zeros()
}

fn known_const(w: u32, v: u128) -> Known
    requires width { IsWidth w }
    requires number { v < 2 ^ w }
    ensures { result ≡ known (constant w v) }
{
    let number = signed(v, w);
    let beside_sign = if number < 0 { !number } else { number };
    cut(w, digits_of(v).max(1), digits_of(beside_sign as u128) + 1)
}

// Of an operation of width w and amount k on a term of width m.
fn known_one(op: OneOp, w: u32, k: u32, m: u32, x: Known) -> Known
    requires width { IsWidth w }
    requires unsigned { x.unsigned ≤ 128 }
    requires signed { x.signed ≤ 128 }
    ensures { result ≡ cut_to w (one_known op w k m x) }
{
    let wide = x.unsigned >= m;
    match op {
        OneOp::Zext => cut(w, x.unsigned, x.unsigned + 1),
        OneOp::Sext => cut(w, if wide { w } else { x.unsigned }, x.signed),
        OneOp::Trunc => cut(w, x.unsigned, x.signed),
        OneOp::Lshr => cut(w, fewer(x.unsigned, k), w),
        OneOp::Ashr => {
            let unsigned = if x.unsigned < w {
                fewer(x.unsigned, k)
            } else {
                w
            };
            cut(w, unsigned, fewer(x.signed, k))
        }
    }
}

// k bits fewer, and at least 1.
fn fewer(bits: u32, k: u32) -> u32
    ensures { result ≡ max 1 (bits - k) }
{
    bits.saturating_sub(k).max(1)
}

// Of an operation of width w on two terms, the second of width n.
fn known_two(op: TwoOp, w: u32, n: u32, x: Known, y: Known) -> Known
    requires width { IsWidth w }
    requires second { n ≤ 128 }
    requires x_unsigned { x.unsigned ≤ 128 }
    requires x_signed { x.signed ≤ 128 }
    requires y_unsigned { y.unsigned ≤ 128 }
    requires y_signed { y.signed ≤ 128 }
    ensures { result ≡ cut_to w (two_known op w n x y) }
{
    let unsigned = x.unsigned.max(y.unsigned);
    let signed = x.signed.max(y.signed);
    match op {
        TwoOp::Add => cut(w, unsigned + 1, signed + 1),
        TwoOp::Mul => cut(w, x.unsigned + y.unsigned, signed_of_product(x, y)),
        TwoOp::And => cut(w, x.unsigned.min(y.unsigned), signed),
        TwoOp::Or => cut(w, unsigned, signed),
        TwoOp::Xor => cut(w, unsigned, signed),
        TwoOp::Smin => cut(w, unsigned, signed),
        TwoOp::Smax => cut(w, unsigned, signed),
        TwoOp::Umin => cut(w, x.unsigned.min(y.unsigned), w),
        TwoOp::Umax => cut(w, unsigned, w),
        TwoOp::Eq => cut(w, w, w),
        TwoOp::Slt => cut(w, w, w),
        TwoOp::Ult => cut(w, w, w),
        TwoOp::Cat => cut(w, n + x.unsigned, n + x.signed),
    }
}

fn signed_of_product(x: Known, y: Known) -> u32
    requires x_unsigned { x.unsigned ≤ 128 }
    requires x_signed { x.signed ≤ 128 }
    requires y_unsigned { y.unsigned ≤ 128 }
    requires y_signed { y.signed ≤ 128 }
    ensures { result ≡ product_signed x y }
{
    let mixed = (x.signed + y.unsigned).min(x.unsigned + y.signed);
    (x.signed + y.signed).min(mixed)
}
