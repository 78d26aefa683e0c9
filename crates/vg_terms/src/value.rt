//! The value of a term in an environment.

ghost use Rattle.std.specs.Prelude.{◌≡◌, ◌<◌, ◌%◌, ◌^◌, int_lt, if◌then◌else◌};
ghost use Rattle.vg_base.specs.Bits.{signed_at};
ghost use Rattle.vg_terms.specs.Term.{IsWidth, OneFits, TwoFits, WellFormed, tree, width_of};
ghost use Rattle.vg_terms.specs.Value.{number_at, one_value, same_key, two_value, value};

use crate::term::{LeafKey, OneOp, Term, TwoOp};
use vg_base::Items;
use vg_base::number::{low_bits, signed, unsigned};

/// What the leaves stand for: pairs of a key and a number. Of two pairs with one key the first
/// counts, and a key that is missing means 0.
#[derive(Drop)]
pub struct Env {
    pub pairs: Items<(LeafKey, u128)>,
}

impl Env {
    /// The number of a key.
    pub fn number(&self, key: LeafKey) -> u128
        ensures { result ≡ number_at self.now.pairs key }
    {
        let mut rest = self.pairs.as_slice();
        'pairs: while let [pair, behind @ ..] = rest {
            if is_same(pair.0, key) {
                return pair.1;
            }
            rest = behind;
        }
        0
    }
}

impl Term {
    /// The value in an environment, below `2 ^ width`. Takes no memory.
    pub fn value(&self, env: &Env) -> u128
        requires { WellFormed (tree self.now) }
        ensures is { result ≡ value env.now (tree self.now) }
        ensures below { result < 2 ^ width_of (tree self.now) }
    {
        match self {
            Term::Leaf { width, key } => low_bits(env.number(*key), *width),
            Term::Const { value, .. } => *value,
            Term::One {
                op,
                width,
                amount,
                x,
            } => {
                let number = x.value(env);
                value_of_one(*op, *width, *amount, x.width(), number)
            }
            Term::Two { op, width, x, y } => {
                let first = x.value(env);
                let second = y.value(env);
                value_of_two(*op, *width, x.width(), y.width(), first, second)
            }
            Term::Sel { c, x, y, .. } => {
                if c.value(env) == 1 {
                    x.value(env)
                } else {
                    y.value(env)
                }
            }
        }
    }
}

/// The value of an operation on the number of a term of width `child_width`.
pub fn value_of_one(op: OneOp, width: u32, amount: u32, child_width: u32, number: u128) -> u128
    requires width { IsWidth width }
    requires child { IsWidth child_width }
    requires fits { OneFits op width amount child_width }
    requires number { number < 2 ^ child_width }
    ensures is { result ≡ one_value op width amount child_width number }
    ensures below { result < 2 ^ width }
{
    match op {
        OneOp::Zext => number,
        OneOp::Sext => unsigned(signed(number, child_width), width),
        OneOp::Trunc => low_bits(number, width),
        OneOp::Lshr => number >> amount,
        OneOp::Ashr => unsigned(signed(number, width) >> amount, width),
    }
}

/// The value of an operation on the numbers of two terms.
pub fn value_of_two(
    op: TwoOp,
    width: u32,
    first_width: u32,
    second_width: u32,
    first: u128,
    second: u128,
) -> u128
    requires width { IsWidth width }
    requires first { IsWidth first_width }
    requires second { IsWidth second_width }
    requires fits { TwoFits op width first_width second_width }
    requires first_number { first < 2 ^ first_width }
    requires second_number { second < 2 ^ second_width }
    ensures is { result ≡ two_value op width second_width first second }
    ensures below { result < 2 ^ width }
{
    match op {
        TwoOp::Add => low_bits(first.wrapping_add(second), width),
        TwoOp::Mul => low_bits(first.wrapping_mul(second), width),
        TwoOp::And => first & second,
        TwoOp::Or => first | second,
        TwoOp::Xor => first ^ second,
        TwoOp::Smin => if is_less_signed(second_width, first, second) {
            first
        } else {
            second
        },
        TwoOp::Smax => if is_less_signed(second_width, first, second) {
            second
        } else {
            first
        },
        TwoOp::Umin => first.min(second),
        TwoOp::Umax => first.max(second),
        TwoOp::Eq => bit(first == second),
        TwoOp::Slt => bit(is_less_signed(second_width, first, second)),
        TwoOp::Ult => bit(first < second),
        TwoOp::Cat => (first << second_width) + second,
    }
}

// 1 where it holds, else 0.
fn bit(holds: bool) -> u128
    ensures { result ≡ (if holds then 1 else 0) }
{
    if holds { 1 } else { 0 }
}

// Whether the first is less, both read in two's complement.
fn is_less_signed(width: u32, first: u128, second: u128) -> bool
    requires width { IsWidth width }
    requires first { first < 2 ^ width }
    requires second { second < 2 ^ width }
    ensures { result ≡ int_lt (signed_at width first) (signed_at width second) }
{
    signed(first, width) < signed(second, width)
}

fn is_same(first: LeafKey, second: LeafKey) -> bool
    ensures { result ≡ same_key first second }
{
    first.kind == second.kind
        && first.first == second.first
        && first.second == second.second
        && first.third == second.third
}
