//! The sums of terms.

ghost use Rattle.std.specs.Prelude.{◌≡◌, ◌≤◌, ◌<◌, ◌-◌, ◌^◌, IfSome};
ghost use Rattle.vg_terms.specs.Known.{digits};
ghost use Rattle.vg_terms.specs.Term.{IsWidth, OneFits, TwoFits, WellFormed, tree};
ghost use Rattle.vg_sums.specs.Gives.{Gives};
ghost use Rattle.vg_sums.specs.Sums.{nothing, polynomial};
ghost use Rattle.vg_sums.specs.Terms.{bitwise, both, by_signed, by_unsigned, choice_sum, greatest, is_equal, is_less, joined_bits, least, masked, one_sum, ones, ones_of, read_sum, sum_of, two_sum, unequal};

use crate::arithmetic::{add, negated, scale, subtract};
use crate::choices::{complement, negative, positive, selected, zero};
use crate::kind::Kind;
use crate::lost::Lost;
use crate::number::power;
use crate::products::product;
use crate::readings::{floored, signed, unsigned};
use crate::span::shows_truth;
use crate::span_of::span_of;
use crate::sum::{Sum, bounded, make_atom, make_number};
use std::alloc::Global;
use vg_base::number;
use vg_terms::{OneOp, Term, TwoOp};

// The digits of a number in binary.
fn digits_of(n: u128) -> u32
    ensures is { result ≡ digits n }
    ensures most { result ≤ 128 }
{
    128 - n.leading_zeros()
}

fn ones(v: u128) -> Option<u32>
    ensures is { result ≡ ones v }
    ensures some { IfSome result (λ k. 1 ≤ k) }
{
    if 0 < v && v == number::greatest(digits_of(v)) {
        Some(digits_of(v))
    } else {
        None
    }
}

fn ones_of(width: u32, p: &Sum) -> Option<u32>
    requires { IsWidth width }
    ensures is { result ≡ ones_of width (polynomial p.now) }
    ensures some { IfSome result (λ k. 1 ≤ k) }
{
    match p {
        Sum::Number(z) => ones(number::unsigned(*z, width)),
        Sum::Plus { .. } => None,
    }
}

fn bitwise(alloc: Global, op: TwoOp, width: u32, p: &Sum, q: &Sum) -> Result<Sum, Lost>
    requires { IsWidth width }
    ensures { Gives result (bitwise op width (polynomial p.now) (polynomial q.now)) }
{
    if width > 126 {
        return Err(Lost::Past);
    }
    let a = unsigned(alloc, width, p)?;
    let b = unsigned(alloc, width, q)?;
    let c = scale(alloc, power(width), &a)?;
    let d = add(alloc, &c, &b)?;
    make_atom(alloc, Kind::Bitwise { op, width }, d)
}

fn masked(alloc: Global, width: u32, p: &Sum, q: &Sum) -> Result<Sum, Lost>
    requires { IsWidth width }
    ensures { Gives result (masked width (polynomial p.now) (polynomial q.now)) }
{
    let m = signed(alloc, width, q)?;
    let n = negated(alloc, &m)?;
    if shows_truth(span_of(&n)) {
        product(alloc, &n, p)
    } else {
        bitwise(alloc, TwoOp::And, width, p, q)
    }
}

fn both(alloc: Global, width: u32, p: &Sum, q: &Sum) -> Result<Sum, Lost>
    requires { IsWidth width }
    ensures { Gives result (both width (polynomial p.now) (polynomial q.now)) }
{
    match ones_of(width, q) {
        Some(k) => unsigned(alloc, k, p),
        None => masked(alloc, width, p, q),
    }
}

fn unequal(alloc: Global, width: u32, p: &Sum, q: &Sum) -> Result<Sum, Lost>
    requires { IsWidth width }
    ensures { Gives result (unequal width (polynomial p.now) (polynomial q.now)) }
{
    match ones_of(width, q) {
        Some(k) => {
            if k == width {
                complement(alloc, p)
            } else {
                bitwise(alloc, TwoOp::Xor, width, p, q)
            }
        }
        None => bitwise(alloc, TwoOp::Xor, width, p, q),
    }
}

fn least(alloc: Global, a: &Sum, b: &Sum) -> Result<Sum, Lost>
    ensures { Gives result (least (polynomial a.now) (polynomial b.now)) }
{
    let d = subtract(alloc, b, a)?;
    let e = positive(alloc, &d)?;
    subtract(alloc, b, &e)
}

fn greatest(alloc: Global, a: &Sum, b: &Sum) -> Result<Sum, Lost>
    ensures { Gives result (greatest (polynomial a.now) (polynomial b.now)) }
{
    let d = subtract(alloc, b, a)?;
    let e = positive(alloc, &d)?;
    add(alloc, a, &e)
}

fn is_less(alloc: Global, a: &Sum, b: &Sum) -> Result<Sum, Lost>
    ensures { Gives result (is_less (polynomial a.now) (polynomial b.now)) }
{
    let d = subtract(alloc, a, b)?;
    negative(alloc, &d)
}

fn is_equal(alloc: Global, a: &Sum, b: &Sum) -> Result<Sum, Lost>
    ensures { Gives result (is_equal (polynomial a.now) (polynomial b.now)) }
{
    let d = subtract(alloc, a, b)?;
    zero(alloc, &d)
}

fn one_sum(
    alloc: Global,
    op: OneOp,
    width: u32,
    amount: u32,
    below: u32,
    p: &Sum,
) -> Result<Sum, Lost>
    requires { IsWidth below }
    ensures { Gives result (one_sum op width amount below (polynomial p.now)) }
{
    match op {
        OneOp::Zext => unsigned(alloc, below, p),
        OneOp::Sext => signed(alloc, below, p),
        OneOp::Trunc => p.copy(alloc),
        OneOp::Lshr => {
            let a = unsigned(alloc, below, p)?;
            floored(alloc, amount, &a)
        }
        OneOp::Ashr => {
            let a = signed(alloc, below, p)?;
            floored(alloc, amount, &a)
        }
    }
}

fn joined_bits(alloc: Global, below: u32, p: &Sum, q: &Sum) -> Result<Sum, Lost>
    requires { IsWidth below }
    ensures { Gives result (joined_bits below (polynomial p.now) (polynomial q.now)) }
{
    if below > 126 {
        return Err(Lost::Past);
    }
    let b = unsigned(alloc, below, q)?;
    let a = scale(alloc, power(below), p)?;
    add(alloc, &a, &b)
}

// An operation on two sums read unsigned.
fn by_unsigned(alloc: Global, op: TwoOp, below: u32, p: &Sum, q: &Sum) -> Result<Sum, Lost>
    requires { IsWidth below }
    ensures { Gives result (by_unsigned op below (polynomial p.now) (polynomial q.now)) }
{
    let a = unsigned(alloc, below, p)?;
    let b = unsigned(alloc, below, q)?;
    read_sum(alloc, op, &a, &b)
}

// The same, read signed.
fn by_signed(alloc: Global, op: TwoOp, below: u32, p: &Sum, q: &Sum) -> Result<Sum, Lost>
    requires { IsWidth below }
    ensures { Gives result (by_signed op below (polynomial p.now) (polynomial q.now)) }
{
    let a = signed(alloc, below, p)?;
    let b = signed(alloc, below, q)?;
    read_sum(alloc, op, &a, &b)
}

// An operation that compares two numbers.
fn read_sum(alloc: Global, op: TwoOp, a: &Sum, b: &Sum) -> Result<Sum, Lost>
    ensures { Gives result (read_sum op (polynomial a.now) (polynomial b.now)) }
{
    match op {
        TwoOp::Smin => least(alloc, a, b),
        TwoOp::Umin => least(alloc, a, b),
        TwoOp::Smax => greatest(alloc, a, b),
        TwoOp::Umax => greatest(alloc, a, b),
        TwoOp::Slt => is_less(alloc, a, b),
        TwoOp::Ult => is_less(alloc, a, b),
        TwoOp::Eq => is_equal(alloc, a, b),
        _ => Err(Lost::Past),
    }
}

fn two_sum(alloc: Global, op: TwoOp, width: u32, below: u32, p: &Sum, q: &Sum) -> Result<Sum, Lost>
    requires width { IsWidth width }
    requires below { IsWidth below }
    ensures { Gives result (two_sum op width below (polynomial p.now) (polynomial q.now)) }
{
    match op {
        TwoOp::Add => add(alloc, p, q),
        TwoOp::Mul => product(alloc, p, q),
        TwoOp::And => both(alloc, width, p, q),
        TwoOp::Or => bitwise(alloc, TwoOp::Or, width, p, q),
        TwoOp::Xor => unequal(alloc, width, p, q),
        TwoOp::Smin => by_signed(alloc, op, below, p, q),
        TwoOp::Smax => by_signed(alloc, op, below, p, q),
        TwoOp::Umin => by_unsigned(alloc, op, below, p, q),
        TwoOp::Umax => by_unsigned(alloc, op, below, p, q),
        TwoOp::Eq => by_unsigned(alloc, op, below, p, q),
        TwoOp::Slt => by_signed(alloc, op, below, p, q),
        TwoOp::Ult => by_unsigned(alloc, op, below, p, q),
        TwoOp::Cat => joined_bits(alloc, below, p, q),
    }
}

fn choice_sum(alloc: Global, c: &Sum, p: &Sum, q: &Sum) -> Result<Sum, Lost>
    ensures { Gives result (choice_sum (polynomial c.now) (polynomial p.now) (polynomial q.now)) }
{
    let b = unsigned(alloc, 1, c)?;
    selected(alloc, &b, p, q)
}

/// The sum of a term, unless a bound is passed.
pub(crate) fn sum_of(alloc: Global, t: &Term) -> Result<Sum, Lost>
    requires { WellFormed (tree t.now) }
    ensures { Gives result (sum_of (tree t.now)) }
{
    match t {
        Term::Leaf { width, key } => make_atom(
            alloc,
            Kind::Leaf {
                width: *width,
                key: *key,
            },
            make_number(0),
        ),
        Term::Const { width, value } => Ok(make_number(number::signed(*value, *width))),
        Term::One {
            op,
            width,
            amount,
            x,
        } => {
            let p = sum_of(alloc, x)?;
            let s = one_sum(alloc, *op, *width, *amount, x.width(), &p)?;
            bounded(s)
        }
        Term::Two { op, width, x, y } => {
            let p = sum_of(alloc, x)?;
            let q = sum_of(alloc, y)?;
            let s = two_sum(alloc, *op, *width, y.width(), &p, &q)?;
            bounded(s)
        }
        Term::Sel { c, x, y, .. } => {
            let b = sum_of(alloc, c)?;
            let p = sum_of(alloc, x)?;
            let q = sum_of(alloc, y)?;
            let s = choice_sum(alloc, &b, &p, &q)?;
            bounded(s)
        }
    }
}
