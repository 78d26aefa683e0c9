//! Whether a term is well-formed.

ghost use Rattle.std.specs.Prelude.{◌≡◌, ◌↔◌, ◌^◌, IsTrue, nat_lt};
ghost use Rattle.vg_terms.specs.Term.{IsWidth, WellFormed, is_width, one_fits, sel_fits, tree, two_fits, well_formed};

use crate::term::{OneOp, Term, TwoOp};
use vg_base::number::greatest;

impl Term {
    /// Whether the term and all its subterms keep the widths and bounds of their operations: a width of
    /// 1 to 128, a constant below `2 ^ width`, extensions to more bits and truncations to fewer, a shift
    /// by less than the width, equal widths below the other operations, and a condition of one bit.
    pub fn is_well_formed(&self) -> bool
        ensures { IsTrue result ↔ WellFormed (tree self.now) }
    {
        is_formed(self)
    }
}

fn is_formed(t: &Term) -> bool
    ensures { result ≡ well_formed (tree t.now) }
{
    match t {
        Term::Leaf { width, .. } => is_width_of_term(*width),
        Term::Const { width, value } => is_width_of_term(*width) && is_below(*width, *value),
        Term::One {
            op,
            width,
            amount,
            x,
        } => {
            is_width_of_term(*width)
                && does_one_fit(*op, *width, *amount, x.width())
                && is_formed(x)
        }
        Term::Two { op, width, x, y } => {
            is_width_of_term(*width)
                && do_two_fit(*op, *width, x.width(), y.width())
                && is_formed(x)
                && is_formed(y)
        }
        Term::Sel { width, c, x, y } => {
            is_width_of_term(*width)
                && does_choice_fit(*width, c.width(), x.width(), y.width())
                && is_formed(c)
                && is_formed(x)
                && is_formed(y)
        }
    }
}

fn is_width_of_term(w: u32) -> bool
    ensures { result ≡ is_width w }
{
    0 < w && w <= 128
}

fn is_below(w: u32, v: u128) -> bool
    requires { IsWidth w }
    ensures { result ≡ nat_lt v (2 ^ w) }
{
    v <= greatest(w)
}

// An operation of width w and amount k on a term of width m.
fn does_one_fit(op: OneOp, w: u32, k: u32, m: u32) -> bool
    ensures { result ≡ one_fits op w k m }
{
    match op {
        OneOp::Zext => m < w && k == 0,
        OneOp::Sext => m < w && k == 0,
        OneOp::Trunc => w < m && k == 0,
        OneOp::Lshr => m == w && k < w,
        OneOp::Ashr => m == w && k < w,
    }
}

// An operation of width w on terms of widths m and n.
fn do_two_fit(op: TwoOp, w: u32, m: u32, n: u32) -> bool
    ensures { result ≡ two_fits op w m n }
{
    match op {
        TwoOp::Eq => w == 1 && m == n,
        TwoOp::Slt => w == 1 && m == n,
        TwoOp::Ult => w == 1 && m == n,
        TwoOp::Cat => w as u64 == m as u64 + n as u64,
        _ => m == w && n == w,
    }
}

// A choice of width w by a term of width c between terms of widths m and n.
fn does_choice_fit(w: u32, c: u32, m: u32, n: u32) -> bool
    ensures { result ≡ sel_fits w c m n }
{
    c == 1 && m == w && n == w
}
