//! Whether units are the same.

ghost use Rattle.std.specs.Prelude.{◌≡◌};
ghost use Rattle.vg_compile.specs.SameUnits.{comparison_number, resize_number, same_address, same_operands, same_operator, same_unit, same_units, shift_number, two_number};

use vg_base::Address;
use vg_scalar::{Comparison, Resize, Shift, TwoOp};
use vg_shapes::wanted::is_same_wanted;
use vg_shapes::{Operands, Operator, SsaUnit};

fn two_number(op: TwoOp) -> u8
    ensures { result ≡ two_number op }
{
    match op {
        TwoOp::Add => 0,
        TwoOp::Sub => 1,
        TwoOp::Mul => 2,
        TwoOp::And => 3,
        TwoOp::Or => 4,
        TwoOp::Xor => 5,
        TwoOp::Smin => 6,
        TwoOp::Smax => 7,
        TwoOp::Umin => 8,
        TwoOp::Umax => 9,
    }
}

fn shift_number(op: Shift) -> u8
    ensures { result ≡ shift_number op }
{
    match op {
        Shift::Shl => 0,
        Shift::Lshr => 1,
        Shift::Ashr => 2,
    }
}

fn resize_number(op: Resize) -> u8
    ensures { result ≡ resize_number op }
{
    match op {
        Resize::Sext => 0,
        Resize::Zext => 1,
        Resize::Trunc => 2,
    }
}

fn comparison_number(op: Comparison) -> u8
    ensures { result ≡ comparison_number op }
{
    match op {
        Comparison::Eq => 0,
        Comparison::Slt => 1,
        Comparison::Ult => 2,
    }
}

fn same_operator(one: Operator, other: Operator) -> bool
    ensures { result ≡ same_operator one other }
{
    match (one, other) {
        (Operator::Two(f), Operator::Two(g)) => two_number(f) == two_number(g),
        (Operator::Shift(f), Operator::Shift(g)) => shift_number(f) == shift_number(g),
        (Operator::Resize { op: f, from: v }, Operator::Resize { op: g, from: w }) => {
            resize_number(f) == resize_number(g) && v.bits() == w.bits()
        }
        (Operator::Compare(f), Operator::Compare(g)) => {
            comparison_number(f) == comparison_number(g)
        }
        (Operator::Select, Operator::Select) => true,
        _ => false,
    }
}

fn same_operands(one: Operands, other: Operands) -> bool
    ensures { result ≡ same_operands one other }
{
    let first = is_same_wanted(one.first, other.first);
    let second = is_same_wanted(one.second, other.second);
    let third = is_same_wanted(one.third, other.third);
    first && (second && third)
}

fn same_address(one: Address, other: Address) -> bool
    ensures { result ≡ same_address one other }
{
    one.pointer == other.pointer && one.offset == other.offset
}

fn same_unit(one: SsaUnit, other: SsaUnit) -> bool
    ensures { result ≡ same_unit one other }
{
    match (one, other) {
        (
            SsaUnit::Load {
                address: a,
                width: w,
            },
            SsaUnit::Load {
                address: b,
                width: v,
            },
        ) => {
            let address = same_address(a, b);
            address && w.bits() == v.bits()
        }
        (
            SsaUnit::Store {
                address: a,
                width: w,
                value: x,
            },
            SsaUnit::Store {
                address: b,
                width: v,
                value: y,
            },
        ) => {
            let address = same_address(a, b);
            let width = w.bits() == v.bits();
            let value = is_same_wanted(x, y);
            address && (width && value)
        }
        (
            SsaUnit::Operation {
                op: f,
                width: w,
                amount: k,
                operands: xs,
            },
            SsaUnit::Operation {
                op: g,
                width: v,
                amount: l,
                operands: ys,
            },
        ) => {
            let operator = same_operator(f, g);
            let width = w.bits() == v.bits();
            let amount = k == l;
            let operands = same_operands(xs, ys);
            operator && (width && (amount && operands))
        }
        _ => false,
    }
}

/// Whether two lists of units are the same.
pub(crate) fn same_units(one: &[SsaUnit], other: &[SsaUnit]) -> bool
    ensures { result ≡ same_units one.now other.now }
{
    let mut rest = one;
    let mut others = other;
    'units: while let [unit, behind @ ..] = rest {
        match others {
            [] => return false,
            [first, more @ ..] => {
                if !same_unit(*unit, *first) {
                    return false;
                }
                rest = behind;
                others = more;
            }
        }
    }
    others.is_empty()
}
