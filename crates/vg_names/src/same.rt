//! Whether two expressions are one text, but for parentheses and for how numbers are spelled.

ghost use Rattle.std.specs.Prelude.{◌≡◌};
ghost use Rattle.vg_pseudo.specs.Resolve.{spread};
ghost use Rattle.vg_pseudo.specs.Same.{same_width, same_unary, same_binary, same, all_same};
ghost use Rattle.vg_names.specs.Naming.{spread_by};
ghost use Rattle.vg_pseudo.specs.Tree.{binary, bit, call, choice, element, expression_of, arguments_of, number, part, slice, unary};
ghost use Rattle.vg_pseudo.specs.Tree as tree;
ghost use Rattle.vg_pseudo.specs.declared.spot.Spot.{Spot};

use vg_base::Width;
use vg_pseudo::{Arguments, BinaryOp, Expr, UnaryOp};
use vg_text::byte::is_text;

pub(crate) fn same_width(first: Width, second: Width) -> bool
    ensures { result ≡ same_width first second }
{
    first.bits() == second.bits()
}

fn same_unary(first: UnaryOp, second: UnaryOp) -> bool
    ensures { result ≡ same_unary first second }
{
    match (first, second) {
        (UnaryOp::Not, UnaryOp::Not) => true,
        (UnaryOp::Negate, UnaryOp::Negate) => true,
        (UnaryOp::Absolute, UnaryOp::Absolute) => true,
        (UnaryOp::Signed, UnaryOp::Signed) => true,
        (UnaryOp::SignExtend(v), UnaryOp::SignExtend(w)) => same_width(v, w),
        (UnaryOp::ZeroExtend(v), UnaryOp::ZeroExtend(w)) => same_width(v, w),
        (UnaryOp::Saturate(v), UnaryOp::Saturate(w)) => same_width(v, w),
        (UnaryOp::SaturateUnsigned(v), UnaryOp::SaturateUnsigned(w)) => same_width(v, w),
        (UnaryOp::Truncate(v), UnaryOp::Truncate(w)) => same_width(v, w),
        _ => false,
    }
}

fn same_binary(first: BinaryOp, second: BinaryOp) -> bool
    ensures { result ≡ same_binary first second }
{
    match (first, second) {
        (BinaryOp::Or, BinaryOp::Or) => true,
        (BinaryOp::Xor, BinaryOp::Xor) => true,
        (BinaryOp::And, BinaryOp::And) => true,
        (BinaryOp::Equal, BinaryOp::Equal) => true,
        (BinaryOp::NotEqual, BinaryOp::NotEqual) => true,
        (BinaryOp::Less, BinaryOp::Less) => true,
        (BinaryOp::LessOrEqual, BinaryOp::LessOrEqual) => true,
        (BinaryOp::Greater, BinaryOp::Greater) => true,
        (BinaryOp::GreaterOrEqual, BinaryOp::GreaterOrEqual) => true,
        (BinaryOp::ShiftLeft, BinaryOp::ShiftLeft) => true,
        (BinaryOp::ShiftRight, BinaryOp::ShiftRight) => true,
        (BinaryOp::Add, BinaryOp::Add) => true,
        (BinaryOp::Subtract, BinaryOp::Subtract) => true,
        (BinaryOp::Multiply, BinaryOp::Multiply) => true,
        (BinaryOp::Minimum, BinaryOp::Minimum) => true,
        (BinaryOp::Maximum, BinaryOp::Maximum) => true,
        _ => false,
    }
}

/// Whether two expressions are one text, but for parentheses and for how numbers are spelled.
#[cycle(same)]
pub(crate) fn same(first: &Expr, second: &Expr) -> bool
    ensures { result ≡ same (expression_of first.now) (expression_of second.now) }
{
    match first {
        Expr::Number { value, .. } => is_number(second, *value),
        Expr::Name { name, .. } => is_name(second, name.bytes()),
        Expr::Slice {
            name,
            high,
            low,
            ..
        } => is_slice(second, name.bytes(), high, low),
        Expr::Bit { name, index, .. } => is_bit(second, name.bytes(), index),
        Expr::Element {
            name,
            size,
            index,
            ..
        } => is_element(second, name.bytes(), *size, index),
        Expr::Part { name, size, .. } => is_part(second, name.bytes(), *size),
        Expr::Unary { op, operand, .. } => is_unary(second, *op, operand),
        Expr::Binary {
            op,
            left,
            right,
            ..
        } => is_binary(second, *op, left, right),
        Expr::Choice {
            condition,
            first: x,
            second: y,
            ..
        } => is_choice(second, condition, x, y),
        Expr::Call {
            name,
            arguments,
            ..
        } => is_call(second, name.bytes(), arguments),
    }
}

/// Whether an expression is this number.
fn is_number(expr: &Expr, value: u128) -> bool
    ensures { (spot : Spot) → result ≡ same (number spot value) (expression_of expr.now) }
{
    match expr {
        Expr::Number { value: n, .. } => value == *n,
        _ => false,
    }
}

/// Whether an expression is this name.
fn is_name(expr: &Expr, name: &[u8]) -> bool
    ensures { (spot : Spot) → result ≡ same (tree.name spot name.now) (expression_of expr.now) }
{
    match expr {
        Expr::Name { name: n, .. } => is_text(name, n.bytes()),
        _ => false,
    }
}

/// Whether an expression is `name[high:low]`.
#[cycle(same)]
fn is_slice(expr: &Expr, name: &[u8], high: &Expr, low: &Expr) -> bool
    ensures { (spot : Spot) → result ≡ same (slice spot name.now (expression_of high.now)
        (expression_of low.now)) (expression_of expr.now) }
{
    match expr {
        Expr::Slice {
            name: n,
            high: h,
            low: l,
            ..
        } => is_text(name, n.bytes()) && same(high, h) && same(low, l),
        _ => false,
    }
}

/// Whether an expression is `name[index]`.
#[cycle(same)]
fn is_bit(expr: &Expr, name: &[u8], index: &Expr) -> bool
    ensures { (spot : Spot) → result ≡ same (bit spot name.now (expression_of index.now))
        (expression_of expr.now) }
{
    match expr {
        Expr::Bit {
            name: n,
            index: k,
            ..
        } => is_text(name, n.bytes()) && same(index, k),
        _ => false,
    }
}

/// Whether an expression is `name.elem[index]`, with elements of this size.
#[cycle(same)]
fn is_element(expr: &Expr, name: &[u8], size: Width, index: &Expr) -> bool
    ensures { (spot : Spot) → result ≡ same (element spot name.now size (expression_of index.now))
        (expression_of expr.now) }
{
    match expr {
        Expr::Element {
            name: n,
            size: w,
            index: k,
            ..
        } => is_text(name, n.bytes()) && same_width(size, *w) && same(index, k),
        _ => false,
    }
}

/// Whether an expression is `name.elem`, with elements of this size.
fn is_part(expr: &Expr, name: &[u8], size: Width) -> bool
    ensures { (spot : Spot) → result ≡ same (part spot name.now size) (expression_of expr.now) }
{
    match expr {
        Expr::Part {
            name: n,
            size: w,
            ..
        } => is_text(name, n.bytes()) && same_width(size, *w),
        _ => false,
    }
}

/// Whether an expression is this operator and its operand.
#[cycle(same)]
fn is_unary(expr: &Expr, op: UnaryOp, operand: &Expr) -> bool
    ensures { (spot : Spot) → result ≡ same (unary spot op (expression_of operand.now))
        (expression_of expr.now) }
{
    match expr {
        Expr::Unary {
            op: p,
            operand: x,
            ..
        } => same_unary(op, *p) && same(operand, x),
        _ => false,
    }
}

/// Whether an expression is this operator and its two operands.
#[cycle(same)]
fn is_binary(expr: &Expr, op: BinaryOp, left: &Expr, right: &Expr) -> bool
    ensures { (spot : Spot) → result ≡ same (binary spot op (expression_of left.now) (expression_of
        right.now)) (expression_of expr.now) }
{
    match expr {
        Expr::Binary {
            op: p,
            left: x,
            right: y,
            ..
        } => same_binary(op, *p) && same(left, x) && same(right, y),
        _ => false,
    }
}

/// Whether an expression is `condition ? first : second`.
#[cycle(same)]
fn is_choice(expr: &Expr, condition: &Expr, first: &Expr, second: &Expr) -> bool
    ensures { (spot : Spot) → result ≡ same (choice spot (expression_of condition.now)
        (expression_of first.now) (expression_of second.now)) (expression_of expr.now) }
{
    match expr {
        Expr::Choice {
            condition: c,
            first: x,
            second: y,
            ..
        } => same(condition, c) && same(first, x) && same(second, y),
        _ => false,
    }
}

/// Whether an expression is this call.
#[cycle(same)]
fn is_call(expr: &Expr, name: &[u8], arguments: &Arguments) -> bool
    ensures { (spot : Spot) → result ≡ same (call spot name.now (arguments_of arguments.now))
        (expression_of expr.now) }
{
    match expr {
        Expr::Call {
            name: n,
            arguments: xs,
            ..
        } => is_text(name, n.bytes()) && all_same(arguments, xs),
        _ => false,
    }
}

/// Whether two lists of arguments are one text in the same way.
#[cycle(same)]
fn all_same(first: &Arguments, second: &Arguments) -> bool
    ensures { result ≡ all_same (arguments_of first.now) (arguments_of second.now) }
{
    let mut left = first;
    let mut right = second;
    'arguments: loop {
        match (left, right) {
            (Arguments::End, Arguments::End) => return true,
            (
                Arguments::More {
                    argument: x,
                    rest: xs,
                },
                Arguments::More {
                    argument: y,
                    rest: ys,
                },
            ) => {
                if !same(x, y) {
                    return false;
                }
                left = xs;
                right = ys;
            }
            _ => return false,
        }
    }
}

/// n, where an index is another one with `+ n` after it, the number n being one literal.
pub(crate) fn spread(high: &Expr, low: &Expr) -> Option<u128>
    ensures { result ≡ spread (expression_of high.now) (expression_of low.now) }
{
    match high {
        Expr::Binary {
            op: BinaryOp::Add,
            left,
            right,
            ..
        } => spread_by(left, right, low),
        _ => None,
    }
}

fn spread_by(left: &Expr, right: &Expr, low: &Expr) -> Option<u128>
    ensures { result ≡ spread_by (expression_of left.now) (expression_of right.now) (expression_of
        low.now) }
{
    match right {
        Expr::Number { value, .. } if same(left, low) => Some(*value),
        _ => None,
    }
}
