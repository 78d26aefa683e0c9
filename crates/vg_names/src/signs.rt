//! Which operators give signed results.

ghost use Rattle.std.specs.Prelude.{◌≡◌};
ghost use Rattle.vg_pseudo.specs.Signs.{gives_signed, keeps_sign, joins_signs};

use vg_pseudo::{BinaryOp, UnaryOp};

/// Whether the result is signed whatever the operand is.
pub(crate) fn gives_signed(op: UnaryOp) -> bool
    ensures { result ≡ gives_signed op }
{
    match op {
        UnaryOp::Signed => true,
        UnaryOp::SignExtend(_) => true,
        UnaryOp::Saturate(_) => true,
        _ => false,
    }
}

/// Whether the result is signed where the operand is.
pub(crate) fn keeps_sign(op: UnaryOp) -> bool
    ensures { result ≡ keeps_sign op }
{
    match op {
        UnaryOp::Not => true,
        UnaryOp::Negate => true,
        UnaryOp::Absolute => true,
        _ => false,
    }
}

/// Whether it is no comparison, so that its result is signed where an operand is.
pub(crate) fn joins_signs(op: BinaryOp) -> bool
    ensures { result ≡ joins_signs op }
{
    match op {
        BinaryOp::Equal => false,
        BinaryOp::NotEqual => false,
        BinaryOp::Less => false,
        BinaryOp::LessOrEqual => false,
        BinaryOp::Greater => false,
        BinaryOp::GreaterOrEqual => false,
        _ => true,
    }
}
