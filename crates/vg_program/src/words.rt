//! The words of lines.

ghost use Rattle.std.specs.Prelude.{◌≡◌};
ghost use Rattle.vg_program.specs.Text.{two_text, shift_text, resize_text, comparison_text, word_text};
ghost use Rattle.vg_program.specs.Grammar.{head_text};

use crate::head::Head;
use crate::line::Line;
use vg_scalar::{Comparison, Resize, Shift, TwoOp};

fn two_text(op: TwoOp) -> &'static [u8]
    ensures { result.now ≡ two_text op }
{
    match op {
        TwoOp::Add => b"add",
        TwoOp::Sub => b"sub",
        TwoOp::Mul => b"mul",
        TwoOp::And => b"and",
        TwoOp::Or => b"or",
        TwoOp::Xor => b"xor",
        TwoOp::Smin => b"smin",
        TwoOp::Smax => b"smax",
        TwoOp::Umin => b"umin",
        TwoOp::Umax => b"umax",
    }
}

fn shift_text(op: Shift) -> &'static [u8]
    ensures { result.now ≡ shift_text op }
{
    match op {
        Shift::Shl => b"shl",
        Shift::Lshr => b"lshr",
        Shift::Ashr => b"ashr",
    }
}

fn resize_text(op: Resize) -> &'static [u8]
    ensures { result.now ≡ resize_text op }
{
    match op {
        Resize::Sext => b"sext",
        Resize::Zext => b"zext",
        Resize::Trunc => b"trunc",
    }
}

fn comparison_text(op: Comparison) -> &'static [u8]
    ensures { result.now ≡ comparison_text op }
{
    match op {
        Comparison::Eq => b"eq",
        Comparison::Slt => b"slt",
        Comparison::Ult => b"ult",
    }
}

/// The word of a line without its operands.
pub(crate) fn head_text(head: Head) -> &'static [u8]
    ensures { result.now ≡ head_text head }
{
    match head {
        Head::Store => b"store",
        Head::Load(_) => b"load",
        Head::Two(op, _) => two_text(op),
        Head::Shift(op, _) => shift_text(op),
        Head::Resize(op, _) => resize_text(op),
        Head::Compare(op) => comparison_text(op),
        Head::Select(_) => b"select",
        Head::VectorLoad => b"vload",
        Head::VectorStore => b"vstore",
        Head::Constant => b"const",
        Head::Insert => b"insert",
        Head::Extract(_) => b"extract",
        Head::Call => b"call",
    }
}

/// The word of a line.
pub(crate) fn word_text(line: &Line) -> &'static [u8]
    ensures { result.now ≡ word_text line.now }
{
    match line {
        Line::Load { .. } => b"load",
        Line::Store { .. } => b"store",
        Line::Two { op, .. } => two_text(*op),
        Line::Shift { op, .. } => shift_text(*op),
        Line::Resize { op, .. } => resize_text(*op),
        Line::Compare { op, .. } => comparison_text(*op),
        Line::Select { .. } => b"select",
        Line::VectorLoad { .. } => b"vload",
        Line::VectorStore { .. } => b"vstore",
        Line::Constant { .. } => b"const",
        Line::Insert { .. } => b"insert",
        Line::Extract { .. } => b"extract",
        Line::Call { .. } => b"call",
    }
}
