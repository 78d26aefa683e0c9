//! The words and the names in a term's text.

ghost use Rattle.std.specs.Prelude.{◌≡◌};

use crate::term::{OneOp, TwoOp};
use vg_base::{Items, Name};

/// The names of the parameters, the pointers and the arguments, each by its number in leaf keys.
#[derive(Drop)]
pub struct Names {
    pub params: Items<Name>,
    pub pointers: Items<Name>,
    pub arguments: Items<Name>,
}

impl OneOp {
    ghost use Rattle.vg_terms.specs.Text.{one_name};

    /// The word for the operation in a term's text.
    pub fn name(self) -> &'static [u8]
        ensures { result.now ≡ one_name self }
    {
        match self {
            OneOp::Zext => b"zext",
            OneOp::Sext => b"sext",
            OneOp::Trunc => b"trunc",
            OneOp::Lshr => b"lshr",
            OneOp::Ashr => b"ashr",
        }
    }
}

impl TwoOp {
    ghost use Rattle.vg_terms.specs.Text.{two_name};

    /// The word for the operation in a term's text.
    pub fn name(self) -> &'static [u8]
        ensures { result.now ≡ two_name self }
    {
        match self {
            TwoOp::Add => b"add",
            TwoOp::Mul => b"mul",
            TwoOp::And => b"and",
            TwoOp::Or => b"or",
            TwoOp::Xor => b"xor",
            TwoOp::Smin => b"smin",
            TwoOp::Smax => b"smax",
            TwoOp::Umin => b"umin",
            TwoOp::Umax => b"umax",
            TwoOp::Eq => b"eq",
            TwoOp::Slt => b"slt",
            TwoOp::Ult => b"ult",
            TwoOp::Cat => b"cat",
        }
    }
}
