//! Whether a program has the name and the parameters of a kernel.

ghost use Rattle.std.specs.Prelude.{◌≡◌};
ghost use Rattle.vg_known.specs.Params.{same_head, same_kind, same_params};

use vg_program::{Param, ParamKind, Program};
use vg_shapes::{Ssa, SsaParam, SsaParamKind};
use vg_text::byte::is_text;

fn same_kind(kind: SsaParamKind, other: ParamKind) -> bool
    ensures { result ≡ same_kind kind other }
{
    match (kind, other) {
        (SsaParamKind::Pointer { .. }, ParamKind::Pointer) => true,
        (SsaParamKind::Integer(width), ParamKind::Integer(of_other)) => {
            width.bits() == of_other.bits()
        }
        (SsaParamKind::Pointer { .. }, ParamKind::Integer(_)) => false,
        (SsaParamKind::Integer(_), ParamKind::Pointer) => false,
    }
}

fn same_params(params: &[SsaParam], others: &[Param]) -> bool
    ensures { result ≡ same_params params.now others.now }
{
    match params {
        [] => match others {
            [] => true,
            [_other, _left @ ..] => false,
        },
        [param, behind @ ..] => match others {
            [] => false,
            [other, left @ ..] => {
                let name = is_text(param.name.bytes(), other.name.bytes());
                let kind = same_kind(param.kind, other.kind);
                let rest = same_params(behind, left);
                (name && kind) && rest
            }
        },
    }
}

/// Whether a program has the name of a kernel, and its parameters: their names, kinds and widths in order.
/// What is noalias counts for nothing.
pub fn same_head(ssa: &Ssa, program: &Program) -> bool
    ensures { result ≡ same_head ssa.now program.now }
{
    let name = is_text(ssa.name.bytes(), program.name.bytes());
    let params = same_params(ssa.params.as_slice(), program.params.as_slice());
    name && params
}
