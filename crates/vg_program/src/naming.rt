//! What names stand for.

ghost use Rattle.std.specs.Prelude.{◌≡◌, ◌≤◌, length};
ghost use Rattle.vg_program.specs.Grammar.{named_in};

use crate::named::Named;
use crate::param::Param;
use crate::param_kind::ParamKind;
use vg_text::byte::is_text;

/// What a name stands for among these parameters, of which there are at most 16.
#[tactic(auto, unfolding(crate::specs::Grammar::named_in))]
pub fn named_in(params: &[Param], name: &[u8]) -> Named
    requires { length params.now ≤ 16 }
    ensures { result ≡ named_in 0 0 params.now name.now }
{
    let mut pointers: u32 = 0;
    let mut integers: u32 = 0;
    let mut rest = params;
    'params: while let [param, behind @ ..] = rest {
        let found = is_text(param.name.bytes(), name);
        match param.kind {
            ParamKind::Pointer if found => return Named::Pointer(pointers),
            ParamKind::Pointer => pointers += 1,
            ParamKind::Integer(width) if found => return Named::Integer(integers, width),
            ParamKind::Integer(_) => integers += 1,
        }
        rest = behind;
    }
    Named::Nothing
}
