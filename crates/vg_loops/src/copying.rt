//! Parameters copied.

ghost use Rattle.std.specs.Prelude.{◌≡◌, IfOk};

use std::alloc::{AllocError, Global};
use vg_kernel::KParam;

/// A copy of a parameter.
fn copied_param(alloc: Global, param: &KParam) -> Result<KParam, AllocError>
    ensures { IfOk result (λ p. p ≡ param.now) }
{
    let name = param.name.copy(alloc)?;
    Ok(KParam {
        name,
        kind: param.kind,
    })
}

/// Copies of parameters, in their order.
pub(crate) fn copied_params(alloc: Global, params: &[KParam]) -> Result<Vec<KParam>, AllocError>
    ensures { IfOk result (λ ps. ps.items ≡ params.now) }
{
    let mut copied = Vec::new(alloc);
    let mut rest = params;
    'params: while let [param, behind @ ..] = rest {
        let param = copied_param(alloc, param)?;
        copied.push(param)?;
        rest = behind;
    }
    Ok(copied)
}
