//! The parameters of a kernel as programs write them.

ghost use Rattle.std.specs.Prelude.{◌≡◌, IfOk, map};
ghost use Rattle.vg_compile.specs.Means.{kind_of, param_of};

use std::alloc::{AllocError, Global};
use vg_kernel::{KParam, KParamKind};
use vg_program::param::Param;
use vg_program::param_kind::ParamKind;

fn kind_of(kind: KParamKind) -> ParamKind
    ensures { result ≡ kind_of kind }
{
    match kind {
        KParamKind::Pointer { .. } => ParamKind::Pointer,
        KParamKind::Integer(width) => ParamKind::Integer(width),
    }
}

fn param_of(alloc: Global, param: &KParam) -> Result<Param, AllocError>
    ensures { IfOk result (λ p. p ≡ param_of param.now) }
{
    Ok(Param {
        name: param.name.copy(alloc)?,
        kind: kind_of(param.kind),
    })
}

/// The parameters of a kernel as programs write them, in their order. Fails for want of memory alone.
pub fn params_of(alloc: Global, params: &[KParam]) -> Result<Vec<Param>, AllocError>
    ensures { IfOk result (λ ps. ps.items ≡ map param_of params.now) }
{
    let mut all = Vec::new(alloc);
    'params: for param in params {
        all.push(param_of(alloc, param)?)?;
    }
    Ok(all)
}
