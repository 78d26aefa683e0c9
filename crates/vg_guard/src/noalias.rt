//! Kernels with every pointer noalias.

ghost use Rattle.std.specs.Prelude.{◌≡◌, map, IfOk};
ghost use Rattle.vg_kernel.specs.Tree.{tree_of};
ghost use Rattle.vg_guard.specs.Noalias.{noalias_kind, noalias_param, all_noalias};

use std::alloc::{AllocError, Global};
use vg_base::Items;
use vg_kernel::{KParam, KParamKind, Kernel};

/// A kind, with a pointer noalias.
fn noalias_kind(kind: KParamKind) -> KParamKind
    ensures { result ≡ noalias_kind kind }
{
    match kind {
        KParamKind::Pointer { .. } => KParamKind::Pointer { noalias: true },
        KParamKind::Integer(width) => KParamKind::Integer(width),
    }
}

/// The same parameters, with every pointer noalias.
fn noalias_params(alloc: Global, params: &[KParam]) -> Result<Vec<KParam>, AllocError>
    ensures { IfOk result (λ copies. copies.items ≡ map noalias_param params.now) }
{
    let mut copies = Vec::new(alloc);
    'params: for param in params {
        let name = match param.name.copy(alloc) {
            Ok(name) => name,
            Err(error) => return Err(error),
        };
        copies.push(KParam {
            name,
            kind: noalias_kind(param.kind),
        })?;
    }
    Ok(copies)
}

/// The same kernel with every pointer noalias. Fails for want of memory alone.
pub fn all_noalias(alloc: Global, kernel: &Kernel) -> Result<Kernel, AllocError>
    ensures { IfOk result (λ copy. tree_of copy ≡ all_noalias (tree_of kernel.now)) }
{
    let mut copy = kernel.copy(alloc)?;
    let params = noalias_params(alloc, kernel.params.as_slice())?;
    copy.params = Items::from_vec(params);
    Ok(copy)
}
