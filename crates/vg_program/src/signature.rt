//! What stands before the lines of a program.

ghost use Rattle.std.specs.Prelude.{◌≡◌, IfOk};

use crate::param::Param;
use std::alloc::{AllocError, Global};
use vg_base::items::Items;
use vg_base::name::Name;

/// The name and the parameters of a program.
#[derive(Drop)]
pub struct Signature {
    pub name: Name,
    /// At most 16, with names that differ.
    pub params: Items<Param>,
}

/// A copy of parameters, in their order.
fn copy_params(alloc: Global, params: &[Param]) -> Result<Vec<Param>, AllocError>
    ensures { IfOk result (λ copies. copies.items ≡ params.now) }
{
    let mut copies = Vec::new(alloc);
    'params: for param in params {
        let copy = match param.copy(alloc) {
            Ok(copy) => copy,
            Err(error) => return Err(error),
        };
        copies.push(copy)?;
    }
    Ok(copies)
}

impl Signature {
    /// A copy of the signature. Fails for want of memory alone.
    pub fn copy(&self, alloc: Global) -> Result<Signature, AllocError>
        ensures { IfOk result (λ signature. signature ≡ self.now) }
    {
        let name = self.name.copy(alloc)?;
        let params = copy_params(alloc, self.params.as_slice())?;
        Ok(Signature {
            name,
            params: Items::from_vec(params),
        })
    }
}
