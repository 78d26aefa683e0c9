//! Packs a second time.

ghost use Rattle.std.specs.Prelude.{◌≡◌, IfOk};

use std::alloc::{AllocError, Global};
use vg_shapes::Pack;

/// A copy of the pack. Fails only for want of memory.
pub fn copy_pack(alloc: Global, pack: &Pack) -> Result<Pack, AllocError>
    ensures { IfOk result (λ p. p ≡ pack.now) }
{
    match pack {
        Pack::Stores(units) => Ok(Pack::Stores(units.copy(alloc)?)),
        Pack::Loads(units) => Ok(Pack::Loads(units.copy(alloc)?)),
        Pack::Call { description, lanes } => Ok(Pack::Call {
            description: *description,
            lanes: lanes.copy(alloc)?,
        }),
    }
}

/// A copy of the packs, in their order. Fails only for want of memory.
pub fn copy_packs(alloc: Global, packs: &[Pack]) -> Result<Vec<Pack>, AllocError>
    ensures { IfOk result (λ copies. copies.items ≡ packs.now) }
{
    let mut copies = Vec::new(alloc);
    'packs: for pack in packs {
        let copy = copy_pack(alloc, pack)?;
        copies.push(copy)?;
    }
    Ok(copies)
}
