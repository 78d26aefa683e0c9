//! Copies of packs with one after them, of counts and of operands.

ghost use Rattle.std.specs.Prelude.{◌≡◌, ◌++◌, ◌∷◌, [], IfOk};

use std::alloc::{AllocError, Global};
use vg_base::Items;
use vg_kernel_plans::copies::{copy_pack, copy_packs};
use vg_shapes::{Operand, Pack};

/// A copy of packs with one after them. Fails only for want of memory.
pub(crate) fn longer(alloc: Global, packs: &[Pack], pack: &Pack) -> Result<Vec<Pack>, AllocError>
    ensures { IfOk result (λ copies. copies.items ≡ packs.now ++ pack.now ∷ []) }
{
    let mut copies = copy_packs(alloc, packs)?;
    copies.push(copy_pack(alloc, pack)?)?;
    Ok(copies)
}

/// A copy of counts. Fails only for want of memory.
pub(crate) fn copy_counts(alloc: Global, counts: &[u32]) -> Result<Vec<u32>, AllocError>
    ensures { IfOk result (λ copies. copies.items ≡ counts.now) }
{
    counts.to_vec(alloc)
}

/// A copy of the operand. Fails only for want of memory.
pub(crate) fn copy_operand(alloc: Global, operand: &Operand) -> Result<Operand, AllocError>
    ensures { IfOk result (λ o. o ≡ operand.now) }
{
    let slots = operand.slots.as_slice().to_vec(alloc)?;
    Ok(Operand {
        register: operand.register,
        slots: Items::from_vec(slots),
    })
}
