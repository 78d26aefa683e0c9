//! The lines of packs.

ghost use Rattle.std.specs.Prelude.{◌≡◌, ◌+◌, IfOk, map, sum_by};
ghost use Rattle.vg_kernel_plans.specs.Packing.{price_of};
ghost use Rattle.vg_shapes.specs.Description.{description_of};

use std::alloc::AllocError;
use vg_shapes::{Description, Pack};

/// The sum of two costs, or want of memory where it has more than 64 bits.
pub(crate) fn plus(a: u64, b: u64) -> Result<u64, AllocError>
    ensures { IfOk result (λ c. c ≡ a + b) }
{
    match a.checked_add(b) {
        Some(sum) => Ok(sum),
        None => Err(AllocError),
    }
}

/// What the line of a pack costs.
pub(crate) fn price_of(descriptions: &[Description], pack: &Pack) -> u64
    ensures { result ≡ price_of (map description_of descriptions.now) pack.now }
{
    match pack {
        Pack::Stores(_) => 1,
        Pack::Loads(_) => 1,
        Pack::Call { description, .. } => match descriptions.get(*description as usize) {
            Some(found) => u64::from(found.cost),
            None => 0,
        },
    }
}

/// What the lines of packs cost.
pub(crate) fn prices(descriptions: &[Description], packs: &[Pack]) -> Result<u64, AllocError>
    ensures { IfOk result (λ c. c ≡ sum_by (price_of (map description_of descriptions.now))
        packs.now) }
{
    let mut sum = 0u64;
    'packs: for pack in packs {
        let price = price_of(descriptions, pack);
        sum = plus(sum, price)?;
    }
    Ok(sum)
}
