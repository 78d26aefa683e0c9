//! The units of a kernel, each free use of a load with one of its own.

ghost use Rattle.std.specs.Prelude.{◌≡◌, ◌<◌, ◌^◌, IfOk};
ghost use Rattle.vg_rewrite.specs.Marks.{numbers};
ghost use Rattle.vg_rewrite.specs.Repeated.{repeated_units};
ghost use Rattle.vg_shapes.specs.Sound.{IsSound};

use crate::kept::Kept;
use crate::repeating::repeat_all;
use std::alloc::{AllocError, Global};
use vg_shapes::{Ssa, SsaUnit};

/// What `repeated_units` makes, of units that are not too many, whatever their terms. Fails for want of
/// memory alone.
pub(crate) fn repeat_few(alloc: Global, ssa: &Ssa) -> Result<Vec<SsaUnit>, AllocError>
    requires { numbers ssa.now < 2 ^ 20 }
    ensures exact { IfOk result (λ units. units.items ≡ repeated_units ssa.now) }
{
    let kept = Kept::new(alloc, ssa)?;
    repeat_all(alloc, ssa, &kept)
}

/// The units of numbered values, but that each free use of a load, or of an extension of one, has a
/// load of its own, and an extension of its own behind it, right before the unit that uses it. A use
/// is free where no store between the load and that unit may meet the load. A load that nothing uses
/// stays. Fails for want of memory alone.
pub fn repeated_units(alloc: Global, ssa: &Ssa) -> Result<Vec<SsaUnit>, AllocError>
    requires { IsSound ssa.now }
    ensures exact { IfOk result (λ units. units.items ≡ repeated_units ssa.now) }
{
    repeat_few(alloc, ssa)
}
