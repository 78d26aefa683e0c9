//! Lanes of registers.

ghost use Rattle.std.specs.Prelude.{◌≡◌, ◌/◌, IfOk, Some, map};

use std::alloc::{AllocError, Global};

/// The number of the lane in which a bit stands, or 0 where lanes have no width.
pub fn lane_of(low: u32, width: u32) -> u32
    ensures { result ≡ low / width }
{
    if width == 0 { 0 } else { low / width }
}

/// The lanes of a call that computes each of these units, in their order: no lane is without one.
/// Fails only for want of memory.
pub fn some_lanes(alloc: Global, units: &[u32]) -> Result<Vec<Option<u32>>, AllocError>
    ensures { IfOk result (λ lanes. lanes.items ≡ map Some units.now) }
{
    units.iter().map(|unit| Some(*unit)).collect(alloc)
}
