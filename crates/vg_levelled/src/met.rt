//! Which pointers stores through others may meet.

ghost use Rattle.std.specs.Prelude.{◌≡◌, IfOk};
ghost use Rattle.vg_levelled.specs.Levelled.{flag_of, is_met, may_meet, met_pointers};

use std::alloc::{AllocError, Global};
use vg_shapes::SsaUnit;

fn flag_of(flags: &[bool], pointer: usize) -> bool
    ensures { result ≡ flag_of flags.now pointer }
{
    flags.get(pointer).copied().unwrap_or(false)
}

/// Whether a unit stores through another pointer, where neither is noalias.
fn may_meet(flags: &[bool], pointer: usize, unit: &SsaUnit) -> bool
    ensures { result ≡ may_meet flags.now pointer unit.now }
{
    match *unit {
        SsaUnit::Load { .. } => false,
        SsaUnit::Store { address, .. } => {
            let other = address.pointer as usize;
            other != pointer && !flag_of(flags, pointer) && !flag_of(flags, other)
        }
        SsaUnit::Operation { .. } => false,
    }
}

fn is_met(flags: &[bool], units: &[SsaUnit], pointer: usize) -> bool
    ensures { result ≡ is_met flags.now units.now pointer }
{
    units.iter().any(|unit| may_meet(flags, pointer, unit))
}

/// Of each pointer, by the flags of all, whether one of the stores may write any of its bytes. Fails for want
/// of memory alone.
pub(crate) fn met_pointers(
    alloc: Global,
    flags: &[bool],
    units: &[SsaUnit],
) -> Result<Vec<bool>, AllocError>
    ensures { IfOk result (λ met. met.items ≡ met_pointers flags.now units.now) }
{
    let mut met = Vec::new(alloc);
    'pointers: for pointer in 0..flags.len() {
        met.push(is_met(flags, units, pointer))?;
    }
    Ok(met)
}
