//! Judges operations: names first, then the instances by rising immediates.

ghost use Rattle.std.specs.Prelude.{◌≡◌, ◌+◌, ◌-◌, Some};
ghost use Rattle.vg_interval.specs.Views.{Gives};
ghost use Rattle.vg_names.specs.Views.{resolved_of};
ghost use Rattle.vg_pseudo.specs.Resolve.{resolve};
ghost use Rattle.vg_pseudo.specs.Tree.{operation_of};
ghost use Rattle.vg_range.specs.Acceptance.{checked, judged, judged_from, named};

use crate::instance_walk::instance_at;
use std::alloc::Global;
use vg_interval::RangeFault;
use vg_names::{NameFault, Resolved, resolve};
use vg_pseudo::{Header, ImmRange, Operation};

/// An operation with its names resolved, or its first fault of a name.
#[inline(never)]
fn named(alloc: Global, header: &Header, operation: &Operation) -> Result<Resolved, RangeFault>
    ensures { Gives resolved_of result (named (resolve header.now (operation_of operation.now))) }
{
    match resolve(alloc, header, operation) {
        Ok(resolved) => Ok(resolved),
        Err(NameFault::UnknownName { place }) => Err(RangeFault::UnknownName { place }),
        Err(NameFault::BareRegister { place }) => Err(RangeFault::BareRegister { place }),
        Err(NameFault::Memory(error)) => Err(RangeFault::Memory(error)),
    }
}

/// How many immediates are judged.
fn count_of(range: &ImmRange) -> usize
    ensures { result ≡ (range.now.hi - range.now.lo) + 1 }
{
    range.hi.saturating_sub(range.lo) as usize + 1
}

/// The instances for these immediates, upwards from the least one.
fn judged_from(alloc: Global, resolved: &Resolved, range: &ImmRange) -> Result<(), RangeFault>
    ensures { Gives (λ u. resolved_of resolved.now) result
        (judged_from (resolved_of resolved.now) range.now.lo ((range.now.hi - range.now.lo) + 1)) }
{
    let count = count_of(range);
    'immediates: for step in 0..count {
        let imm = range.lo as u128 + step as u128;
        instance_at(alloc, false, resolved, Some(imm))?;
    }
    Ok(())
}

/// All instances of an entry, or the first fault of one.
#[inline(never)]
fn judged(alloc: Global, imm: &Option<ImmRange>, resolved: &Resolved) -> Result<(), RangeFault>
    ensures { Gives (λ u. resolved_of resolved.now) result (judged imm.now (resolved_of
        resolved.now)) }
{
    match imm {
        None => {
            instance_at(alloc, false, resolved, None)?;
            Ok(())
        }
        Some(range) => judged_from(alloc, resolved, range),
    }
}

/// The operation of an accepted entry with its names resolved, or its first fault.
#[tactic(auto, unfolding(crate::specs::Acceptance::checked))]
pub fn accepted(
    alloc: Global,
    header: &Header,
    operation: &Operation,
) -> Result<Resolved, RangeFault>
    ensures { Gives resolved_of result (checked header.now (operation_of operation.now)) }
{
    let resolved = named(alloc, header, operation)?;
    judged(alloc, &header.imm, &resolved)?;
    Ok(resolved)
}
