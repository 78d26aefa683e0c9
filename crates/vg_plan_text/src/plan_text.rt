//! The text of a plan.

ghost use Rattle.std.specs.Prelude.{◌≡◌, ◌*◌, ◌++◌, IfOk, OnOk, codes, filter, flat_map, length, map, option_map, slice_get};
ghost use Rattle.std.specs.Option.{is_some};
ghost use Rattle.vg_shapes.specs.Description.{description_of};
ghost use Rattle.vg_plan_text.specs.PlanText.{access_line, accessed, call_line, cost_line, first_access, pack_line, plan_text};

use crate::costs::Costs;
use std::alloc::{AllocError, Global};
use vg_kernel_plans::units::unit_at;
use vg_program::Param;
use vg_program::parts::{put_address, put_imm, put_number};
use vg_shapes::{Access, Description, Pack, Plan, Ssa, SsaUnit};

/// What a unit reads or writes, if it is there and does.
fn access_of(unit: Option<SsaUnit>) -> Option<Access>
    ensures { result ≡ accessed unit }
{
    match unit {
        None => None,
        Some(unit) => unit.access(),
    }
}

/// What the first of units reads or writes.
fn first_access(ssa: &Ssa, units: &[u32]) -> Option<Access>
    ensures { result ≡ first_access ssa.now units.now }
{
    match units {
        [] => None,
        [first, ..] => access_of(unit_at(ssa, *first)),
    }
}

/// How many bytes so many accesses of a size have, or want of memory past 2^64.
fn bytes_of(count: usize, size: u32) -> Result<u64, AllocError>
    ensures { IfOk result (λ bytes. bytes ≡ count * size) }
{
    (count as u64)
        .checked_mul(u64::from(size))
        .ok_or(AllocError)
}

/// Appends the line on loads or stores beside each other, of which this is the first.
fn put_access(
    alloc: Global,
    to: &mut Vec<u8>,
    params: &[Param],
    word: &[u8],
    count: usize,
    first: Option<Access>,
) -> Result<(), AllocError>
    ensures { OnOk result (to.new.items ≡ to.old.items
        ++ access_line params.now word.now count first) }
{
    match first {
        None => Ok(()),
        Some(access) => {
            let bytes = bytes_of(count, access.size)?;
            to.extend_from_slice(b"pack ")?;
            to.extend_from_slice(word)?;
            to.extend_from_slice(b" ")?;
            put_number(alloc, to, bytes)?;
            to.extend_from_slice(b" ")?;
            put_address(alloc, to, params, access.address)?;
            to.extend_from_slice(b"\n")
        }
    }
}

/// Appends the line on a call of an instance that computes so many lanes.
fn put_call(
    alloc: Global,
    to: &mut Vec<u8>,
    description: Option<&Description>,
    count: usize,
) -> Result<(), AllocError>
    ensures { OnOk result (to.new.items ≡ to.old.items
        ++ call_line (option_map (λ d. description_of d.now) description.entry) count) }
{
    match description {
        None => Ok(()),
        Some(called) => {
            to.extend_from_slice(b"pack call ")?;
            to.extend_from_slice(called.name.bytes())?;
            put_imm(alloc, to, called.imm)?;
            to.extend_from_slice(b" lanes ")?;
            put_number(alloc, to, count as u64)?;
            to.extend_from_slice(b"\n")
        }
    }
}

/// How many lanes have an operation.
fn computed_lanes(lanes: &[Option<u32>]) -> usize
    ensures { result ≡ length (filter is_some lanes.now) }
{
    lanes.iter().filter(|lane| lane.is_some()).count()
}

/// Appends the line on a pack.
fn put_pack(
    alloc: Global,
    to: &mut Vec<u8>,
    params: &[Param],
    descriptions: &[Description],
    ssa: &Ssa,
    pack: &Pack,
) -> Result<(), AllocError>
    ensures { OnOk result (to.new.items ≡ to.old.items ++ pack_line params.now
        (map description_of descriptions.now) ssa.now pack.now) }
{
    match pack {
        Pack::Stores(units) => {
            let units = units.as_slice();
            let first = first_access(ssa, units);
            put_access(alloc, to, params, b"store", units.len(), first)
        }
        Pack::Loads(units) => {
            let units = units.as_slice();
            let first = first_access(ssa, units);
            put_access(alloc, to, params, b"load", units.len(), first)
        }
        Pack::Call { description, lanes } => {
            let called = descriptions.get(*description as usize);
            put_call(alloc, to, called, computed_lanes(lanes.as_slice()))
        }
    }
}

/// Appends the line on costs.
fn put_costs(alloc: Global, to: &mut Vec<u8>, costs: Costs) -> Result<(), AllocError>
    ensures { OnOk result (to.new.items ≡ to.old.items ++ cost_line costs) }
{
    to.extend_from_slice(b"plan cost ")?;
    put_number(alloc, to, costs.plan)?;
    to.extend_from_slice(b" plain ")?;
    put_number(alloc, to, costs.plain)?;
    to.extend_from_slice(b" scalar ")?;
    put_number(alloc, to, costs.scalar)?;
    to.extend_from_slice(b"\n")
}

/// The lines on a plan of a kernel with these parameters: for each pack `pack store BYTES ADDRESS`,
/// `pack load BYTES ADDRESS` or `pack call NAME lanes N`, with ` imm K` after the name where the
/// instance has an immediate; then `plan cost C plain P scalar S`.
pub fn print_plan(
    alloc: Global,
    params: &[Param],
    descriptions: &[Description],
    ssa: &Ssa,
    plan: &Plan,
    costs: Costs,
) -> Result<Vec<u8>, AllocError>
    ensures { IfOk result (λ text. text.items ≡ plan_text params.now
        (map description_of descriptions.now) ssa.now plan.now costs) }
{
    let mut to = Vec::new(alloc);
    'packs: for pack in plan.as_slice() {
        put_pack(alloc, &mut to, params, descriptions, ssa, pack)?;
    }
    put_costs(alloc, &mut to, costs)?;
    Ok(to)
}
