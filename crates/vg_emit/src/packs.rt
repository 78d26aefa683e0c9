//! Lines of packs.

ghost use Rattle.std.specs.Prelude.{◌≡◌, ◌<◌, ◌^◌, ◌∷◌, [], OnOk, slice_index, slice_index_or};
ghost use Rattle.std.specs.List.{AllByRecursion};
ghost use Rattle.vg_kernel_plans.specs.Taken.{IsShort};
ghost use Rattle.vg_emission.specs.Emission.{address_of, first_address, joint_size, pack_at, pack_line, pack_lines, size_for, takes_at};
ghost use Rattle.vg_emit.specs.Packing.{own_lines};
ghost use Rattle.vg_emit.specs.Views.{behind, job_of, known, made_of};

use crate::draft::{Draft, put_held, put_line};
use crate::extracts::put_extracts;
use crate::job::Job;
use crate::placing::{build_all, call_of};
use crate::scalars::width_for;
use std::alloc::{AllocError, Global};
use vg_base::Address;
use vg_kernel_plans::held::lane_width_of;
use vg_kernel_plans::lane::some_lanes;
use vg_kernel_plans::units::{first_width, unit_at};
use vg_program::{Line, VectorSize};
use vg_shapes::{Pack, Ssa, SsaUnit};

/// The size of so many bytes: 4, 8, 16 or 32, else 64.
fn size_for(bytes: u128) -> VectorSize
    ensures { result ≡ size_for bytes }
{
    match bytes {
        4 => VectorSize::B4,
        8 => VectorSize::B8,
        16 => VectorSize::B16,
        32 => VectorSize::B32,
        _ => VectorSize::B64,
    }
}

/// The address of a load or a store.
fn address_of(unit: Option<SsaUnit>) -> Address
    ensures { result ≡ address_of unit }
{
    match unit {
        Some(SsaUnit::Load { address, .. }) => address,
        Some(SsaUnit::Store { address, .. }) => address,
        Some(SsaUnit::Operation { .. }) => nowhere(),
        None => nowhere(),
    }
}

fn nowhere() -> Address
    ensures { result ≡ address_of None }
{
    Address {
        pointer: 0,
        offset: 0,
    }
}

/// Where the first of units that are consecutive in memory begins.
fn first_address(ssa: &Ssa, units: &[u32]) -> Address
    ensures { result ≡ first_address ssa.now units.now }
{
    match units.first() {
        Some(unit) => address_of(unit_at(ssa, *unit)),
        None => nowhere(),
    }
}

/// How many bytes units that are consecutive in memory have together.
fn joint_size(ssa: &Ssa, units: &[u32]) -> VectorSize
    ensures { result ≡ joint_size ssa.now units.now }
{
    let width = u128::from(first_width(ssa, units));
    size_for(units.len() as u128 * width / 8)
}

/// The line that stores a register to where consecutive units stand.
fn store_line(ssa: &Ssa, units: &[u32], registers: &[u32]) -> Line
    ensures { result ≡ Line.VectorStore (joint_size ssa.now units.now)
        (first_address ssa.now units.now) (slice_index registers.now 0) }
{
    Line::VectorStore {
        size: joint_size(ssa, units),
        address: first_address(ssa, units),
        register: first_of(registers),
    }
}

fn first_of(registers: &[u32]) -> u32
    ensures { result ≡ slice_index registers.now 0 }
{
    match registers.first() {
        Some(register) => *register,
        None => 0,
    }
}

/// Adds the line of a pack on the registers of its operands, and after it what is taken out of its
/// register.
fn put_own(
    alloc: Global,
    job: &Job,
    draft: &mut Draft,
    number: usize,
    pack: &Pack,
    registers: Vec<u32>,
) -> Result<(), AllocError>
    requires { IsShort pack.now }
    ensures { OnOk result (made_of draft.new
        ≡ behind (made_of draft.old)
        (own_lines (job_of job.now) (known draft.old) number pack.now registers.items)) }
{
    let width = width_for(lane_width_of(job.descriptions, job.ssa, pack));
    match pack {
        Pack::Stores(units) => {
            let line = store_line(job.ssa, units.as_slice(), registers.as_slice());
            put_line(draft, line)
        }
        Pack::Loads(units) => {
            let units = units.as_slice();
            let line = Line::VectorLoad {
                size: joint_size(job.ssa, units),
                address: first_address(job.ssa, units),
            };
            let register = put_held(draft, line, number)?;
            let lanes = some_lanes(alloc, units)?;
            put_extracts(job, draft, register, width, lanes.as_slice())
        }
        Pack::Call { description, lanes } => {
            let line = call_of(alloc, job.descriptions, *description, registers)?;
            let register = put_held(draft, line, number)?;
            put_extracts(job, draft, register, width, lanes.as_slice())
        }
    }
}

/// The numbers of the operands that a pack takes.
fn takes_at<'a>(job: &'a Job, number: usize) -> &'a [usize]
    ensures { result.now ≡ takes_at (job_of job.now) number }
{
    match job.takes.as_slice().get(number) {
        Some(taken) => taken.as_slice(),
        None => &[],
    }
}

/// Adds the lines of a pack: those of its operands, its own, and what is taken out of its register.
/// A pack that is not there is a store group of no units.
pub(crate) fn put_pack(
    alloc: Global,
    job: &Job,
    draft: &mut Draft,
    number: usize,
) -> Result<(), AllocError>
    requires { AllByRecursion IsShort (job_of job.now).packs }
    ensures { OnOk result (made_of draft.new
        ≡ behind (made_of draft.old)
        (pack_lines (job_of job.now) (known draft.old) number (pack_at (job_of job.now) number))) }
{
    let registers = build_all(alloc, job, draft, takes_at(job, number))?;
    match job.packs.get(number) {
        Some(pack) => put_own(alloc, job, draft, number, pack, registers),
        None => {
            let line = store_line(job.ssa, &[], registers.as_slice());
            put_line(draft, line)
        }
    }
}
