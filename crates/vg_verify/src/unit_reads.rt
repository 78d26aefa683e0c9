//! The bits that the loads of a kernel read, by their events.

ghost use Rattle.std.specs.Prelude.{◌≡◌, ◌+◌, ◌<◌, ◌≤◌, ◌++◌, IfOk, OnOk, drop, get_or, length};
ghost use Rattle.vg_events.specs.Events.{labels_in};
ghost use Rattle.vg_known.specs.Kernels.{kernel_reads, read_by, reads_from};
ghost use Rattle.vg_shapes.specs.Layout.{access_of};
ghost use Rattle.vg_shapes.specs.Order.{numbers_from};
ghost use Rattle.vg_verify.specs.Views.{pairs_in};

use crate::earlier_loads::unit_at;
use crate::event_bits::give_events;
use crate::known::whole_run;
use std::alloc::{AllocError, Global};
use vg_base::Items;
use vg_forms::{Form, Run};
use vg_shapes::{Ssa, SsaUnit};

// The number so many places on, or want of memory where there is none.
pub(crate) fn following(number: usize, count: u32) -> Result<usize, AllocError>
    ensures { IfOk result (λ n. n ≡ number + count) }
{
    match number.checked_add(count as usize) {
        Some(next) => Ok(next),
        None => Err(AllocError),
    }
}

// Appends so many numbers, from a first on.
#[tactic(auto, using(crate::proofs::UnitReads::numbers_none, crate::proofs::UnitReads::numbers_more))]
pub(crate) fn push_numbers(to: &mut Vec<usize>, first: usize, count: u32) -> Result<(), AllocError>
    ensures { OnOk result (to.new.items ≡ to.old.items ++ numbers_from first count) }
{
    if count == 0 {
        return Ok(());
    }
    to.push(first)?;
    let next = following(first, 1)?;
    push_numbers(to, next, count - 1)?;
    Ok(())
}

// Gives the events of a unit the bits that it reads by its term; the first of the events has this number.
#[tactic(auto, using(crate::proofs::UnitReads::none_read))]
fn give_read(
    alloc: Global,
    to: &mut Vec<(usize, Items<Run>)>,
    first: usize,
    unit: &SsaUnit,
    form: &Form,
) -> Result<(), AllocError>
    ensures { OnOk result (pairs_in to.new.items ≡ pairs_in to.old.items ++ read_by first unit.now
        form.now) }
{
    match *unit {
        SsaUnit::Load { width, .. } => {
            let mut events = Vec::new(alloc);
            push_numbers(&mut events, first, width.size())?;
            let form = form.share()?;
            let runs = whole_run(alloc, form, width.bits())?;
            give_events(alloc, to, &events, &runs)
        }
        SsaUnit::Store { .. } => Ok(()),
        SsaUnit::Operation { .. } => Ok(()),
    }
}

// How many events a unit has.
#[tactic(auto, using(crate::proofs::UnitReads::some_counted, crate::proofs::UnitReads::none_counted))]
pub(crate) fn event_count(unit: &SsaUnit) -> u32
    ensures { result ≡ length (labels_in (access_of unit.now)) }
{
    match unit.access() {
        None => 0,
        Some(access) => access.size,
    }
}

// The term at a place.
fn form_at(terms: &[Form], place: usize) -> &Form
    requires { place < length terms.now }
    ensures { result.now ≡ get_or terms.now place result.now }
{
    &terms[place]
}

// The terms from a place on.
fn forms_from(terms: &[Form], place: usize) -> &[Form]
    requires { place ≤ length terms.now }
    ensures { result.now ≡ drop place terms.now }
{
    &terms[place..]
}

// The bits that units with these terms read.
#[tactic(auto, using(crate::proofs::UnitReads::reads_none, crate::proofs::UnitReads::reads_more, crate::proofs::UnitReads::reads_all))]
fn reads_of(
    alloc: Global,
    units: &[SsaUnit],
    terms: &[Form],
) -> Result<Vec<(usize, Items<Run>)>, AllocError>
    requires { length units.now ≤ length terms.now }
    ensures { IfOk result (λ v. pairs_in v.items ≡ reads_from 0 units.now terms.now) }
{
    let mut reads = Vec::new(alloc);
    let mut first = 0;
    'units: for place in 0..units.len() {
        let unit = unit_at(units, place);
        give_read(alloc, &mut reads, first, unit, form_at(terms, place))?;
        first = following(first, event_count(unit))?;
    }
    Ok(reads)
}

/// The bits that each event of the loads of a kernel reads, by the terms of the kernel's values. Fails for want
/// of memory, and where a unit has no term.
pub(crate) fn kernel_reads(
    alloc: Global,
    ssa: &Ssa,
    terms: &[Form],
) -> Result<Vec<(usize, Items<Run>)>, AllocError>
    ensures { IfOk result (λ v. pairs_in v.items ≡ kernel_reads ssa.now terms.now) }
{
    let units = ssa.units.as_slice();
    let before = ssa.arguments();
    if terms.len() < before {
        return Err(AllocError);
    }
    let own = forms_from(terms, before);
    if own.len() < units.len() {
        return Err(AllocError);
    }
    reads_of(alloc, units, own)
}
