//! Accepted entries made ready to run.

ghost use Rattle.std.specs.Prelude.{◌≡◌, ◌+◌, ◌<◌, map, IfOk, Some, None};
ghost use Rattle.vg_names.specs.Written.{IsWritten};
ghost use Rattle.vg_range.specs.Checks.{header_in, operation_in};
ghost use Rattle.vg_range.specs.Immediates.{immediate_of};
ghost use Rattle.vg_pmean.specs.Entries.{AnswersAll, AnswersTo, AreAll, InstanceForOne, ReadyForOne, count_of, least_of};
ghost use Rattle.vg_pmean.specs.Readied.{ready_of};

use crate::instance::Instance;
use crate::prepared::Prepared;
use std::alloc::{AllocError, Global};
use vg_bits::Reg;
use vg_pseudo::ImmRange;
use vg_range::Checked;
use vg_range::unrolling::immediate_of;

/// The greatest number of nodes of all scripts of an entry.
const MAX_NODES: u64 = 16_777_216;

/// The instance for an immediate of the entry; None where it has no such instance.
fn instance_for(
    alloc: Global,
    checked: &Checked,
    imm: Option<u8>,
) -> Result<Option<Instance>, AllocError>
    requires { IsWritten (header_in checked.now) (operation_in checked.now) }
    ensures { InstanceForOne (header_in checked.now) (operation_in checked.now) imm result }
{
    match checked.unroll(alloc, imm)? {
        None => Ok(None),
        Some(whole) => {
            let instance = Instance::new(whole)?;
            Ok(Some(instance))
        }
    }
}

/// How many immediates there are.
fn count_of(range: &ImmRange) -> usize
    ensures { result ≡ count_of range.now }
{
    (range.hi as usize + 1).saturating_sub(range.lo as usize)
}

/// The immediate so many steps after the least one.
fn immediate_at(range: &ImmRange, step: usize) -> u8
    requires { step < count_of range.now }
    ensures { result ≡ range.now.lo + step }
{
    let greatest = range.hi as usize;
    (range.lo as usize + step).min(greatest) as u8
}

/// The instances for these immediates, by rising ones. Fails for want of memory also where their
/// scripts have more nodes than one entry may have.
fn instances_over(
    alloc: Global,
    checked: &Checked,
    range: &ImmRange,
) -> Result<Vec<Instance>, AllocError>
    requires { IsWritten (header_in checked.now) (operation_in checked.now) }
    ensures { IfOk result (λ is. AreAll (header_in checked.now) (operation_in checked.now) (Some
        range.now) (map (λ i. i.whole) is.items)) }
{
    let mut instances = Vec::new(alloc);
    let mut nodes: u64 = 0;
    'immediates: for step in 0..count_of(range) {
        let imm = immediate_at(range, step);
        let Some(instance) = instance_for(alloc, checked, Some(imm))? else {
            return Err(AllocError);
        };
        nodes = nodes.saturating_add(instance.whole.nodes);
        if nodes > MAX_NODES {
            return Err(AllocError);
        }
        instances.push(instance)?;
    }
    Ok(instances)
}

/// The one instance of an entry that has no immediate.
fn only_instance(alloc: Global, checked: &Checked) -> Result<Vec<Instance>, AllocError>
    requires { IsWritten (header_in checked.now) (operation_in checked.now) }
    ensures { IfOk result (λ is. AreAll (header_in checked.now) (operation_in checked.now) None (map
        (λ i. i.whole) is.items)) }
{
    let Some(instance) = instance_for(alloc, checked, None)? else {
        return Err(AllocError);
    };
    let mut instances = Vec::new(alloc);
    instances.push(instance)?;
    Ok(instances)
}

/// All instances of an entry.
fn all_instances(alloc: Global, checked: &Checked) -> Result<Vec<Instance>, AllocError>
    requires { IsWritten (header_in checked.now) (operation_in checked.now) }
    ensures { IfOk result (λ is. AreAll (header_in checked.now) (operation_in checked.now)
        (header_in checked.now).imm (map (λ i. i.whole) is.items)) }
{
    match &checked.header().imm {
        Some(range) => instances_over(alloc, checked, range),
        None => only_instance(alloc, checked),
    }
}

fn least_of(range: &Option<ImmRange>) -> Option<u8>
    ensures { result ≡ least_of range.now }
{
    match range {
        Some(range) => Some(range.lo),
        None => None,
    }
}

impl Prepared {
    /// An accepted entry with all its instances. For each immediate of the entry, and for any number where it has none,
    /// `apply` answers what the entry means.
    ///
    /// Fails for want of memory, also past 2^24 expressions kept while a script is written out, 2^24 nodes of all
    /// scripts or 2^28 bytes of frames.
    pub fn new(alloc: Global, checked: &Checked) -> Result<Prepared, AllocError>
        requires written { IsWritten (header_in checked.now) (operation_in checked.now) }
        ensures means { IfOk result (λ p. AnswersAll (header_in checked.now) (operation_in
            checked.now) (ready_of p)) }
    {
        let instances = all_instances(alloc, checked)?;
        Prepared::from_instances(alloc, least_of(&checked.header().imm), instances)
    }

    /// An accepted entry with its instance for one immediate, for which `apply` answers what the entry means; any number
    /// may stand there where the entry has no immediate. None where the immediate is not one of the entry.
    ///
    /// Fails for want of memory, also past 2^24 expressions kept while the script is written out, 2^24 nodes of it or
    /// 2^28 bytes of frames.
    pub fn for_one(
        alloc: Global,
        checked: &Checked,
        imm: u8,
    ) -> Result<Option<Prepared>, AllocError>
        requires written { IsWritten (header_in checked.now) (operation_in checked.now) }
        ensures means { ReadyForOne (header_in checked.now) (operation_in checked.now) imm result }
    {
        let imm = immediate_of(&checked.header().imm, imm);
        let Some(instance) = instance_for(alloc, checked, imm)? else {
            return Ok(None);
        };
        let mut instances = Vec::new(alloc);
        instances.push(instance)?;
        let prepared = Prepared::from_instances(alloc, imm, instances)?;
        Ok(Some(prepared))
    }
}

/// What an accepted entry answers to these parameters and this immediate, with zeros above it: what the entry means. Any
/// number may stand there where it has no immediate; None where the immediate is not one of the entry. Who asks more than
/// once keeps a [`Prepared`].
///
/// Fails for want of memory, also at the bounds of [`Prepared::for_one`].
pub fn answer_once<const B: usize>(
    alloc: Global,
    checked: &Checked,
    params: &[Reg<B>],
    imm: u8,
) -> Result<Option<Reg<B>>, AllocError>
    requires written { IsWritten (header_in checked.now) (operation_in checked.now) }
    ensures means { AnswersTo (header_in checked.now) (operation_in checked.now) params.now imm
        result }
{
    let Some(mut prepared) = Prepared::for_one(alloc, checked, imm)? else {
        return Ok(None);
    };
    Ok(Some(prepared.apply(params, imm)))
}
