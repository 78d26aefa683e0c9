//! Which instructions a program calls, and where each call finds what answers it.

ghost use Rattle.std.specs.Prelude.{◌≡◌, ◌<◌, [], length, map, slice_get, IfOk, OnOk, Some};
ghost use Rattle.vg_catalog.specs.Called.{headers_of};
ghost use Rattle.vg_catalog.specs.Entries.{entry_of};
ghost use Rattle.vg_catalog.specs.Written.{AllWritten};
ghost use Rattle.vg_machine.specs.ReadyInstance.{AreCalled, ArePlanned, Answered, IsCalled, Placed, Planned, instances_of, kept_of};
ghost use Rattle.vg_machine.specs.Planner.{IsSound, has_room, planned_of};
ghost use Rattle.vg_names.specs.Written.{IsWritten};
ghost use Rattle.vg_pmean.specs.Entries.{AnswersOne};
ghost use Rattle.vg_pmean.specs.Readied.{ready_of};
ghost use Rattle.vg_program.specs.Valid.{KeepsRules};
ghost use Rattle.vg_range.specs.Checks.{header_in, operation_in};

use crate::calling::imm_number;
use crate::instances::{Called, Instances, KeptInstance};
use crate::named_entries::NamedEntries;
use indexmap::IndexMap;
use std::alloc::{AllocError, Global};
use vg_pmean::Prepared;
use vg_program::line::Line;
use vg_program::program::Program;
use vg_range::Checked;

/// The greatest number of nodes of all scripts that a machine keeps.
const MAX_NODES: u64 = 16_777_216;

/// The greatest number of bytes of all frames that a machine keeps.
const MAX_FRAME_BYTES: usize = 268_435_456;

/// How much all that is kept has.
#[derive(Clone, Copy)]
struct Size {
    nodes: u64,
    frame_bytes: usize,
}

impl Size {
    /// With one entry more that is made ready. Fails for want of memory past the limits.
    fn with(self, prepared: &Prepared) -> Result<Size, AllocError> {
        let nodes = self.nodes.saturating_add(prepared.nodes());
        let frame_bytes = self.frame_bytes.saturating_add(prepared.frame_bytes());
        if nodes > MAX_NODES || frame_bytes > MAX_FRAME_BYTES {
            return Err(AllocError);
        }
        Ok(Size { nodes, frame_bytes })
    }
}

/// Makes ready what is called, each entry once for each immediate.
#[derive(Drop)]
struct Planner<'a> {
    entries: NamedEntries<'a>,
    places: IndexMap<Called, usize>,
    kept: Vec<KeptInstance>,
    size: Size,
}

/// An entry made ready for this immediate.
fn ready_for(alloc: Global, checked: &Checked, imm: u8) -> Result<Prepared, AllocError>
    requires { IsWritten (header_in checked.now) (operation_in checked.now) }
    ensures { IfOk result
        (λ p. AnswersOne (header_in checked.now) (operation_in checked.now) imm (ready_of p)) }
{
    match Prepared::for_one(alloc, checked, imm)? {
        Some(prepared) => Ok(prepared),
        None => Err(AllocError),
    }
}

/// The entry at this place.
fn entry_at(entries: &[Checked], place: usize) -> &Checked
    requires { place < length entries.now }
    ensures { slice_get (map entry_of entries.now) place ≡ Some (entry_of result.now) }
{
    &entries[place]
}

/// Whether a machine can pass so many registers, and keep a result of so many bits.
fn has_room(registers: &[u32], bits: u32) -> bool
    ensures { result ≡ has_room (length registers.now) bits }
{
    registers.len() <= 4 && bits <= 512 && bits / 8 * 8 == bits
}

impl<'a> Planner<'a> {
    fn new(alloc: Global, entries: &'a [Checked]) -> Result<Planner<'a>, AllocError>
        ensures planned { IfOk result
            (λ p. planned_of p ≡ record { entries = map entry_of entries.now; kept = [] }) }
        ensures sound { IfOk result (λ p. IsSound p) }
    {
        let entries = NamedEntries::new(alloc, entries)?;
        Ok(Planner {
            entries,
            places: IndexMap::new(alloc),
            kept: Vec::new(alloc),
            size: Size {
                nodes: 0,
                frame_bytes: 0,
            },
        })
    }

    fn into_kept(self) -> Vec<KeptInstance>
        ensures { result.items ≡ self.entry.kept.items }
    {
        let Planner { kept, .. } = self;
        kept
    }

    /// Where an entry is kept for an immediate. It is made ready if it is not there yet.
    fn place(&mut self, alloc: Global, called: Called) -> Result<usize, AllocError>
        requires written { AllWritten (planned_of self.old).entries }
        requires entry { called.entry < length (planned_of self.old).entries }
        requires sound { IsSound self.old }
        ensures placed { IfOk result
            (λ place. Placed (planned_of self.old) (planned_of self.new) called place) }
        ensures sound { OnOk result (IsSound self.new) }
    {
        if let Some(place) = self.places.get(&called) {
            return Ok(*place);
        }
        let checked = entry_at(self.entries.entries, called.entry);
        let prepared = ready_for(alloc, checked, called.imm)?;
        let size = self.size.with(&prepared)?;
        let place = self.kept.as_slice().len();
        self.kept.push(KeptInstance { called, prepared })?;
        self.places.insert(called, place)?;
        self.size = size;
        Ok(place)
    }

    /// Where what answers calls of this name with this immediate is kept.
    fn place_named(&mut self, alloc: Global, name: &[u8], imm: u8) -> Result<usize, AllocError>
        requires written { AllWritten (planned_of self.old).entries }
        requires sound { IsSound self.old }
        ensures answered { IfOk result
            (λ place. Answered (planned_of self.old) (planned_of self.new) name.now imm place) }
        ensures sound { OnOk result (IsSound self.new) }
    {
        let Some(entry) = self.entries.find(name) else {
            return Err(AllocError);
        };
        self.place(alloc, Called { entry, imm })
    }

    /// Where what answers a line is kept; 0 for a line that calls nothing.
    fn plan(&mut self, alloc: Global, line: &Line) -> Result<usize, AllocError>
        requires written { AllWritten (planned_of self.old).entries }
        requires called { IsCalled (planned_of self.old).entries line.now }
        requires sound { IsSound self.old }
        ensures planned { IfOk result
            (λ place. Planned (planned_of self.old) (planned_of self.new) line.now place) }
        ensures sound { OnOk result (IsSound self.new) }
    {
        match line {
            Line::Call {
                name,
                registers,
                imm,
                bits,
                ..
            } => {
                if !has_room(registers.as_slice(), *bits) {
                    return Err(AllocError);
                }
                self.place_named(alloc, name.bytes(), imm_number(*imm))
            }
            _ => Ok(0),
        }
    }
}

/// Makes ready what lines call, and says for each of them where that is kept.
fn planned_lines<'a>(
    alloc: Global,
    entries: &'a [Checked],
    lines: &[Line],
) -> Result<(Instances<'a>, Vec<usize>), AllocError>
    requires called { AreCalled (map entry_of entries.now) lines.now }
    requires written { AllWritten (map entry_of entries.now) }
    ensures entries { IfOk result (λ made. made.0.entries.now ≡ entries.now) }
    ensures planned { IfOk result (λ made. ArePlanned (instances_of made.0) made.1.items 0
        lines.now) }
{
    let mut planner = Planner::new(alloc, entries)?;
    let mut plan = Vec::new(alloc);
    let mut left = lines;
    'lines: while let [line, behind @ ..] = left {
        let place = planner.plan(alloc, line)?;
        plan.push(place)?;
        left = behind;
    }
    let kept = planner.into_kept();
    Ok((Instances { entries, kept }, plan))
}

/// Makes ready what a program calls, and says for each of its lines where that is kept.
#[tactic(auto, using(crate::proofs::Planning::rules_call))]
pub(crate) fn planned<'a>(
    alloc: Global,
    entries: &'a [Checked],
    program: &Program,
) -> Result<(Instances<'a>, Vec<usize>), AllocError>
    requires rules { KeepsRules (headers_of (map entry_of entries.now)) program.now }
    requires written { AllWritten (map entry_of entries.now) }
    ensures entries { IfOk result (λ made. made.0.entries.now ≡ entries.now) }
    ensures planned { IfOk result (λ made. ArePlanned (instances_of made.0) made.1.items 0
        program.now.lines) }
{
    planned_lines(alloc, entries, program.lines.as_slice())
}
