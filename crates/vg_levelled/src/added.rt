//! What is added to a kernel and to a program.

ghost use Rattle.std.specs.Prelude.{◌++◌, [], IfOk};
ghost use Rattle.vg_events.specs.Events.{labels, unit_labels};
ghost use Rattle.vg_paired.specs.Tallies.{Counts};
ghost use Rattle.vg_levelled.specs.Adding.{FindsMissing};
ghost use Rattle.vg_levelled.specs.Found.{HasSides, IsAdded};

use crate::adding::{added_units, note_units};
use crate::met::met_pointers;
use crate::sides::Sides;
use std::alloc::{AllocError, Global};
use vg_base::Items;
use vg_paired::{ByteLabel, Tally, line_accesses, noalias_flags, unit_accesses};
use vg_program::Program;
use vg_shapes::{Access, Ssa, SsaUnit};

/// The loads that are made once more at the end of a kernel, and the bytes that a program loads once more at
/// its end.
#[derive(Drop)]
pub struct Added {
    pub units: Items<SsaUnit>,
    pub loads: Vec<ByteLabel>,
}

/// How many events of accesses have each label.
fn tally(alloc: Global, accesses: &[Option<Access>]) -> Result<Tally, AllocError>
    ensures { IfOk result (Counts (labels accesses.now)) }
{
    let mut tally = Tally::new(alloc);
    tally.add_all(accesses)?;
    Ok(tally)
}

fn sides_of(alloc: Global, ssa: &Ssa, program: &Program) -> Result<Sides, AllocError>
    ensures { IfOk result (HasSides ssa.now program.now) }
{
    let flags = noalias_flags(alloc, ssa)?;
    let units = ssa.units.as_slice();
    let met = met_pointers(alloc, &flags, units)?;
    let accesses = unit_accesses(alloc, units)?;
    let kernel = tally(alloc, &accesses)?;
    let lines = line_accesses(alloc, program.lines.as_slice())?;
    let program = tally(alloc, &lines)?;
    Ok(Sides {
        met,
        kernel,
        program,
    })
}

/// The bytes that the program loads once more, where these are the loads that are added to the kernel.
fn loads_for(
    alloc: Global,
    sides: &mut Sides,
    units: &[SsaUnit],
    added: &[SsaUnit],
) -> Result<Vec<ByteLabel>, AllocError>
    ensures { IfOk result (λ loads. FindsMissing sides.old sides.new
        (unit_labels units.now ++ unit_labels added.now) [] loads.items) }
{
    let mut loads = Vec::new(alloc);
    note_units(sides, units, &mut loads)?;
    note_units(sides, added, &mut loads)?;
    Ok(loads)
}

/// What is added to a kernel and to a program, so that both load a byte equally often which no store of the
/// kernel may touch; none where the kernel would get more than 8,192 loads. Fails for want of memory alone.
pub fn loads_to_add(
    alloc: Global,
    ssa: &Ssa,
    program: &Program,
) -> Result<Option<Added>, AllocError>
    ensures { IfOk result (IsAdded ssa.now program.now) }
{
    let mut sides = sides_of(alloc, ssa, program)?;
    let units = ssa.units.as_slice();
    match added_units(alloc, &mut sides, units)? {
        None => Ok(None),
        Some(added) => {
            let loads = loads_for(alloc, &mut sides, units, added.as_slice())?;
            Ok(Some(Added {
                units: added,
                loads,
            }))
        }
    }
}
