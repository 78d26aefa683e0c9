//! The loads that both sides lack.

ghost use Rattle.std.specs.Prelude.{◌≡◌, ◌++◌, ◌∷◌, [], replicate, IfOk, OnOk};
ghost use Rattle.vg_events.specs.Events.{labels_in, labels_of, unit_labels};
ghost use Rattle.vg_paired.specs.ByteLabels.{label_of};
ghost use Rattle.vg_paired.specs.Tallies.{Adds};
ghost use Rattle.vg_shapes.specs.Layout.{access_of};
ghost use Rattle.vg_levelled.specs.Adding.{FindsMissing, FindsUnits};

use crate::sides::Sides;
use std::alloc::{AllocError, Global};
use vg_base::Items;
use vg_paired::{ByteLabel, Tally};
use vg_shapes::{Access, SsaUnit};

/// The most loads that are added to a kernel.
const MOST_ADDED: usize = 8192;

/// A unit so often behind units, with its events.
fn push_copies(
    unit: SsaUnit,
    count: usize,
    units: &mut Vec<SsaUnit>,
    kernel: &mut Tally,
) -> Result<(), AllocError>
    ensures units { OnOk result (units.new.items ≡ units.old.items ++ replicate count unit) }
    ensures kernel { OnOk result (Adds kernel.old kernel.new (unit_labels (replicate count unit))) }
{
    'copies: for copy in 0..count {
        units.push(unit)?;
        kernel.add_any(unit.access())?;
    }
    Ok(())
}

/// The loads that are made once more for units; none where they are more than 8,192. Fails for want of memory
/// alone.
pub(crate) fn added_units(
    alloc: Global,
    sides: &mut Sides,
    units: &[SsaUnit],
) -> Result<Option<Items<SsaUnit>>, AllocError>
    ensures { IfOk result (FindsUnits sides.old sides.new units.now) }
{
    let mut added = Vec::new(alloc);
    'units: for unit in units {
        let count = sides.copies_of(unit);
        if count > MOST_ADDED - added.len() {
            return Ok(None);
        }
        push_copies(*unit, count, &mut added, &mut sides.kernel)?;
    }
    Ok(Some(Items::from_vec(added)))
}

/// Notes the load of a byte that the program lacks.
fn note(sides: &mut Sides, label: ByteLabel, found: &mut Vec<ByteLabel>) -> Result<(), AllocError>
    ensures { OnOk result (FindsMissing sides.old sides.new (label_of label ∷ []) found.old.items found.new.items) }
{
    if sides.is_missing(label) {
        found.push(label)?;
        sides.program.add(label)?;
    }
    Ok(())
}

/// The same of the bytes of an access.
fn note_access(
    sides: &mut Sides,
    access: Access,
    found: &mut Vec<ByteLabel>,
) -> Result<(), AllocError>
    ensures { OnOk result (FindsMissing sides.old sides.new (labels_of access) found.old.items found.new.items) }
{
    'bytes: for byte in 0..access.size {
        note(sides, ByteLabel::of(access, byte), found)?;
    }
    Ok(())
}

/// The same of what a unit accesses.
fn note_unit(
    sides: &mut Sides,
    unit: &SsaUnit,
    found: &mut Vec<ByteLabel>,
) -> Result<(), AllocError>
    ensures { OnOk result (FindsMissing sides.old sides.new (labels_in (access_of unit.now))
        found.old.items found.new.items) }
{
    match unit.access() {
        None => Ok(()),
        Some(access) => note_access(sides, access, found),
    }
}

/// Notes the loads that the program lacks of what units access. Fails for want of memory alone.
pub(crate) fn note_units(
    sides: &mut Sides,
    units: &[SsaUnit],
    found: &mut Vec<ByteLabel>,
) -> Result<(), AllocError>
    ensures { OnOk result (FindsMissing sides.old sides.new (unit_labels units.now) found.old.items found.new.items) }
{
    'units: for unit in units {
        note_unit(sides, unit, found)?;
    }
    Ok(())
}
