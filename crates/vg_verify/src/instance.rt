//! Instances of instructions, by the terms of their lanes.

ghost use Rattle.std.specs.Prelude.{◌≡◌, ◌++◌, IfOk, OnOk, map};
ghost use Rattle.std.specs.List.{list_any};
ghost use Rattle.vg_catalog.specs.Called.{imm_number};
ghost use Rattle.vg_catalog.specs.Entries.{entry_of};
ghost use Rattle.vg_known.specs.Calls.{is_opaque};
ghost use Rattle.vg_names.specs.Written.{IsWritten};
ghost use Rattle.vg_range.specs.Checks.{header_in, operation_in};
ghost use Rattle.vg_shapes.specs.Lane.{lane_of};
ghost use Rattle.vg_verify.specs.Forms.{form_of, forms_of};
ghost use Rattle.vg_verify.specs.Instances.{IsInstance};

use std::alloc::{AllocError, Global};
use vg_forms::{Form, Maker};
use vg_lift::{has_lanes, lanes_of};
use vg_pool::Pool;
use vg_range::Checked;
use vg_range::unrolling::{has_instance, immediate_of};
use vg_shapes::Lane;

/// An entry, by its place among the entries, and the immediate that it is called with, 0 where there is none.
#[derive(Clone, Copy, PartialEq, Eq, Hash)]
pub(crate) struct Instance {
    pub entry: usize,
    pub imm: u8,
}

/// The lanes of an instance.
#[derive(Drop)]
pub(crate) struct Lanes {
    /// The canonical terms of those that have one, lane 0 first.
    pub forms: Vec<Form>,
    /// The width of a lane in bits.
    pub width: u32,
    /// Whether a lane has no term.
    pub is_opaque: bool,
}

/// An immediate as a number; 0 where there is none.
pub(crate) fn imm_number(imm: Option<u8>) -> u8
    ensures { result ≡ imm_number imm }
{
    match imm {
        Some(number) => number,
        None => 0,
    }
}

fn is_opaque(lane: &Lane) -> bool
    ensures { result ≡ is_opaque (lane_of lane.now) }
{
    match lane {
        Lane::Tree(_) => false,
        Lane::Big => true,
        Lane::Dynamic => true,
    }
}

// Whether one of these lanes has no term.
fn is_any_opaque(lanes: &[Lane]) -> bool
    ensures { result ≡ list_any is_opaque (map lane_of lanes.now) }
{
    match lanes {
        [] => false,
        [lane, behind @ ..] => {
            let first = is_opaque(lane);
            let rest = is_any_opaque(behind);
            first || rest
        }
    }
}

// Appends the canonical term of a lane, where it has a term.
fn push_form(
    alloc: Global,
    maker: &mut Maker,
    to: &mut Vec<Form>,
    lane: &Lane,
) -> Result<(), AllocError>
    ensures { OnOk result (to.new.items ≡ to.old.items ++ form_of (lane_of lane.now)) }
{
    match lane {
        Lane::Tree(term) => {
            let term = term.copy(alloc)?;
            let form = maker.settle(alloc, term)?;
            to.push(form)?;
            Ok(())
        }
        Lane::Big => Ok(()),
        Lane::Dynamic => Ok(()),
    }
}

// Appends the canonical terms of lanes.
fn push_forms(
    alloc: Global,
    maker: &mut Maker,
    to: &mut Vec<Form>,
    lanes: &[Lane],
) -> Result<(), AllocError>
    ensures { OnOk result (to.new.items ≡ to.old.items ++ forms_of (map lane_of lanes.now)) }
{
    match lanes {
        [] => Ok(()),
        [lane, behind @ ..] => {
            push_form(alloc, maker, to, lane)?;
            push_forms(alloc, maker, to, behind)
        }
    }
}

/// The lanes of the instance of an entry for an immediate. Fails for want of memory, also at the bounds of
/// `vg_lift::lift_entry` and of `Maker`, and for an immediate or lanes that no valid program calls.
pub(crate) fn lanes_for(
    alloc: Global,
    maker: &mut Maker,
    entry: &Checked,
    imm: u8,
) -> Result<Lanes, AllocError>
    requires { IsWritten (header_in entry.now) (operation_in entry.now) }
    ensures { IfOk result (IsInstance (entry_of entry.now) imm) }
{
    let header = entry.header();
    if !has_lanes(header) || !has_instance(&header.imm, immediate_of(&header.imm, imm)) {
        return Err(AllocError);
    }
    let mut pool = Pool::new(alloc);
    let lanes = lanes_of(&mut pool, alloc, entry, imm)?;
    let mut forms = Vec::new(alloc);
    push_forms(alloc, maker, &mut forms, &lanes)?;
    Ok(Lanes {
        forms,
        width: header.lane_width,
        is_opaque: is_any_opaque(&lanes),
    })
}
