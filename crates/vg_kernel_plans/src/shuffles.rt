//! Shuffles: instances whose lanes move parts of their parameters.

ghost use Rattle.std.specs.Prelude.{◌≡◌, ◌&&◌, ◌+◌, ◌<◌, ◌^◌, [], ◌∷◌, IfOk, OnOk, length, map, nat_eq};
ghost use Rattle.std.specs.List.{list_all};
ghost use Rattle.vg_terms.specs.Term.{tree};
ghost use Rattle.vg_shapes.specs.Description.{description_of};
ghost use Rattle.vg_kernel_plans.specs.Shuffles.{is_lane_slot, is_moved, is_shuffle};

use crate::wants::wants_value;
use std::alloc::{AllocError, Global};
use vg_shapes::{Description, Operand, Slot};
use vg_terms::Term;

/// Whether a lane is a leaf or the constant 0.
fn is_moved(lane: &Term) -> bool
    ensures { result ≡ is_moved (tree lane.now) }
{
    match lane {
        Term::Leaf { .. } => true,
        Term::Const { value, .. } => *value == 0,
        Term::One { .. } => false,
        Term::Two { .. } => false,
        Term::Sel { .. } => false,
    }
}

fn are_moved(lanes: &[Term]) -> bool
    ensures { result ≡ list_all (λ t. is_moved (tree t)) lanes.now }
{
    lanes.iter().all(|lane| is_moved(lane))
}

fn are_all(widths: &[u32], width: u32) -> bool
    ensures { result ≡ list_all (nat_eq width) widths.now }
{
    widths.iter().all(|w| width == *w)
}

fn have_one_width(widths: &[u32]) -> bool
    ensures { result ≡ list_all (λ x. list_all (nat_eq x) widths.now) widths.now }
{
    widths.iter().all(|w| are_all(widths, *w))
}

#[tactic(auto, using(crate::proofs::Moved::all_moved))]
/// Whether all lanes of an instance are leaves or the constant 0, and its parameters have one width.
pub fn is_shuffle(description: &Description) -> bool
    ensures { result ≡ is_shuffle (description_of description.now) }
{
    are_moved(description.lanes.as_slice()) && have_one_width(description.params.as_slice())
}

/// Whether a slot wants a value and is a lane of this width.
fn is_lane_slot(width: u32, slot: &Slot) -> bool
    requires { 0 < width }
    ensures { result ≡ is_lane_slot width slot.now }
{
    wants_value(slot.wanted) && (slot.width == width && slot.low % width == 0)
}
