//! Accepted entries, written out for one immediate.

ghost use Rattle.std.specs.Prelude.{◌≡◌, true, ◌&&◌, IfOk};
ghost use Rattle.std.specs.Option.{option_map};
ghost use Rattle.vg_names.specs.Views.{resolved_of};
ghost use Rattle.vg_script.specs.Views.{whole_of};
ghost use Rattle.vg_range.specs.Seen.{state_view};
ghost use Rattle.vg_range.specs.Checks.{header_in, operation_in};
ghost use Rattle.vg_range.specs.Immediates.{IsByte, has_instance, immediate_of};
ghost use Rattle.vg_range.specs.Unrolled.{IsFormedEntry, MeansEntry, OnInstance, Unrolls, is_memory, whole_from};

use crate::checked::Checked;
use crate::instance_walk::instance_at;
use crate::nodes::nodes_of;
use crate::walk_state::WalkState;
use std::alloc::{AllocError, Global};
use vg_base::Items;
use vg_interval::RangeFault;
use vg_names::{Resolved, resolved_operations_are_proper};
use vg_pseudo::ImmRange;
use vg_script::Whole;

/// Whether an entry has an instance for this: a number of its range, or none where it has no
/// immediate.
pub fn has_instance(range: &Option<ImmRange>, imm: Option<u8>) -> bool
    ensures { result ≡ has_instance range.now imm }
{
    match (range, imm) {
        (None, None) => true,
        (Some(range), Some(imm)) => range.lo <= imm && imm <= range.hi,
        _ => false,
    }
}

/// What stands for an immediate: nothing where the entry has none.
pub fn immediate_of(range: &Option<ImmRange>, imm: u8) -> Option<u8>
    ensures { result ≡ immediate_of range.now imm }
{
    match range {
        Some(_) => Some(imm),
        None => None,
    }
}

fn wide(imm: Option<u8>) -> Option<u128>
    ensures is { result ≡ imm }
    ensures small { IsByte imm }
{
    match imm {
        Some(imm) => Some(imm as u128),
        None => None,
    }
}

/// The want of memory that the fault of an accepted entry is.
fn memory_error(fault: RangeFault) -> AllocError
    requires { is_memory fault ≡ true }
{
    match fault {
        RangeFault::Memory(error) => error,
        _ => AllocError,
    }
}

fn copy_widths(alloc: Global, widths: &[u128]) -> Result<Items<u128>, AllocError>
    ensures { IfOk result (λ ws. ws ≡ widths.now) }
{
    let mut copies = Vec::new(alloc);
    copies.extend_from_slice(widths)?;
    Ok(Items::from_vec(copies))
}

/// An operation whose walk ends here, written out.
#[inline(never)]
fn whole_from(
    alloc: Global,
    resolved: &Resolved,
    state: Box<WalkState>,
) -> Result<Whole, AllocError>
    ensures { IfOk result (λ w. whole_of w ≡ whole_from (resolved_of resolved.now) (state_view
        state.value)) }
{
    let widths = copy_widths(alloc, resolved.body.widths.as_slice())?;
    let state = Box::into_inner(state);
    let nodes = nodes_of(&state.script);
    Ok(Whole {
        widths,
        parameters: resolved.body.parameters,
        variables: resolved.body.numbers,
        result: resolved.result,
        script: state.script,
        is_dynamic: state.count.is_dynamic,
        nodes,
    })
}

impl Checked {
    /// The entry written out for an immediate, as a script of straight statements; None where it has no instance for it.
    /// Since the entry is accepted it fails for want of memory alone, which it answers also where more than 2^24 slices,
    /// operators, functions and choices are written out for the instance; what is judged and not kept counts for none.
    ///
    /// Where a text can say the entry, its words and slices keep their widths, and for all parameters it leaves in dst the
    /// bits that the entry means. So whoever runs or lifts it looks at no text and no interval again.
    pub fn unroll(&self, alloc: Global, imm: Option<u8>) -> Result<Option<Whole>, AllocError>
        ensures is { Unrolls self.now imm result }
        ensures formed { OnInstance (IsFormedEntry (header_in self.now) (operation_in self.now))
            result }
        ensures means { OnInstance (MeansEntry (header_in self.now) (operation_in self.now) imm)
            result }
    {
        resolved_operations_are_proper();
        if !has_instance(&self.header().imm, imm) {
            return Ok(None);
        }
        let state = match instance_at(alloc, true, &self.resolved, wide(imm)) {
            Ok(state) => state,
            Err(fault) => return Err(memory_error(fault)),
        };
        let whole = whole_from(alloc, &self.resolved, state)?;
        Ok(Some(whole))
    }
}
