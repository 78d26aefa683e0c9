//! Registers and variables as a body begins.

ghost use Rattle.std.specs.Prelude.{◌≡◌, ◌+◌, ◌<◌, ◌≤◌, IfOk, OnOk, drop, length, map, replicate};
ghost use Rattle.vg_pool.specs.Pool.{Keeps, StandsFor, tree_at};
ghost use Rattle.vg_terms.specs.Term.{constant};
ghost use Rattle.vg_lift.specs.Gather.{clear};
ghost use Rattle.vg_lift.specs.LaneTerm.{begun, entered};
ghost use Rattle.vg_lift.specs.Passed.{AllPassedFit, PassedFits, all_passed, first_bits};
ghost use Rattle.vg_lift.specs.States.{AllFit, AreNodes, Begins, StateFits, state_of, widths_in};
ghost use Rattle.vg_lift.specs.Views.{BitsFit, IsNode, bits_of};

use crate::bit::Bit;
use crate::passed::{Passed, bits_passed, push_clears};
use crate::putting::width_of;
use crate::state::State;
use std::alloc::{AllocError, Global};
use vg_base::Items;
use vg_pool::Pool;
use vg_terms::make_const;

/// The greatest number of bits of all registers of a body.
const MAX_BITS: u128 = 2_097_152;

/// Whether registers of these widths have few bits together.
fn are_few(widths: &[u128]) -> bool {
    let mut left = MAX_BITS;
    for width in widths {
        if *width > left {
            return false;
        }
        left -= *width;
    }
    true
}

/// So many bits that are 0.
#[tactic(auto, using(crate::proofs::Begins::clears_of, crate::proofs::Begins::cleared_fit))]
fn cleared(_pool: &Pool, alloc: Global, width: u32) -> Result<Items<Bit>, AllocError>
    ensures is { IfOk result (λ v. bits_of _pool.now v ≡ replicate width clear) }
    ensures fit { IfOk result (λ v. BitsFit _pool.now v) }
{
    let mut all = Vec::with_capacity(alloc, width as usize)?;
    push_clears(&mut all, width as usize)?;
    Ok(Items::from_vec(all))
}

/// The bits of a register of a width, where the registers are given these one after the other.
#[tactic(auto, using(crate::proofs::Begins::passed_at, crate::proofs::Begins::first_given, crate::proofs::Begins::first_cleared))]
fn register_bits(
    pool: &mut Pool,
    alloc: Global,
    width: u32,
    given: &[Passed],
    place: usize,
) -> Result<Items<Bit>, AllocError>
    requires fit { AllPassedFit pool.old given.now }
    ensures is { IfOk result (λ v. bits_of pool.new v ≡
        first_bits width (drop place (all_passed pool.old given.now))) }
    ensures fit { IfOk result (λ v. BitsFit pool.new v) }
    ensures keeps { Keeps pool.old pool.new }
{
    match given.get(place) {
        None => cleared(pool, alloc, width),
        Some(passed) => bits_passed(pool, alloc, width, passed),
    }
}

/// The bits of registers of these widths, the first of which are given these.
#[tactic(auto, using(crate::proofs::Begins::entered_step, crate::proofs::Begins::entered_end, crate::proofs::Begins::all_passed_kept, crate::proofs::Begins::all_passed_fit, crate::proofs::StateSteps::registers_kept, crate::proofs::StateSteps::register_behind))]
fn entered(
    pool: &mut Pool,
    alloc: Global,
    widths: &[u128],
    given: &[Passed],
) -> Result<Vec<Items<Bit>>, AllocError>
    requires fit { AllPassedFit pool.old given.now }
    ensures is { IfOk result (λ v. map (bits_of pool.new) v.items ≡
        entered widths.now (all_passed pool.old given.now)) }
    ensures fit { IfOk result (λ v. AllFit pool.new v.items) }
    ensures keeps { Keeps pool.old pool.new }
{
    let mut all = Vec::with_capacity(alloc, widths.len())?;
    'registers: for place in 0..widths.len() {
        let width = width_of(widths[place])?;
        let bits = register_bits(pool, alloc, width, given, place)?;
        all.push(bits)?;
    }
    Ok(all)
}

/// So many variables, all of them zero.
#[tactic(auto, using(crate::proofs::Begins::zeros_are, crate::proofs::Begins::zeros_nodes))]
fn zeros(pool: &mut Pool, alloc: Global, count: usize) -> Result<Vec<usize>, AllocError>
    ensures is { IfOk result (λ v. map (tree_at pool.new) v.items ≡ replicate count (constant 128
        0)) }
    ensures nodes { IfOk result (λ v. AreNodes pool.new v.items) }
    ensures keeps { Keeps pool.old pool.new }
{
    let zero = pool.intern(&make_const(128, 0))?;
    let mut nodes = Vec::new(alloc);
    nodes.resize(count, zero)?;
    Ok(nodes)
}

/// Registers of these widths and so many variables as a body begins. The first registers are given
/// these, the others and the variables are zeros. Fails for want of memory, also past 2^21 bits of
/// all registers.
pub(crate) fn begin(
    pool: &mut Pool,
    alloc: Global,
    widths: &[u128],
    variables: usize,
    given: &[Passed],
) -> Result<State, AllocError>
    requires fit { AllPassedFit pool.old given.now }
    ensures begins { IfOk result (λ s. Begins pool.new widths.now s
        (begun widths.now variables (all_passed pool.old given.now))) }
    ensures keeps { Keeps pool.old pool.new }
{
    if !are_few(widths) {
        return Err(AllocError);
    }
    let registers = entered(pool, alloc, widths, given)?;
    let variables = zeros(pool, alloc, variables)?;
    Ok(State {
        registers,
        variables,
    })
}
