//! What an instance leaves in dst, lifted once for all of its lanes.

ghost use Rattle.std.specs.Prelude.{◌≡◌, ◌+◌, ◌*◌, ◌<◌, ◌≤◌, ◌++◌, ◌∷◌, [], IfOk, get_or, length, take};
ghost use Rattle.vg_pool.specs.Pool.{Keeps, StandsFor, tree_at};
ghost use Rattle.vg_script.specs.Formed.{ScriptFormed};
ghost use Rattle.vg_script.specs.Views.{script_of, whole_of};
ghost use Rattle.vg_range_laws.specs.Static.{IsStatic};
ghost use Rattle.vg_shapes.specs.Lane as shape;
ghost use Rattle.vg_lift.specs.Lanes.{sized};
ghost use Rattle.vg_lift.specs.LaneTerm.{lane_of, lifted_dst, of_number, parameters_from};
ghost use Rattle.vg_lift.specs.Passed.{AllPassedFit, all_passed};
ghost use Rattle.vg_lift.specs.States.{StateFits, state_of};
ghost use Rattle.vg_lift.specs.Views.{BitsFit, IsNode, bits_of};

use crate::begin::begin;
use crate::bit::Bit;
use crate::gather::gather;
use crate::lane::lane_at;
use crate::passed::Passed;
use crate::scripts::lift;
use crate::state::{State, copy_bits};
use std::alloc::{AllocError, Global};
use vg_base::Items;
use vg_pool::Pool;
use vg_script::Whole;
use vg_shapes::Lane;

/// The bits that an instance leaves in dst, over the nodes of a pool.
#[derive(Drop)]
pub struct Lifted {
    pub(crate) bits: Items<Bit>,
}

/// The parameters of an instance, so many of them.
#[tactic(auto, using(crate::proofs::Starting::next_parameter, crate::proofs::Starting::no_parameter, crate::proofs::Starting::parameter_fits))]
fn parameters_given(_pool: &Pool, alloc: Global, parameters: u32) -> Result<Vec<Passed>, AllocError>
    ensures is { IfOk result (λ v. all_passed _pool.now v.items ≡ parameters_from 0 parameters) }
    ensures fit { IfOk result (λ v. AllPassedFit _pool.now v.items) }
{
    let mut all = Vec::new(alloc);
    'parameters: for parameter in 0..parameters {
        all.push(Passed::Parameter { parameter })?;
    }
    Ok(all)
}

/// What the first registers of an instance are given: its parameters and after them the immediate.
#[tactic(auto, using(crate::proofs::Starting::first_of, crate::proofs::Starting::first_fit))]
fn given_first(
    _pool: &Pool,
    alloc: Global,
    registers: usize,
    parameters: u32,
    imm: u8,
) -> Result<Vec<Passed>, AllocError>
    ensures is { IfOk result (λ v. all_passed _pool.now v.items ≡
        take registers (parameters_from 0 parameters ++ of_number imm ∷ [])) }
    ensures fit { IfOk result (λ v. AllPassedFit _pool.now v.items) }
{
    let mut all = parameters_given(_pool, alloc, parameters)?;
    all.push(Passed::Number {
        number: u128::from(imm),
    })?;
    all.truncate(registers);
    Ok(all)
}

/// A copy of the bits of a register.
fn register_bits(alloc: Global, state: &State, register: usize) -> Result<Items<Bit>, AllocError>
    ensures { IfOk result (λ v. v ≡ get_or state.now.registers.items register []) }
{
    match state.registers.get(register) {
        None => copy_bits(alloc, &[]),
        Some(bits) => copy_bits(alloc, bits.as_slice()),
    }
}

/// Runs an instance once, whose entry has so many parameters, with this immediate. All its lanes are
/// gathered of what this answers. Fails for want of memory, also past 2^24 nodes of the pool or 2^21
/// bits of all registers of a body.
#[tactic(auto, using(crate::proofs::Starting::left_in_dst, crate::proofs::Starting::dst_fits, crate::proofs::Starting::dst_width))]
pub fn lift_instance(
    pool: &mut Pool,
    alloc: Global,
    instance: &Whole,
    parameters: u32,
    imm: u8,
) -> Result<Lifted, AllocError>
    requires formed { ScriptFormed instance.now.widths (script_of instance.now.script) }
    requires is_static { IsStatic (script_of instance.now.script) }
    ensures is { IfOk result (λ l.
        bits_of pool.new l.bits ≡ lifted_dst (whole_of instance.now) parameters imm) }
    ensures fit { IfOk result (λ l. BitsFit pool.new l.bits) }
    ensures width { IfOk result (λ l.
        length l.bits ≡ get_or instance.now.widths instance.now.result 0) }
    ensures keeps { Keeps pool.old pool.new }
{
    let given = given_first(pool, alloc, instance.parameters, parameters, imm)?;
    let mut state = begin(
        pool,
        alloc,
        instance.widths.as_slice(),
        instance.variables,
        given.as_slice(),
    )?;
    lift(pool, alloc, &mut state, &instance.script)?;
    let bits = register_bits(alloc, &state, instance.result)?;
    Ok(Lifted { bits })
}

impl Lifted {
    /// The node of the term of a lane of this width.
    #[tactic(auto, using(crate::proofs::StateSteps::range_fits, crate::proofs::StateSteps::range_of, crate::proofs::StateSteps::range_length))]
    pub(crate) fn lane(&self, pool: &mut Pool, width: u32, lane: u32) -> Result<usize, AllocError>
        requires fit { BitsFit pool.old self.now.bits }
        requires some { 0 < width }
        requires few { width ≤ 128 }
        requires inside { lane * width + width ≤ length self.now.bits }
        ensures node { IfOk result (λ n. StandsFor pool.new n (lane_of (bits_of pool.old
            self.now.bits) width lane)) }
        ensures keeps { Keeps pool.old pool.new }
    {
        let width = width as usize;
        let first = lane as usize * width;
        gather(pool, &self.bits.as_slice()[first..first + width])
    }

    /// A lane of this width: its term, or `Big` exactly where that has more than 1,024 nodes.
    pub(crate) fn term(
        &self,
        pool: &mut Pool,
        alloc: Global,
        width: u32,
        lane: u32,
    ) -> Result<Lane, AllocError>
        requires fit { BitsFit pool.old self.now.bits }
        requires some { 0 < width }
        requires few { width ≤ 128 }
        requires inside { lane * width + width ≤ length self.now.bits }
        ensures is { IfOk result (λ l. shape.lane_of l ≡ sized (lane_of (bits_of pool.old
            self.now.bits) width lane)) }
        ensures keeps { Keeps pool.old pool.new }
    {
        let node = self.lane(pool, width, lane)?;
        lane_at(pool, alloc, node)
    }
}
