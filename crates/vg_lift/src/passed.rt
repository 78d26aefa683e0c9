//! What registers are given as a body begins.

ghost use Rattle.std.specs.Prelude.{◌≡◌, ◌-◌, ◌++◌, ◌<◌, ◌≤◌, IfOk, OnOk, length, replicate, take};
ghost use Rattle.vg_pool.specs.Pool.{Keeps};
ghost use Rattle.vg_lift.specs.Gather.{inputs_from};
ghost use Rattle.vg_lift.specs.LaneTerm.{bits_passed};
ghost use Rattle.vg_lift.specs.Passed.{PassedFits, passed_of};
ghost use Rattle.vg_lift.specs.Views.{BitsFit, bits_of};
ghost use Rattle.vg_lift.specs.declared.bit.Bit.TheVariants.{Clear};

use crate::bit::Bit;
use crate::constant::constant_bits;
use std::alloc::{AllocError, Global};
use vg_base::Items;
use vg_pool::Pool;
use vg_script::WholeNumber;

/// What a register is given.
#[derive(Drop)]
pub enum Passed {
    /// These bits, cut to its width, or zeros above them.
    Bits { bits: Items<Bit> },
    /// A constant.
    Number { number: u128 },
    /// The bits of a parameter of the instance.
    Parameter { parameter: u32 },
}

/// Appends so many bits that are 0.
pub(crate) fn push_clears(bits: &mut Vec<Bit>, count: usize) -> Result<(), AllocError>
    ensures { OnOk result (bits.new.items ≡ bits.old.items ++ replicate count Clear) }
{
    let clears = [Bit::Clear; 64];
    'clears: for _place in 0..count / 64 {
        bits.extend_from_slice(&clears)?;
    }
    bits.extend_from_slice(&clears[..count % 64])?;
    Ok(())
}

/// Bits cut to a width, or zeros above them.
#[tactic(auto, using(crate::proofs::Begins::padded_is))]
pub(crate) fn padded_bits(
    alloc: Global,
    bits: &[Bit],
    width: usize,
) -> Result<Items<Bit>, AllocError>
    ensures { IfOk result (λ v. v ≡ take width bits.now ++ replicate (width - length bits.now)
        Clear) }
{
    let count = width.min(bits.len());
    let mut all = Vec::with_capacity(alloc, width)?;
    all.extend_from_slice(&bits[..count])?;
    push_clears(&mut all, width - count)?;
    Ok(Items::from_vec(all))
}

/// So many bits of a parameter, from the lowest on.
#[tactic(auto, using(crate::proofs::Begins::next_input, crate::proofs::Begins::no_input, crate::proofs::Begins::input_fits))]
fn input_bits(
    _pool: &Pool,
    alloc: Global,
    parameter: u32,
    width: u32,
) -> Result<Items<Bit>, AllocError>
    ensures is { IfOk result (λ v. bits_of _pool.now v ≡ inputs_from parameter 0 width) }
    ensures fit { IfOk result (λ v. BitsFit _pool.now v) }
{
    let mut all = Vec::with_capacity(alloc, width as usize)?;
    'bits: for bit in 0..width {
        all.push(Bit::Input { parameter, bit })?;
    }
    Ok(Items::from_vec(all))
}

/// The bits of a register of a width that is given this.
#[tactic(auto, using(crate::proofs::Begins::padded_of, crate::proofs::Begins::padded_fits, crate::proofs::Constants::natural_pieces))]
pub(crate) fn bits_passed(
    pool: &mut Pool,
    alloc: Global,
    width: u32,
    passed: &Passed,
) -> Result<Items<Bit>, AllocError>
    requires fits { PassedFits pool.old passed.now }
    ensures is { IfOk result (λ v. bits_of pool.new v ≡ bits_passed width (passed_of pool.old
        passed.now)) }
    ensures fit { IfOk result (λ v. BitsFit pool.new v) }
    ensures keeps { Keeps pool.old pool.new }
{
    match passed {
        Passed::Bits { bits } => padded_bits(alloc, bits.as_slice(), width as usize),
        Passed::Number { number } => {
            constant_bits(pool, alloc, WholeNumber::Natural(*number), width)
        }
        Passed::Parameter { parameter } => input_bits(pool, alloc, *parameter, width),
    }
}
