//! Bits and terms that are put into a state.

ghost use Rattle.std.specs.Prelude.{◌≡◌, ◌+◌, ◌<◌, ◌≤◌, [], IfOk, OnOk, get_or, length};
ghost use Rattle.vg_base.specs.Number.{residue};
ghost use Rattle.vg_bits.specs.Range.{range};
ghost use Rattle.vg_pool.specs.Pool.{Keeps, StandsFor, tree_at};
ghost use Rattle.vg_script.specs.Views.{number_of};
ghost use Rattle.vg_terms.specs.Resize.{low};
ghost use Rattle.vg_terms.specs.Term.{IsWidth};
ghost use Rattle.vg_lift.specs.Gather.{bits_from, gather};
ghost use Rattle.vg_lift.specs.LaneTerm.{part, pieces, with_bits};
ghost use Rattle.vg_lift.specs.States.{Leaves, StateFits, state_of, widths_in, with_variable};
ghost use Rattle.vg_lift.specs.Views.{BitsFit, IsNode, bits_of};

use crate::bit::Bit;
use crate::constant::constant_bits;
use crate::gather::gather;
use crate::join::push_bits;
use crate::passed::padded_bits;
use crate::run::low_node;
use crate::state::{State, copy_bits};
use std::alloc::{AllocError, Global};
use vg_base::Items;
use vg_pool::Pool;
use vg_script::WholeNumber;

/// The greatest width of a register in bits.
const MAX_WIDTH: u128 = 16_777_216;

/// A width of at most 2^24 bits, or want of memory.
pub(crate) fn width_of(width: u128) -> Result<u32, AllocError>
    ensures { IfOk result (λ w. w ≡ width) }
{
    if width > MAX_WIDTH {
        Err(AllocError)
    } else {
        Ok(width as u32)
    }
}

/// The number of a bit, or want of memory where it is more than an address can say.
fn bit_of(bit: u128) -> Result<usize, AllocError>
    ensures { IfOk result (λ b. b ≡ bit) }
{
    if bit > usize::MAX as u128 {
        Err(AllocError)
    } else {
        Ok(bit as usize)
    }
}

/// So many bits of a register from a bit on, but those past its end.
#[tactic(auto, using(crate::proofs::Puts::slice_is, crate::proofs::Puts::slice_fits))]
pub(crate) fn moved_bits(
    pool: &Pool,
    alloc: Global,
    state: &State,
    register: usize,
    first: u128,
    width: u128,
) -> Result<Items<Bit>, AllocError>
    requires { StateFits pool.now state.now }
    ensures is { IfOk result (λ v. bits_of pool.now v ≡
        range first width (get_or (state_of pool.now state.now).registers register [])) }
    ensures fit { IfOk result (λ v. BitsFit pool.now v) }
{
    let bits = copy_bits(alloc, state.slice(register, first, width))?;
    Ok(bits)
}

/// So many bits of a register from a bit on; past its end are zeros.
#[tactic(auto, using(crate::proofs::Puts::part_is, crate::proofs::Puts::part_fits, crate::proofs::Puts::part_count))]
pub(crate) fn part_of(
    pool: &Pool,
    alloc: Global,
    state: &State,
    register: usize,
    first: u128,
    width: u128,
) -> Result<Items<Bit>, AllocError>
    requires { StateFits pool.now state.now }
    ensures is { IfOk result (λ v. bits_of pool.now v ≡
        part first width (get_or (state_of pool.now state.now).registers register [])) }
    ensures fit { IfOk result (λ v. BitsFit pool.now v) }
    ensures count { IfOk result (λ v. length v ≡ width) }
{
    let count = bit_of(width)?;
    let bits = padded_bits(alloc, state.slice(register, first, width), count)?;
    Ok(bits)
}

/// The node of so many bits of a register from a bit on, at most 128.
#[tactic(auto, using(crate::proofs::Puts::gathered_wide))]
#[inline(never)]
pub(crate) fn slice_node(
    pool: &mut Pool,
    alloc: Global,
    state: &State,
    register: usize,
    first: u128,
    width: u32,
) -> Result<usize, AllocError>
    requires fits { StateFits pool.old state.now }
    requires width { IsWidth width }
    ensures node { IfOk result (λ n. StandsFor pool.new n
        (gather (part first width (get_or (state_of pool.old state.now).registers register [])))) }
    ensures wide { IfOk result (λ n. IsNode pool.new n width) }
    ensures keeps { Keeps pool.old pool.new }
{
    let bits = part_of(pool, alloc, state, register, first, width as u128)?;
    let node = gather(pool, bits.as_slice())?;
    Ok(node)
}

/// So many bits of a register from a bit on become these.
#[tactic(auto, using(crate::proofs::Puts::width_at, crate::proofs::Puts::put_leaves))]
pub(crate) fn put_bits(
    pool: &Pool,
    alloc: Global,
    state: &mut State,
    register: usize,
    first: u128,
    new: &[Bit],
) -> Result<(), AllocError>
    requires fits { StateFits pool.now state.old }
    requires bits { BitsFit pool.now new.now }
    requires inside { first + length new.now ≤ get_or (widths_in state.old) register 0 }
    ensures { OnOk result (Leaves pool.now state.old state.new
        (with_bits register first (bits_of pool.now new.now) (state_of pool.now state.old))) }
{
    let first = bit_of(first)?;
    state.put(alloc, register, first, new);
    Ok(())
}

/// The bits of a node of a width.
#[tactic(auto, using(crate::proofs::Puts::whole_is, crate::proofs::Puts::whole_fits, crate::proofs::Puts::whole_count))]
pub(crate) fn bits_of_node(
    _pool: &Pool,
    alloc: Global,
    node: usize,
    width: u32,
) -> Result<Items<Bit>, AllocError>
    requires { IsNode _pool.now node width }
    ensures is { IfOk result (λ v. bits_of _pool.now v ≡ bits_from (tree_at _pool.now node) 0
        width) }
    ensures fit { IfOk result (λ v. BitsFit _pool.now v) }
    ensures count { IfOk result (λ v. length v ≡ width) }
{
    let mut bits = Vec::with_capacity(alloc, width as usize)?;
    push_bits(&mut bits, node, width, 0, width)?;
    Ok(Items::from_vec(bits))
}

/// So many bits of a register from a bit on become the lowest of the term of a node.
#[tactic(auto, using(crate::proofs::Puts::state_kept, crate::proofs::Puts::state_fits))]
#[inline(never)]
pub(crate) fn put_node(
    pool: &mut Pool,
    alloc: Global,
    state: &mut State,
    register: usize,
    first: u128,
    width: u32,
    node: usize,
) -> Result<(), AllocError>
    requires fits { StateFits pool.old state.old }
    requires node { IsNode pool.old node 128 }
    requires width { IsWidth width }
    requires inside { first + width ≤ get_or (widths_in state.old) register 0 }
    ensures leaves { OnOk result (Leaves pool.new state.old state.new
        (with_bits register first (bits_from (low width (tree_at pool.old node)) 0 width)
        (state_of pool.old state.old))) }
    ensures keeps { Keeps pool.old pool.new }
{
    let part = low_node(pool, node, 128, width)?;
    let bits = bits_of_node(pool, alloc, part, width)?;
    put_bits(pool, alloc, state, register, first, bits.as_slice())
}

/// So many bits of a register from a bit on become those of a constant.
#[tactic(auto, using(crate::proofs::Puts::state_kept, crate::proofs::Puts::state_fits))]
#[inline(never)]
pub(crate) fn put_number(
    pool: &mut Pool,
    alloc: Global,
    state: &mut State,
    register: usize,
    first: u128,
    width: u128,
    number: WholeNumber,
) -> Result<(), AllocError>
    requires fits { StateFits pool.old state.old }
    requires inside { first + width ≤ get_or (widths_in state.old) register 0 }
    ensures leaves { OnOk result (Leaves pool.new state.old state.new
        (with_bits register first (pieces width (residue width (number_of number)) 0 width)
        (state_of pool.old state.old))) }
    ensures keeps { Keeps pool.old pool.new }
{
    let width = width_of(width)?;
    let bits = constant_bits(pool, alloc, number, width)?;
    put_bits(pool, alloc, state, register, first, bits.as_slice())
}

/// A variable becomes the term of a node of 128 bits.
#[tactic(auto, using(crate::proofs::Puts::give_leaves))]
pub(crate) fn give(pool: &Pool, state: &mut State, variable: usize, node: usize)
    requires fits { StateFits pool.now state.old }
    requires node { IsNode pool.now node 128 }
    ensures { Leaves pool.now state.old state.new
        (with_variable variable (tree_at pool.now node) (state_of pool.now state.old)) }
{
    if let Some(place) = state.variables.get_mut(variable) {
        *place = node;
    }
}
