//! The registers and variables of a body, as bits and nodes.

ghost use Rattle.std.specs.Prelude.{◌≡◌, ◌+◌, ◌++◌, ◌<◌, ◌≤◌, [], IfOk, OnOk, drop, length, get_or, set, take};
ghost use Rattle.vg_bits.specs.Range.{range, replaced};
ghost use Rattle.vg_pool.specs.Pool.{Keeps, StandsFor, tree_at};
ghost use Rattle.vg_lift.specs.Join.{join_registers, join_variables};
ghost use Rattle.vg_lift.specs.LaneTerm.{joined};
ghost use Rattle.vg_lift.specs.States.{AllFit, AreNodes, StateFits, state_of, widths_in};
ghost use Rattle.vg_lift.specs.Views.{BitsFit, IsNode, bits_of};

use crate::bit::Bit;
use crate::join::join;
use std::alloc::{AllocError, Global};
use std::mem;
use vg_base::Items;
use vg_pool::{Pool, pool_is_shared};

/// The bits of each register, lowest first, and the node of 128 bits of each variable.
pub struct State {
    pub(crate) registers: Vec<Items<Bit>>,
    pub(crate) variables: Vec<usize>,
}

/// Written out, so that the exits of an owner call it: a derived one would be proved anew at each.
impl Drop for State {
    fn drop(self) {
        let State {
            registers: _,
            variables: _,
        } = self;
    }
}

/// So many bits from a bit on become these.
fn replace_bits(bits: &mut [Bit], low: usize, new: &[Bit])
    requires { low + length new.now ≤ length bits.old }
    ensures { bits.new ≡ replaced low new.now bits.old }
{
    bits[low..low + new.len()].copy_from_slice(new);
}

/// A list in which so many bits from a bit on are these.
fn with_bits(bits: Items<Bit>, low: usize, new: &[Bit]) -> Items<Bit>
    requires { low + length new.now ≤ length bits }
    ensures { result ≡ replaced low new.now bits }
{
    let mut all = bits.into_vec();
    replace_bits(all.as_mut_slice(), low, new);
    Items::from_vec(all)
}

/// A copy of a list of bits. Fails for want of memory alone.
pub(crate) fn copy_bits(alloc: Global, bits: &[Bit]) -> Result<Items<Bit>, AllocError>
    ensures { IfOk result (λ v. v ≡ bits.now) }
{
    let mut all = Vec::with_capacity(alloc, bits.len())?;
    all.extend_from_slice(bits)?;
    Ok(Items::from_vec(all))
}

/// The bits after so many.
#[tactic(auto, using(crate::proofs::Puts::drop_most))]
fn behind(bits: &[Bit], count: u128) -> &[Bit]
    ensures { result.now ≡ drop count bits.now }
{
    let skipped = count.min(bits.len() as u128) as usize;
    &bits[skipped..]
}

/// So many bits, or all where there are fewer.
#[tactic(auto, using(crate::proofs::Puts::take_most))]
fn first(bits: &[Bit], count: u128) -> &[Bit]
    ensures { result.now ≡ take count bits.now }
{
    let taken = count.min(bits.len() as u128) as usize;
    &bits[..taken]
}

impl State {
    /// So many bits of a register from a bit on, but those past its end.
    pub(crate) fn slice(&self, register: usize, low: u128, width: u128) -> &[Bit]
        ensures { result.now ≡ range low width (get_or self.now.registers.items register []) }
    {
        match self.registers.get(register) {
            None => &[],
            Some(bits) => first(behind(bits.as_slice(), low), width),
        }
    }

    /// So many bits of a register from a bit on become these.
    pub(crate) fn put(&mut self, alloc: Global, register: usize, low: usize, new: &[Bit])
        requires { low + length new.now ≤ length (get_or self.old.registers.items register []) }
        ensures registers { self.new.registers.items ≡ set self.old.registers.items register
            (replaced low new.now (get_or self.old.registers.items register [])) }
        ensures variables { self.new.variables.items ≡ self.old.variables.items }
    {
        if let Some(bits) = self.registers.get_mut(register) {
            let all = mem::replace(bits, Items::from_vec(Vec::new(alloc)));
            *bits = with_bits(all, low, new);
        }
    }

    /// A copy of the bits of all registers and the nodes of all variables. Fails for want of memory
    /// alone.
    pub(crate) fn copy(&self, alloc: Global) -> Result<State, AllocError>
        ensures registers { IfOk result (λ s. s.registers.items ≡ self.now.registers.items) }
        ensures variables { IfOk result (λ s. s.variables.items ≡ self.now.variables.items) }
    {
        let mut registers = Vec::with_capacity(alloc, self.registers.len())?;
        'registers: for register in self.registers.as_slice() {
            registers.push(copy_bits(alloc, register.as_slice())?)?;
        }
        let mut variables = Vec::with_capacity(alloc, self.variables.len())?;
        variables.extend_from_slice(self.variables.as_slice())?;
        Ok(State {
            registers,
            variables,
        })
    }
}
