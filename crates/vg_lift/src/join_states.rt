//! What is left of registers and variables where a condition takes one of two ways.

ghost use Rattle.std.specs.Prelude.{◌≡◌, ◌+◌, ◌<◌, ◌≤◌, [], IfOk, OnOk, get_or, length, map};
ghost use Rattle.vg_pool.specs.Pool.{Keeps, StandsFor, tree_at};
ghost use Rattle.vg_lift.specs.Join.{join_registers, join_variables};
ghost use Rattle.vg_lift.specs.LaneTerm.{joined};
ghost use Rattle.vg_lift.specs.States.{AllFit, AreNodes, StateFits, joined_node, state_of, widths_in};
ghost use Rattle.vg_lift.specs.Views.{BitsFit, IsNode, bits_of};

use crate::bit::Bit;
use crate::join::join;
use crate::state::State;
use std::alloc::{AllocError, Global};
use vg_base::Items;
use vg_pool::{Pool, pool_is_shared};

/// The node of a variable after both ways: its own where they leave the same, else a selection by
/// the condition `c`.
#[tactic(auto, using(crate::proofs::Nodes::node_same))]
fn join_variable(pool: &mut Pool, c: usize, x: usize, y: usize) -> Result<usize, AllocError>
    requires condition { IsNode pool.old c 1 }
    requires x { IsNode pool.old x 128 }
    requires y { IsNode pool.old y 128 }
    ensures is { IfOk result (λ n. StandsFor pool.new n
        (joined_node (tree_at pool.old c) (tree_at pool.old x) (tree_at pool.old y))) }
    ensures wide { IfOk result (λ n. IsNode pool.new n 128) }
    ensures keeps { Keeps pool.old pool.new }
{
    pool_is_shared(pool);
    if x == y { Ok(x) } else { pool.sel(c, x, y) }
}

/// The nodes of all variables after both ways, in their order.
#[tactic(auto, using(crate::proofs::StateSteps::variables_step, crate::proofs::StateSteps::variables_end, crate::proofs::StateSteps::node_at, crate::proofs::StateSteps::nodes_kept, crate::proofs::StateSteps::node_behind, crate::proofs::Nodes::node_kept))]
fn join_all_variables(
    pool: &mut Pool,
    alloc: Global,
    c: usize,
    xs: &[usize],
    ys: &[usize],
) -> Result<Vec<usize>, AllocError>
    requires condition { IsNode pool.old c 1 }
    requires xs { AreNodes pool.old xs.now }
    requires ys { AreNodes pool.old ys.now }
    requires same { length xs.now ≡ length ys.now }
    ensures is { IfOk result (λ v. map (tree_at pool.new) v.items ≡ join_variables (tree_at pool.old
        c) (map (tree_at pool.old) xs.now) (map (tree_at pool.old) ys.now)) }
    ensures nodes { IfOk result (λ v. AreNodes pool.new v.items) }
    ensures count { IfOk result (λ v. length v.items ≡ length xs.now) }
    ensures keeps { Keeps pool.old pool.new }
{
    let mut done = Vec::with_capacity(alloc, xs.len())?;
    'variables: for place in 0..xs.len() {
        let node = join_variable(pool, c, xs[place], ys[place])?;
        done.push(node)?;
    }
    Ok(done)
}

/// The bits of a register.
fn bits_at(registers: &[Items<Bit>], place: usize) -> &[Bit]
    ensures { result.now ≡ get_or registers.now place [] }
{
    match registers.get(place) {
        None => &[],
        Some(bits) => bits.as_slice(),
    }
}

/// The bits of all registers.
#[tactic(auto, using(crate::proofs::StateSteps::registers_step, crate::proofs::StateSteps::registers_end, crate::proofs::StateSteps::register_at, crate::proofs::StateSteps::registers_kept, crate::proofs::StateSteps::register_behind, crate::proofs::StateSteps::register_width, crate::proofs::StateSteps::width_behind, crate::proofs::StateSteps::same_count, crate::proofs::Nodes::node_kept))]
fn join_all_registers(
    pool: &mut Pool,
    alloc: Global,
    c: usize,
    xs: &[Items<Bit>],
    ys: &[Items<Bit>],
) -> Result<Vec<Items<Bit>>, AllocError>
    requires condition { IsNode pool.old c 1 }
    requires xs { AllFit pool.old xs.now }
    requires ys { AllFit pool.old ys.now }
    requires same { map length xs.now ≡ map length ys.now }
    ensures is { IfOk result (λ v. map (bits_of pool.new) v.items ≡ join_registers (tree_at pool.old
        c) (map (bits_of pool.old) xs.now) (map (bits_of pool.old) ys.now)) }
    ensures fit { IfOk result (λ v. AllFit pool.new v.items) }
    ensures widths { IfOk result (λ v. map length v.items ≡ map length xs.now) }
    ensures keeps { Keeps pool.old pool.new }
{
    let mut done = Vec::with_capacity(alloc, xs.len())?;
    'registers: for place in 0..xs.len() {
        let bits = join(pool, alloc, c, bits_at(xs, place), bits_at(ys, place))?;
        done.push(Items::from_vec(bits))?;
    }
    Ok(done)
}

/// What is left where the term of one bit of a node is 1 of the first state, or else of the second.
pub(crate) fn join_states(
    pool: &mut Pool,
    alloc: Global,
    c: usize,
    first: &State,
    second: &State,
) -> Result<State, AllocError>
    requires condition { IsNode pool.old c 1 }
    requires first { StateFits pool.old first.now }
    requires second { StateFits pool.old second.now }
    requires widths { widths_in first.now ≡ widths_in second.now }
    requires count { length first.now.variables.items ≡ length second.now.variables.items }
    ensures is { IfOk result (λ s. state_of pool.new s ≡
        joined (tree_at pool.old c) (state_of pool.old first.now) (state_of pool.old second.now)) }
    ensures fits { IfOk result (λ s. StateFits pool.new s) }
    ensures widths { IfOk result (λ s. widths_in s ≡ widths_in first.now) }
    ensures count { IfOk result (λ s. length s.variables.items ≡ length first.now.variables.items) }
    ensures keeps { Keeps pool.old pool.new }
{
    let registers = join_all_registers(
        pool,
        alloc,
        c,
        first.registers.as_slice(),
        second.registers.as_slice(),
    )?;
    let variables = join_all_variables(
        pool,
        alloc,
        c,
        first.variables.as_slice(),
        second.variables.as_slice(),
    )?;
    Ok(State {
        registers,
        variables,
    })
}
