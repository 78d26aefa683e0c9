//! Runs of bits, and their nodes.

ghost use Rattle.std.specs.Prelude.{◌≡◌, ◌+◌, ◌<◌, ◌≤◌, true, nat_eq, IfOk, length};
ghost use Rattle.vg_shapes.specs.Registers.{bits_key};
ghost use Rattle.vg_pool.specs.Pool.{IsPool, Keeps, StandsFor, tree_at};
ghost use Rattle.vg_lift.specs.Gather.{continues, longer, shifted, start, terms, whole};
ghost use Rattle.vg_terms.specs.Resize.{low};
ghost use Rattle.vg_lift.specs.Views.{BitFits, IsNode, RunFits, bit_of, run_of, run_size};

use crate::bit::Bit;
use std::alloc::AllocError;
use vg_pool::{Pool, pool_is_shared};
use vg_terms::{LeafKey, OneOp, make_const, make_leaf};

/// Consecutive bits, as many as `count`.
#[derive(Clone, Copy)]
pub enum Run {
    /// Bits that are 0.
    Zeros {
        count: u32,
    },
    /// Bits of a parameter from bit `low` on.
    Inputs {
        parameter: u32,
        low: u32,
        count: u32,
    },
    /// Bits of the term of a node, which has `width` bits, from bit `low` on.
    Terms {
        node: usize,
        width: u32,
        low: u32,
        count: u32,
    },
}

/// The run of a bit alone, a bit over the nodes of a pool.
pub(crate) fn start_run(_pool: &Pool, bit: Bit) -> Run
    requires { BitFits _pool.now bit }
    ensures is { run_of _pool.now result ≡ start (bit_of _pool.now bit) }
    ensures fits { RunFits _pool.now result }
    ensures size { run_size result ≡ 1 }
{
    match bit {
        Bit::Clear => Run::Zeros { count: 1 },
        Bit::Input { parameter, bit } => Run::Inputs {
            parameter,
            low: bit,
            count: 1,
        },
        Bit::OfTerm { node, width, bit } => Run::Terms {
            node: node as usize,
            width,
            low: bit,
            count: 1,
        },
    }
}

/// Whether a bit is the one after so many from a bit on.
fn is_behind(low: u32, count: u32, bit: u32) -> bool
    ensures { result ≡ nat_eq bit (low + count) }
{
    u64::from(bit) == u64::from(low) + u64::from(count)
}

/// Whether a bit is the next one of a run.
pub(crate) fn continues(pool: &Pool, run: Run, bit: Bit) -> bool
    requires run { RunFits pool.now run }
    requires bit { BitFits pool.now bit }
    ensures { result ≡ continues (run_of pool.now run) (bit_of pool.now bit) }
{
    pool_is_shared(pool);
    match (run, bit) {
        (Run::Zeros { .. }, Bit::Clear) => true,
        (
            Run::Inputs {
                parameter,
                low,
                count,
            },
            Bit::Input {
                parameter: next,
                bit,
            },
        ) => parameter == next && is_behind(low, count, bit),
        (
            Run::Terms {
                node,
                low,
                count,
                ..
            },
            Bit::OfTerm {
                node: next,
                bit,
                ..
            },
        ) => node == next as usize && is_behind(low, count, bit),
        _ => false,
    }
}

/// The run with its next bit.
pub(crate) fn longer_run(_pool: &Pool, run: Run, _bit: Bit) -> Run
    requires run { RunFits _pool.now run }
    requires bit { BitFits _pool.now _bit }
    requires next { continues (run_of _pool.now run) (bit_of _pool.now _bit) ≡ true }
    requires few { run_size run < 128 }
    ensures is { run_of _pool.now result ≡ longer (run_of _pool.now run) }
    ensures fits { RunFits _pool.now result }
    ensures size { run_size result ≡ run_size run + 1 }
{
    match run {
        Run::Zeros { count } => Run::Zeros { count: count + 1 },
        Run::Inputs {
            parameter,
            low,
            count,
        } => Run::Inputs {
            parameter,
            low,
            count: count + 1,
        },
        Run::Terms {
            node,
            width,
            low,
            count,
        } => Run::Terms {
            node,
            width,
            low,
            count: count + 1,
        },
    }
}

impl Run {
    /// How many bits it has.
    pub(crate) fn count(self) -> u32
        ensures { result ≡ run_size self }
    {
        match self {
            Run::Zeros { count } => count,
            Run::Inputs { count, .. } => count,
            Run::Terms { count, .. } => count,
        }
    }
}

/// The lowest bits of the term of a node.
pub(crate) fn low_node(
    pool: &mut Pool,
    node: usize,
    width: u32,
    count: u32,
) -> Result<usize, AllocError>
    requires node { IsNode pool.old node width }
    requires some { 0 < count }
    requires inside { count ≤ width }
    ensures node { IfOk result (λ n. StandsFor pool.new n (low count (tree_at pool.old node))) }
    ensures keeps { Keeps pool.old pool.new }
{
    pool_is_shared(pool);
    if count == width {
        Ok(node)
    } else {
        pool.one(OneOp::Trunc, count, 0, node)
    }
}

/// The term of a node without its lowest bits, at its width.
fn shifted_node(pool: &mut Pool, node: usize, width: u32, places: u32) -> Result<usize, AllocError>
    requires node { IsNode pool.old node width }
    requires inside { places < width }
    ensures node { IfOk result (λ n. StandsFor pool.new n (shifted places (tree_at pool.old
        node))) }
    ensures keeps { Keeps pool.old pool.new }
{
    pool_is_shared(pool);
    if places == 0 {
        Ok(node)
    } else {
        pool.one(OneOp::Lshr, width, places, node)
    }
}

/// The node of bits of the term of a node.
fn part_node(
    pool: &mut Pool,
    node: usize,
    width: u32,
    low: u32,
    count: u32,
) -> Result<usize, AllocError>
    requires node { IsNode pool.old node width }
    requires some { 0 < count }
    requires inside { low + count ≤ width }
    ensures node { IfOk result (λ n. StandsFor pool.new n
        (whole (terms (tree_at pool.old node) low count))) }
    ensures keeps { Keeps pool.old pool.new }
{
    let shifted = shifted_node(pool, node, width, low)?;
    low_node(pool, shifted, width, count)
}

/// The node of the term of a run.
pub(crate) fn whole_node(pool: &mut Pool, run: Run) -> Result<usize, AllocError>
    requires fits { RunFits pool.old run }
    requires few { run_size run ≤ 128 }
    ensures node { IfOk result (λ n. StandsFor pool.new n (whole (run_of pool.old run))) }
    ensures keeps { Keeps pool.old pool.new }
{
    match run {
        Run::Zeros { count } => pool.intern(&make_const(count, 0)),
        Run::Inputs {
            parameter,
            low,
            count,
        } => pool.intern(&make_leaf(count, bits_key(parameter, low))),
        Run::Terms {
            node,
            width,
            low,
            count,
        } => part_node(pool, node, width, low, count),
    }
}

/// The key of the bits of a parameter from a bit on.
fn bits_key(parameter: u32, low: u32) -> LeafKey
    ensures { result ≡ bits_key parameter low }
{
    LeafKey {
        kind: 0,
        first: parameter,
        second: i64::from(low),
        third: 0,
    }
}
