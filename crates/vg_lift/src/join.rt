//! The bits that are left where a condition takes one of two ways.

ghost use Rattle.std.specs.Prelude.{◌≡◌, ◌+◌, ◌++◌, ◌<◌, ◌≤◌, true, IfOk, OnOk, length};
ghost use Rattle.vg_terms.specs.Term.{sel};
ghost use Rattle.vg_pool.specs.Pool.{Keeps, StandsFor, tree_at};
ghost use Rattle.vg_lift.specs.Gather.{start, whole};
ghost use Rattle.vg_lift.specs.Join.{closed, goes_on, differ, is_same_bit, join, opened};
ghost use Rattle.vg_lift.specs.Steps.{joined_bit, joining};
ghost use Rattle.vg_lift.specs.Views.{BitFits, BitsFit, IsNode, OpenFew, OpenFits, RunFits, bit_of, bits_of, node_bits, open_of, run_of, run_size};

use crate::bit::Bit;
use crate::run::{Run, continues, longer_run, start_run, whole_node};
use std::alloc::{AllocError, Global};
use vg_pool::{Pool, pool_is_shared};

/// What is open while the bits of two ways are joined.
#[derive(Clone, Copy)]
pub enum Open {
    /// Nothing is open.
    Shut,
    /// A range in which they differ, one run on each side.
    Differ { first: Run, second: Run },
}

/// The number of a node as a bit names it, or want of memory where it is too great.
fn node_name(node: usize) -> Result<u32, AllocError>
    ensures { IfOk result (λ n. n ≡ node) }
{
    if node > u32::MAX as usize {
        Err(AllocError)
    } else {
        Ok(node as u32)
    }
}

/// Appends so many bits of a node from a bit on.
#[tactic(auto, using(crate::proofs::Nodes::push_step, crate::proofs::Nodes::push_end, crate::proofs::Nodes::push_begin))]
pub(crate) fn push_bits(
    bits: &mut Vec<Bit>,
    node: usize,
    width: u32,
    from: u32,
    count: u32,
) -> Result<(), AllocError>
    requires { from + count ≤ width }
    ensures { OnOk result (bits.new.items ≡ bits.old.items ++ node_bits node width from count) }
{
    let node = node_name(node)?;
    bits.reserve(count as usize)?;
    let end = from + count;
    let mut bit = from;
    'bits: while bit < end {
        bits.push_reserved(Bit::OfTerm { node, width, bit });
        bit += 1;
    }
    Ok(())
}

/// The node of a selection between two runs of as many bits.
#[tactic(auto, using(crate::proofs::Nodes::wide_run, crate::proofs::Nodes::run_kept, crate::proofs::Nodes::run_fits))]
fn select_runs(pool: &mut Pool, c: usize, first: Run, second: Run) -> Result<usize, AllocError>
    requires condition { IsNode pool.old c 1 }
    requires first { RunFits pool.old first }
    requires second { RunFits pool.old second }
    requires same { run_size first ≡ run_size second }
    requires few { run_size first ≤ 64 }
    ensures node { IfOk result (λ n. StandsFor pool.new n (sel (run_size first) (tree_at pool.old c)
        (whole (run_of pool.old first)) (whole (run_of pool.old second)))) }
    ensures keeps { Keeps pool.old pool.new }
{
    let taken = whole_node(pool, first)?;
    let other = whole_node(pool, second)?;
    pool.sel(c, taken, other)
}

/// Appends the bits of an open range, those of one selection between its two runs.
fn close(pool: &mut Pool, c: usize, range: Open, done: &mut Vec<Bit>) -> Result<(), AllocError>
    requires condition { IsNode pool.old c 1 }
    requires range { OpenFits pool.old range }
    requires done { BitsFit pool.old done.old.items }
    ensures bits { OnOk result (bits_of pool.new done.new.items ≡
        bits_of pool.old done.old.items ++ closed (tree_at pool.old c) (open_of pool.old range)) }
    ensures fit { OnOk result (BitsFit pool.new done.new.items) }
    ensures keeps { Keeps pool.old pool.new }
{
    match range {
        Open::Shut => Ok(()),
        Open::Differ { first, second } => {
            let node = select_runs(pool, c, first, second)?;
            let count = first.count();
            push_bits(done, node, count, 0, count)
        }
    }
}

/// Whether two bits are the same one: of the same parameter or term at the same place, or both 0.
fn is_same(pool: &Pool, x: Bit, y: Bit) -> bool
    requires x { BitFits pool.now x }
    requires y { BitFits pool.now y }
    ensures { result ≡ is_same_bit (bit_of pool.now x) (bit_of pool.now y) }
{
    pool_is_shared(pool);
    match (x, y) {
        (Bit::Clear, Bit::Clear) => true,
        (
            Bit::Input { parameter, bit },
            Bit::Input {
                parameter: other,
                bit: second,
            },
        ) => parameter == other && bit == second,
        (
            Bit::OfTerm { node, bit, .. },
            Bit::OfTerm {
                node: other,
                bit: second,
                ..
            },
        ) => node == other && bit == second,
        _ => false,
    }
}

/// Whether two bits at a place go on with an open range.
fn goes_on(pool: &Pool, range: Open, place: usize, x: Bit, y: Bit) -> bool
    requires range { OpenFits pool.now range }
    requires x { BitFits pool.now x }
    requires y { BitFits pool.now y }
    ensures { result ≡ goes_on (open_of pool.now range) place (bit_of pool.now x) (bit_of pool.now
        y) }
{
    match range {
        Open::Shut => false,
        Open::Differ { first, second } => {
            continues(pool, first, x) && (continues(pool, second, y) && place % 64 != 0)
        }
    }
}

/// An open range with its next bits.
fn opened(pool: &Pool, range: Open, place: usize, x: Bit, y: Bit) -> Open
    requires range { OpenFits pool.now range }
    requires few { OpenFew place range }
    requires x { BitFits pool.now x }
    requires y { BitFits pool.now y }
    requires next { goes_on (open_of pool.now range) place (bit_of pool.now x) (bit_of pool.now y) ≡
        true }
    ensures is { open_of pool.now result ≡ opened (open_of pool.now range) }
    ensures fits { OpenFits pool.now result }
    ensures few { OpenFew (place + 1) result }
{
    match range {
        Open::Shut => Open::Shut,
        Open::Differ { first, second } => Open::Differ {
            first: longer_run(pool, first, x),
            second: longer_run(pool, second, y),
        },
    }
}

/// The open range of two bits at a place.
fn opening(pool: &Pool, _place: usize, x: Bit, y: Bit) -> Open
    requires x { BitFits pool.now x }
    requires y { BitFits pool.now y }
    ensures is { open_of pool.now result ≡ differ (start (bit_of pool.now x)) (start (bit_of
        pool.now y)) }
    ensures fits { OpenFits pool.now result }
    ensures few { OpenFew (_place + 1) result }
{
    Open::Differ {
        first: start_run(pool, x),
        second: start_run(pool, y),
    }
}

/// Joins the bits at a place: answers what is open then.
#[tactic(auto, using(crate::proofs::Nodes::bit_kept, crate::proofs::Nodes::bit_fits, crate::proofs::Nodes::append_of, crate::proofs::Nodes::append_fit))]
fn join_bit(
    pool: &mut Pool,
    c: usize,
    place: usize,
    x: Bit,
    y: Bit,
    done: &mut Vec<Bit>,
    range: Open,
) -> Result<Open, AllocError>
    requires condition { IsNode pool.old c 1 }
    requires x { BitFits pool.old x }
    requires y { BitFits pool.old y }
    requires done { BitsFit pool.old done.old.items }
    requires range { OpenFits pool.old range }
    requires few { OpenFew place range }
    ensures is { IfOk result (λ o. joining (bits_of pool.new done.new.items) (open_of pool.new o) ≡
        joined_bit (tree_at pool.old c) place (bit_of pool.old x) (bit_of pool.old y)
        (joining (bits_of pool.old done.old.items) (open_of pool.old range))) }
    ensures done { OnOk result (BitsFit pool.new done.new.items) }
    ensures range { IfOk result (λ o. OpenFits pool.new o) }
    ensures few { IfOk result (λ o. OpenFew (place + 1) o) }
    ensures keeps { Keeps pool.old pool.new }
{
    if is_same(pool, x, y) {
        close(pool, c, range, done)?;
        done.push(x)?;
        Ok(Open::Shut)
    } else if goes_on(pool, range, place, x, y) {
        Ok(opened(pool, range, place, x, y))
    } else {
        close(pool, c, range, done)?;
        Ok(opening(pool, place, x, y))
    }
}

/// The bits that are left where the term of one bit of a node is 1, or else the others.
#[tactic(auto, using(crate::proofs::JoinSteps::join_step, crate::proofs::JoinSteps::join_end, crate::proofs::JoinSteps::bit_at, crate::proofs::Nodes::node_kept))]
pub(crate) fn join(
    pool: &mut Pool,
    alloc: Global,
    c: usize,
    xs: &[Bit],
    ys: &[Bit],
) -> Result<Vec<Bit>, AllocError>
    requires condition { IsNode pool.old c 1 }
    requires xs { BitsFit pool.old xs.now }
    requires ys { BitsFit pool.old ys.now }
    requires same { length xs.now ≡ length ys.now }
    ensures is { IfOk result (λ v. bits_of pool.new v.items ≡
        join (tree_at pool.old c) (bits_of pool.old xs.now) (bits_of pool.old ys.now)) }
    ensures fit { IfOk result (λ v. BitsFit pool.new v.items) }
    ensures keeps { Keeps pool.old pool.new }
{
    let mut done = Vec::with_capacity(alloc, xs.len())?;
    let mut range = Open::Shut;
    'places: for place in 0..xs.len() {
        range = join_bit(pool, c, place, xs[place], ys[place], &mut done, range)?;
    }
    close(pool, c, range, &mut done)?;
    Ok(done)
}
