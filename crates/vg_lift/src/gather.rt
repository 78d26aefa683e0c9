//! The nodes of gathered bits.

ghost use Rattle.std.specs.Prelude.{◌≡◌, ◌+◌, ◌<◌, ◌≤◌, true, IfOk, drop, get_or, length};
ghost use Rattle.vg_terms.specs.Term.{two};
ghost use Rattle.vg_terms.specs.declared.term.TwoOp.TheVariants.{Cat};
ghost use Rattle.vg_pool.specs.Pool.{Keeps, StandsFor, tree_at};
ghost use Rattle.vg_lift.specs.Gather.{continues, gather, gather_from, whole};
ghost use Rattle.vg_lift.specs.Views.{BitsFit, IsNode, RunFits, bit_of, bits_of, run_of, run_size};
ghost use Rattle.vg_lift.specs.declared.bit.Bit.TheVariants.{Clear};

use crate::bit::Bit;
use crate::run::{Run, continues, longer_run, start_run, whole_node};
use std::alloc::AllocError;
use vg_pool::Pool;
use vg_terms::TwoOp;

/// The node of a term of so many bits above that of a run.
#[tactic(auto, using(crate::proofs::Nodes::wide_run, crate::proofs::Nodes::run_width))]
fn put_above(pool: &mut Pool, above: usize, count: u32, run: Run) -> Result<usize, AllocError>
    requires above { IsNode pool.old above count }
    requires run { RunFits pool.old run }
    requires few { run_size run + count ≤ 128 }
    ensures node { IfOk result (λ n. StandsFor pool.new n
        (two Cat (run_size run + count) (tree_at pool.old above) (whole (run_of pool.old run)))) }
    ensures keeps { Keeps pool.old pool.new }
{
    let below = whole_node(pool, run)?;
    pool.two(TwoOp::Cat, run.count() + count, above, below)
}

/// A run with the bits that go on with it, as the first does, and how many they are.
#[tactic(auto, using(crate::proofs::Longer::longer_first, crate::proofs::Longer::longer_step, crate::proofs::JoinSteps::bit_at))]
fn lengthened(pool: &Pool, run: Run, bits: &[Bit]) -> (Run, usize)
    requires run { RunFits pool.now run }
    requires bits { BitsFit pool.now bits.now }
    requires few { run_size run + length bits.now ≤ 128 }
    requires some { 0 < length bits.now }
    requires next { continues (run_of pool.now run) (bit_of pool.now (get_or bits.now 0 Clear)) ≡
        true }
    ensures is { gather_from (run_of pool.now result.0) (bits_of pool.now (drop result.1 bits.now))
        ≡ gather_from (run_of pool.now run) (bits_of pool.now bits.now) }
    ensures fits { RunFits pool.now result.0 }
    ensures size { run_size result.0 ≡ run_size run + result.1 }
    ensures some { 0 < result.1 }
    ensures within { result.1 ≤ length bits.now }
{
    let mut longer = longer_run(pool, run, bits[0]);
    let mut count = 1;
    'bits: while count < bits.len() {
        if !continues(pool, longer, bits[count]) {
            return (longer, count);
        }
        longer = longer_run(pool, longer, bits[count]);
        count += 1;
    }
    (longer, count)
}

/// The node of the term of a run with bits above it.
fn gather_from(pool: &mut Pool, run: Run, bits: &[Bit]) -> Result<usize, AllocError>
    requires run { RunFits pool.old run }
    requires bits { BitsFit pool.old bits.now }
    requires few { run_size run + length bits.now ≤ 128 }
    ensures node { IfOk result (λ n. StandsFor pool.new n
        (gather_from (run_of pool.old run) (bits_of pool.old bits.now))) }
    ensures keeps { Keeps pool.old pool.new }
{
    match bits {
        [] => whole_node(pool, run),
        [bit, rest @ ..] => if continues(pool, run, *bit) {
            let (longest, count) = lengthened(pool, run, bits);
            gather_from(pool, longest, &bits[count..])
        } else {
            let next = start_run(pool, *bit);
            let above = gather_from(pool, next, rest)?;
            put_above(pool, above, rest.len() as u32 + 1, run)
        },
    }
}

/// The node of the term of bits, the lowest first.
pub(crate) fn gather(pool: &mut Pool, bits: &[Bit]) -> Result<usize, AllocError>
    requires bits { BitsFit pool.old bits.now }
    requires some { 0 < length bits.now }
    requires few { length bits.now ≤ 128 }
    ensures node { IfOk result (λ n. StandsFor pool.new n (gather (bits_of pool.old bits.now))) }
    ensures keeps { Keeps pool.old pool.new }
{
    match bits {
        [] => unreachable!(),
        [bit, rest @ ..] => {
            let next = start_run(pool, *bit);
            gather_from(pool, next, rest)
        }
    }
}
