//! How far the accesses of a kernel reach through a pointer.

ghost use Rattle.std.specs.Prelude.{◌≡◌, ◌||◌, ◌+ℤ◌, pos};
ghost use Rattle.std.specs.Int.{int_min, int_max};
ghost use Rattle.vg_base.specs.Width.{size_of};
ghost use Rattle.vg_kernel.specs.Tree.{expression_of, statement_of, tree_of};
ghost use Rattle.vg_kernel.specs.Layout.{reads_of};
ghost use Rattle.vg_guard.specs.Reaching.{reach_with, reach_behind, reach_with_statement, reach_of};

use crate::reach::Reach;
use vg_base::{Address, Width};
use vg_kernel::{KExpr, KStmt, Kernel};

fn either(first: bool, second: bool) -> bool
    ensures { result ≡ first || second }
{
    first || second
}

/// What is reached with the bytes from `low` up to `high` more.
fn wider(before: Reach, low: i64, high: i64, writes: bool) -> Reach
    ensures { result ≡ record {
      low = int_min before.low low;
      high = int_max before.high high;
      writes = before.writes || writes;
    } }
{
    Reach {
        low: before.low.min(low),
        high: before.high.max(high),
        writes: either(before.writes, writes),
    }
}

/// Where an access of this width ends, from the place of its pointer.
fn end_of(address: Address, width: Width) -> i64
    ensures { result ≡ address.offset +ℤ pos (size_of width) }
{
    address.offset as i64 + width.size() as i64
}

/// What is reached through a pointer with an access of this width more.
fn reach_with(
    pointer: u32,
    reach: Option<Reach>,
    address: Address,
    width: Width,
    writes: bool,
) -> Option<Reach>
    ensures { result ≡ reach_with pointer reach
        (record { address = address; size = size_of width; writes = writes }) }
{
    if address.pointer == pointer {
        let low = address.offset as i64;
        let high = end_of(address, width);
        match reach {
            None => Some(Reach { low, high, writes }),
            Some(before) => Some(wider(before, low, high, writes)),
        }
    } else {
        reach
    }
}

/// What is reached through a pointer with the loads of an expression more.
#[tactic(auto, using(crate::proofs::Reaches::reach_behind_append), unfolding(crate::specs::Reaching::reach_behind))]
fn reach_by_loads(pointer: u32, reach: Option<Reach>, expression: &KExpr) -> Option<Reach>
    ensures { result ≡ reach_behind pointer reach (reads_of (expression_of expression.now)) }
{
    match expression {
        KExpr::Argument { .. } => reach,
        KExpr::Assigned { .. } => reach,
        KExpr::Literal { .. } => reach,
        KExpr::Load { width, address } => reach_with(pointer, reach, *address, *width, false),
        KExpr::Two { left, right, .. } => {
            let reach = reach_by_loads(pointer, reach, left);
            reach_by_loads(pointer, reach, right)
        }
        KExpr::Shift { operand, .. } => reach_by_loads(pointer, reach, operand),
        KExpr::Resize { operand, .. } => reach_by_loads(pointer, reach, operand),
        KExpr::Compare { left, right, .. } => {
            let reach = reach_by_loads(pointer, reach, left);
            reach_by_loads(pointer, reach, right)
        }
        KExpr::Select {
            condition,
            first,
            second,
            ..
        } => {
            let reach = reach_by_loads(pointer, reach, condition);
            let reach = reach_by_loads(pointer, reach, first);
            reach_by_loads(pointer, reach, second)
        }
    }
}

/// What is reached through a pointer with the accesses of a statement more.
#[tactic(auto, using(crate::proofs::Reaches::reach_behind_append), unfolding(crate::specs::Reaching::reach_behind, crate::specs::Reaching::reach_with_statement))]
fn reach_by_statement(pointer: u32, reach: Option<Reach>, statement: &KStmt) -> Option<Reach>
    ensures { result ≡ reach_with_statement pointer reach (statement_of statement.now) }
{
    match statement {
        KStmt::Assign { value } => reach_by_loads(pointer, reach, value),
        KStmt::Store {
            width,
            address,
            value,
        } => {
            let reach = reach_by_loads(pointer, reach, value);
            reach_with(pointer, reach, *address, *width, true)
        }
    }
}

/// What the accesses of a kernel reach through a pointer; none where no access goes through it.
#[tactic(auto, using(crate::proofs::Reaches::reach_of_is), unfolding(crate::specs::Reaching::reach_with_all))]
pub(crate) fn reach_of(kernel: &Kernel, pointer: u32) -> Option<Reach>
    ensures { result ≡ reach_of (tree_of kernel.now) pointer }
{
    let mut reach = None;
    let mut rest = kernel.statements.as_slice();
    'statements: while let [statement, behind @ ..] = rest {
        reach = reach_by_statement(pointer, reach, statement);
        rest = behind;
    }
    reach
}
