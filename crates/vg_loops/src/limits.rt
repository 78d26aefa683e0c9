//! How many turns a block has.

ghost use Rattle.std.specs.Prelude.{◌≡◌, ◌*◌, ◌≤◌, ◌<◌, ◌^◌, length, map, sum_by};
ghost use Rattle.std.specs.List.{list_all};
ghost use Rattle.vg_kernel.specs.Cost.{uses_of};
ghost use Rattle.vg_kernel.specs.Layout.{reads_of, statement_accesses};
ghost use Rattle.vg_kernel.specs.Tree.{tree_of, expression_of, statement_of};
ghost use Rattle.vg_kernel.specs.WellFormed.{IsWellFormed};
ghost use Rattle.vg_loop_laws.specs.Limits.{
  KeepsLimits,
  is_offset,
  is_near,
  reads_stay,
  statement_stays,
  keeps_limits,
  turns_of,
};
ghost use Rattle.vg_loop_laws.specs.Unrolled.{moved_address};
ghost use Rattle.vg_loops.specs.Counts.{stores_in};
ghost use Rattle.vg_loops.specs.View.{loop_of};

use crate::counted::Loop;
use crate::moving::moved_offset;
use vg_base::Address;
use vg_kernel::{KExpr, KStmt, Kernel, scalar_cost};

/// Whether an offset has 32 bits.
fn is_offset(offset: i128) -> bool
    ensures { result ≡ is_offset offset }
{
    i32::MIN as i128 <= offset && offset <= i32::MAX as i128
}

/// Whether an address keeps an offset of 32 bits so many turns later.
fn is_near(steps: &[u32], turn: u32, address: Address) -> bool
    ensures { result ≡ is_near steps.now turn address }
{
    is_offset(moved_offset(steps, turn, address))
}

/// Whether the loads of an expression keep offsets of 32 bits so many turns later.
fn reads_stay(steps: &[u32], turn: u32, expression: &KExpr) -> bool
    ensures { result ≡ reads_stay steps.now turn (expression_of expression.now) }
{
    match expression {
        KExpr::Argument { .. } => true,
        KExpr::Assigned { .. } => true,
        KExpr::Literal { .. } => true,
        KExpr::Load { address, .. } => is_near(steps, turn, *address),
        KExpr::Two { left, right, .. } => {
            reads_stay(steps, turn, left) && reads_stay(steps, turn, right)
        }
        KExpr::Shift { operand, .. } => reads_stay(steps, turn, operand),
        KExpr::Resize { operand, .. } => reads_stay(steps, turn, operand),
        KExpr::Compare { left, right, .. } => {
            reads_stay(steps, turn, left) && reads_stay(steps, turn, right)
        }
        KExpr::Select {
            condition,
            first,
            second,
            ..
        } => {
            reads_stay(steps, turn, condition)
                && (reads_stay(steps, turn, first) && reads_stay(steps, turn, second))
        }
    }
}

/// Whether the accesses of a statement keep offsets of 32 bits so many turns later.
fn statement_stays(steps: &[u32], turn: u32, statement: &KStmt) -> bool
    ensures { result ≡ statement_stays steps.now turn (statement_of statement.now) }
{
    match statement {
        KStmt::Assign { value } => reads_stay(steps, turn, value),
        KStmt::Store { address, value, .. } => {
            reads_stay(steps, turn, value) && is_near(steps, turn, *address)
        }
    }
}

/// Whether the accesses of all statements keep offsets of 32 bits so many turns later.
fn all_stay(steps: &[u32], turn: u32, statements: &[KStmt]) -> bool
    ensures { result ≡ list_all (statement_stays steps.now turn)
        (map statement_of statements.now) }
{
    let mut rest = statements;
    'statements: while let [statement, behind @ ..] = rest {
        if !statement_stays(steps, turn, statement) {
            return false;
        }
        rest = behind;
    }
    true
}

/// How many statements write to memory.
fn stores_in(statements: &[KStmt]) -> u32
    requires { length statements.now ≤ 4096 }
    ensures { result ≡ stores_in (map statement_of statements.now) }
{
    let mut stores = 0;
    let mut rest = statements;
    'statements: while let [statement, behind @ ..] = rest {
        if let KStmt::Store { .. } = statement {
            stores += 1;
        }
        rest = behind;
    }
    stores
}

/// How many loads and operations a kernel has.
fn uses_of(kernel: &Kernel) -> u32
    requires { IsWellFormed (tree_of kernel.now) }
    ensures { result ≡ sum_by uses_of (tree_of kernel.now).statements }
{
    let cost = scalar_cost(kernel);
    let stores = stores_in(kernel.statements.as_slice());
    cost - stores
}

/// Whether the kernel of so many turns keeps the limits, where a turn has so many loads and
/// operations.
#[tactic(auto, unfolding(vg_loop_laws::specs::Limits::keeps_limits))]
fn keeps_limits(source: &Loop, uses: u32, turns: u32) -> bool
    requires well_formed { IsWellFormed (tree_of source.now.kernel) }
    requires uses { uses ≡ sum_by uses_of (tree_of source.now.kernel).statements }
    requires some { 1 ≤ turns }
    requires few { turns ≤ 16 }
    ensures { result ≡ keeps_limits (loop_of source.now) turns }
{
    let statements = source.kernel.statements.as_slice();
    turns * statements.len() as u32 <= 4096
        && turns * uses <= 8192
        && all_stay(source.steps.as_slice(), turns - 1, statements)
}

#[tactic(auto, unfolding(vg_loop_laws::specs::Limits::turns_of))]
fn turns_that_fit(source: &Loop) -> u32
    requires { IsWellFormed (tree_of source.now.kernel) }
    ensures { result ≡ turns_of (loop_of source.now) }
{
    let uses = uses_of(&source.kernel);
    if keeps_limits(source, uses, 16) {
        16
    } else if keeps_limits(source, uses, 8) {
        8
    } else if keeps_limits(source, uses, 4) {
        4
    } else if keeps_limits(source, uses, 2) {
        2
    } else {
        1
    }
}

/// How many turns a block has of a loop whose kernel is well formed: the most that keep the limits
/// of 16, 8, 4, 2 and 1. Takes no memory.
pub fn turns_of(source: &Loop) -> u32
    requires { IsWellFormed (tree_of source.now.kernel) }
    ensures turns { result ≡ turns_of (loop_of source.now) }
    ensures limits { KeepsLimits (loop_of source.now) result }
{
    turns_that_fit(source)
}
