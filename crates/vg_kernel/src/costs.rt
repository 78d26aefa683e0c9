//! What a kernel costs as it is written.

ghost use Rattle.std.specs.Prelude.{◌≡◌, ◌<◌, ◌≤◌, ◌^◌, map, sum_by};
ghost use Rattle.vg_kernel.specs.Cost.{scalar_cost, expression_cost, statement_cost};
ghost use Rattle.vg_kernel.specs.Tree.{tree_of, expression_of, statement_of};
ghost use Rattle.vg_kernel.specs.WellFormed.{IsWellFormed};

use crate::expression::KExpr;
use crate::kernel::Kernel;
use crate::statement::KStmt;

fn expression_cost(expression: &KExpr) -> u32
    requires { expression_cost (expression_of expression.now) < 2 ^ 32 }
    ensures { result ≡ expression_cost (expression_of expression.now) }
{
    match expression {
        KExpr::Argument { .. } => 0,
        KExpr::Assigned { .. } => 0,
        KExpr::Literal { .. } => 0,
        KExpr::Load { .. } => 1,
        KExpr::Two { left, right, .. } => expression_cost(left) + expression_cost(right) + 1,
        KExpr::Shift { operand, .. } => expression_cost(operand) + 1,
        KExpr::Resize { operand, .. } => expression_cost(operand) + 1,
        KExpr::Compare { left, right, .. } => expression_cost(left) + expression_cost(right) + 1,
        KExpr::Select {
            condition,
            first,
            second,
            ..
        } => {
            let branches = expression_cost(first) + expression_cost(second);
            expression_cost(condition) + branches + 1
        }
    }
}

fn statement_cost(statement: &KStmt) -> u32
    requires { statement_cost (statement_of statement.now) < 2 ^ 32 }
    ensures { result ≡ statement_cost (statement_of statement.now) }
{
    match statement {
        KStmt::Assign { value } => expression_cost(value),
        KStmt::Store { value, .. } => expression_cost(value) + 1,
    }
}

/// The cost of statements, one after the other.
fn cost_of(statements: &[KStmt]) -> u32
    requires { sum_by statement_cost (map statement_of statements.now) < 2 ^ 32 }
    ensures { result ≡ sum_by statement_cost (map statement_of statements.now) }
{
    let mut cost = 0;
    let mut rest = statements;
    'statements: while let [first, behind @ ..] = rest {
        cost += statement_cost(first);
        rest = behind;
    }
    cost
}

/// The number of loads, operations and stores as written. Takes no memory.
pub fn scalar_cost(kernel: &Kernel) -> u32
    requires { IsWellFormed (tree_of kernel.now) }
    ensures { result ≡ scalar_cost (tree_of kernel.now) }
{
    cost_of(kernel.statements.as_slice())
}
