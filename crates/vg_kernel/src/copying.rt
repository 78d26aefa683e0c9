//! Copies of kernels.

ghost use Rattle.std.specs.Prelude.{◌≡◌, map, IfOk};
ghost use Rattle.vg_kernel.specs.Tree.{expression_of, statement_of, tree_of};

use crate::expression::KExpr;
use crate::kernel::Kernel;
use crate::operations::{make_compare, make_resize, make_select, make_shift, make_two};
use crate::parameter::KParam;
use crate::statement::KStmt;
use std::alloc::{AllocError, Global};
use vg_base::Items;

fn copy_expression(alloc: Global, expression: &KExpr) -> Result<KExpr, AllocError>
    ensures { IfOk result (λ copy. expression_of copy ≡ expression_of expression.now) }
{
    match *expression {
        KExpr::Argument { number, width } => Ok(KExpr::Argument { number, width }),
        KExpr::Assigned { number, value_type } => Ok(KExpr::Assigned { number, value_type }),
        KExpr::Literal { width, number } => Ok(KExpr::Literal { width, number }),
        KExpr::Load { width, address } => Ok(KExpr::Load { width, address }),
        KExpr::Two {
            op,
            width,
            ref left,
            ref right,
        } => {
            let left = copy_expression(alloc, left)?;
            let right = copy_expression(alloc, right)?;
            make_two(alloc, op, width, left, right)
        }
        KExpr::Shift {
            op,
            width,
            amount,
            ref operand,
        } => {
            let operand = copy_expression(alloc, operand)?;
            make_shift(alloc, op, width, amount, operand)
        }
        KExpr::Resize {
            op,
            width,
            from,
            ref operand,
        } => {
            let operand = copy_expression(alloc, operand)?;
            make_resize(alloc, op, width, from, operand)
        }
        KExpr::Compare {
            op,
            width,
            ref left,
            ref right,
        } => {
            let left = copy_expression(alloc, left)?;
            let right = copy_expression(alloc, right)?;
            make_compare(alloc, op, width, left, right)
        }
        KExpr::Select {
            width,
            ref condition,
            ref first,
            ref second,
        } => {
            let condition = copy_expression(alloc, condition)?;
            let first = copy_expression(alloc, first)?;
            let second = copy_expression(alloc, second)?;
            make_select(alloc, width, condition, first, second)
        }
    }
}

fn copy_statement(alloc: Global, statement: &KStmt) -> Result<KStmt, AllocError>
    ensures { IfOk result (λ copy. statement_of copy ≡ statement_of statement.now) }
{
    match statement {
        KStmt::Assign { value } => {
            let value = copy_expression(alloc, value)?;
            Ok(KStmt::Assign { value })
        }
        KStmt::Store {
            width,
            address,
            value,
        } => {
            let value = copy_expression(alloc, value)?;
            Ok(KStmt::Store {
                width: *width,
                address: *address,
                value,
            })
        }
    }
}

fn copy_statements(alloc: Global, statements: &[KStmt]) -> Result<Vec<KStmt>, AllocError>
    ensures { IfOk result
        (λ copies. map statement_of copies.items ≡ map statement_of statements.now) }
{
    let mut copies = Vec::new(alloc);
    let mut rest = statements;
    'statements: while let [statement, behind @ ..] = rest {
        let copy = copy_statement(alloc, statement)?;
        copies.push(copy)?;
        rest = behind;
    }
    Ok(copies)
}

fn copy_params(alloc: Global, params: &[KParam]) -> Result<Vec<KParam>, AllocError>
    ensures { IfOk result (λ copies. copies.items ≡ params.now) }
{
    let mut copies = Vec::new(alloc);
    'params: for param in params {
        let name = match param.name.copy(alloc) {
            Ok(name) => name,
            Err(error) => return Err(error),
        };
        copies.push(KParam {
            name,
            kind: param.kind,
        })?;
    }
    Ok(copies)
}

impl Kernel {
    /// A copy of the kernel. Fails for want of memory alone.
    pub fn copy(&self, alloc: Global) -> Result<Kernel, AllocError>
        ensures { IfOk result (λ kernel. tree_of kernel ≡ tree_of self.now) }
    {
        let name = self.name.copy(alloc)?;
        let params = copy_params(alloc, self.params.as_slice())?;
        let statements = copy_statements(alloc, self.statements.as_slice())?;
        Ok(Kernel {
            name,
            params: Items::from_vec(params),
            statements: Items::from_vec(statements),
        })
    }
}
