//! The units of expressions and statements.

ghost use Rattle.std.specs.Prelude.{◌≡◌, ◌++◌, IfOk, OnOk, length, map, slice_index_or};
ghost use Rattle.vg_kernel.specs.Tree.{expression_of, statement_of, store};
ghost use Rattle.vg_ssa.specs.Built.{CanTake, Numbers, after_statement, built, choice_in, next, numbered_in, pair_in, single_in, statement_units};
ghost use Rattle.vg_ssa.specs.Numbering.{units_from};

use crate::values::Values;
use std::alloc::AllocError;
use vg_base::{Address, Width};
use vg_kernel::{KExpr, KStmt};
use vg_shapes::{Operands, Operator, SsaUnit, Wanted};

/// What stands for a name that a statement gave.
fn name_at(names: &[Wanted], number: u32) -> Wanted
    ensures { result ≡ slice_index_or names.now number Wanted.Nothing }
{
    names
        .get(number as usize)
        .copied()
        .unwrap_or(Wanted::Nothing)
}

impl Values {
    /// Numbers an expression, operands from left to right. Gives what stands for its value.
    #[cycle(number)]
    pub(crate) fn number(&mut self, expression: &KExpr) -> Result<Wanted, AllocError>
        requires { CanTake (built self.old)
            (numbered_in (built self.old) (expression_of expression.now)).units }
        ensures { IfOk result (λ x. Numbers (built self.old)
            (numbered_in (built self.old) (expression_of expression.now)) (built self.new) x) }
    {
        match expression {
            KExpr::Argument { number, .. } => Ok(Wanted::Value(*number)),
            KExpr::Assigned { number, .. } => Ok(name_at(&self.names, *number)),
            KExpr::Literal { width, number } => Ok(Wanted::Constant {
                width: width.bits(),
                value: *number as u128,
            }),
            KExpr::Load { width, address } => self.push(SsaUnit::Load {
                address: *address,
                width: *width,
            }),
            KExpr::Two {
                op,
                width,
                left,
                right,
            } => self.number_pair(Operator::Two(*op), *width, left, right),
            KExpr::Shift {
                op,
                width,
                amount,
                operand,
            } => self.number_single(Operator::Shift(*op), *width, *amount, operand),
            KExpr::Resize {
                op,
                width,
                from,
                operand,
            } => {
                let op = Operator::Resize {
                    op: *op,
                    from: *from,
                };
                self.number_single(op, *width, 0, operand)
            }
            KExpr::Compare {
                op,
                width,
                left,
                right,
            } => self.number_pair(Operator::Compare(*op), *width, left, right),
            KExpr::Select {
                width,
                condition,
                first,
                second,
            } => self.number_choice(*width, condition, first, second),
        }
    }

    // An operation on one expression.
    #[cycle(number)]
    fn number_single(
        &mut self,
        op: Operator,
        width: Width,
        amount: u32,
        x: &KExpr,
    ) -> Result<Wanted, AllocError>
        requires { CanTake (built self.old)
            (single_in (built self.old) op width amount (expression_of x.now)).units }
        ensures { IfOk result (λ v. Numbers (built self.old)
            (single_in (built self.old) op width amount (expression_of x.now)) (built self.new) v) }
    {
        let first = self.number(x)?;
        let operands = Operands {
            first,
            second: Wanted::Nothing,
            third: Wanted::Nothing,
        };
        self.push(SsaUnit::Operation {
            op,
            width,
            amount,
            operands,
        })
    }

    // An operation on two expressions.
    #[cycle(number)]
    fn number_pair(
        &mut self,
        op: Operator,
        width: Width,
        x: &KExpr,
        y: &KExpr,
    ) -> Result<Wanted, AllocError>
        requires { CanTake (built self.old)
            (pair_in (built self.old) op width (expression_of x.now) (expression_of y.now)).units }
        ensures { IfOk result (λ v. Numbers (built self.old)
            (pair_in (built self.old) op width (expression_of x.now) (expression_of y.now))
            (built self.new) v) }
    {
        let first = self.number(x)?;
        let second = self.number(y)?;
        let operands = Operands {
            first,
            second,
            third: Wanted::Nothing,
        };
        self.push(SsaUnit::Operation {
            op,
            width,
            amount: 0,
            operands,
        })
    }

    // A choice by one expression between two.
    #[cycle(number)]
    fn number_choice(
        &mut self,
        width: Width,
        c: &KExpr,
        x: &KExpr,
        y: &KExpr,
    ) -> Result<Wanted, AllocError>
        requires { CanTake (built self.old)
            (choice_in (built self.old) width (expression_of c.now) (expression_of x.now)
            (expression_of y.now)).units }
        ensures { IfOk result (λ v. Numbers (built self.old)
            (choice_in (built self.old) width (expression_of c.now) (expression_of x.now)
            (expression_of y.now)) (built self.new) v) }
    {
        let first = self.number(c)?;
        let second = self.number(x)?;
        let third = self.number(y)?;
        let operands = Operands {
            first,
            second,
            third,
        };
        self.push(SsaUnit::Operation {
            op: Operator::Select,
            width,
            amount: 0,
            operands,
        })
    }

    // Numbers a statement: a name stands for what its expression gives, or that is stored.
    fn number_statement(&mut self, statement: &KStmt) -> Result<(), AllocError>
        requires { CanTake (built self.old)
            (statement_units (built self.old) (statement_of statement.now)) }
        ensures { OnOk result
            (built self.new ≡ after_statement (built self.old) (statement_of statement.now)) }
    {
        match statement {
            KStmt::Assign { value } => {
                let name = self.number(value)?;
                self.names.push(name)?;
            }
            KStmt::Store {
                width,
                address,
                value: stored,
            } => self.number_store(*width, *address, stored)?,
        }
        Ok(())
    }

    // Numbers a store after the expression whose value it stores.
    fn number_store(
        &mut self,
        width: Width,
        address: Address,
        stored: &KExpr,
    ) -> Result<(), AllocError>
        requires { CanTake (built self.old)
            (statement_units (built self.old) (store width address (expression_of stored.now))) }
        ensures { OnOk result (built self.new
            ≡ after_statement (built self.old) (store width address (expression_of stored.now))) }
    {
        let value = self.number(stored)?;
        let _none = self.push(SsaUnit::Store {
            address,
            width,
            value,
        })?;
        Ok(())
    }

    /// Numbers statements in order.
    pub(crate) fn number_statements(&mut self, statements: &[KStmt]) -> Result<(), AllocError>
        requires { CanTake (built self.old)
            (units_from (next (built self.old)) (built self.old).names
            (map statement_of statements.now)) }
        ensures first { OnOk result ((built self.new).first ≡ (built self.old).first) }
        ensures units { OnOk result ((built self.new).units ≡ (built self.old).units
            ++ units_from (next (built self.old)) (built self.old).names
            (map statement_of statements.now)) }
    {
        let mut rest = statements;
        'statements: while let [statement, behind @ ..] = rest {
            self.number_statement(statement)?;
            rest = behind;
        }
        Ok(())
    }
}
