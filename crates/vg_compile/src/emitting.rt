//! The program of a plan.

ghost use Rattle.std.specs.Prelude.{◌≡◌, IfOk, map};
ghost use Rattle.vg_compile.specs.Emitted.{IsEmitted, with_scalar};
ghost use Rattle.vg_kernel_plans.specs.Fed.{IsFedPlanFor};
ghost use Rattle.vg_order.specs.Scheduled.{IsScheduled};
ghost use Rattle.vg_plan_laws.specs.Laws.{AreKnown};
ghost use Rattle.vg_shapes.specs.Depends.{dependences};
ghost use Rattle.vg_shapes.specs.Description.{description_of};
ghost use Rattle.vg_shapes.specs.Nodes.{IsOrder};

use std::alloc::{AllocError, Global};
use vg_emit::emit_described;
use vg_order::{OrderFault, schedule};
use vg_program::Program;
use vg_shapes::{DepList, Description, MatchTable, Order, Plan, Ssa};

// The order of a plan, which has one.
fn order_of(
    alloc: Global,
    descriptions: &[Description],
    plan: &Plan,
    table: &MatchTable,
    ssa: &Ssa,
    deps: &DepList,
) -> Result<Order, AllocError>
    requires known { AreKnown (map description_of descriptions.now) table.now ssa.now }
    requires deps { deps.now ≡ dependences ssa.now }
    requires plan { IsFedPlanFor (map description_of descriptions.now) table.now ssa.now deps.now
        plan.now }
    ensures legal { IfOk result (IsOrder ssa.now table.now plan.now) }
    ensures scheduled { IfOk result (IsScheduled (dependences ssa.now) ssa.now table.now plan.now) }
{
    let _descriptions = descriptions;
    match schedule(alloc, plan, table, ssa, deps) {
        Ok(order) => Ok(order),
        Err(OrderFault::Memory(error)) => Err(error),
        Err(OrderFault::Cycle(_)) => unreachable!(),
    }
}

/// The program of a plan in its order, with the recipes that its operands take.
pub(crate) fn emit_plan(
    alloc: Global,
    descriptions: &[Description],
    plan: &Plan,
    table: &MatchTable,
    ssa: &Ssa,
    deps: &DepList,
) -> Result<Program, AllocError>
    requires known { AreKnown (map description_of descriptions.now) table.now ssa.now }
    requires deps { deps.now ≡ dependences ssa.now }
    requires plan { IsFedPlanFor (map description_of descriptions.now) table.now ssa.now deps.now
        plan.now }
    ensures { IfOk result
        (IsEmitted (map description_of descriptions.now) table.now ssa.now plan.now) }
{
    let order = order_of(alloc, descriptions, plan, table, ssa, deps)?;
    emit_described(alloc, ssa, plan, &order, descriptions, table)
}

/// A program that states another scalar cost.
pub(crate) fn with_scalar(program: Program, scalar: u32) -> Program
    ensures { result ≡ with_scalar scalar program }
{
    let mut program = program;
    program.scalar = scalar;
    program
}
