//! The cost of a plan.

ghost use Rattle.std.specs.Prelude.{◌≡◌, ℕ, IfOk, List, map};
ghost use Rattle.std.specs.List.{AllByRecursion};
ghost use Rattle.vg_kernel_plans.specs.Packing.{packing};
ghost use Rattle.vg_kernel_plans.specs.Taken.{IsShort, MatchesNear};
ghost use Rattle.vg_plans.specs.World.{plan_cost};
ghost use Rattle.vg_shapes.specs.Description.{description_of};

use crate::lines::scalar_lines;
use crate::price::{plus, prices};
use crate::recipes::gather;
use std::alloc::{AllocError, Global};
use vg_kernel_plans::plan_operands::plan_operands;
use vg_shapes::{Description, MatchTable, Plan, Ssa};

/// What a plan costs: the lines of its packs, the recipes of the operands that they take, the units
/// that are still emitted and the values that are extracted. It is the same whatever the units
/// depend on. Fails for want of memory, and where the cost or a unit's number has too many bits to
/// be counted.
pub fn plan_cost(
    alloc: Global,
    plan: &Plan,
    descriptions: &[Description],
    table: &MatchTable,
    ssa: &Ssa,
) -> Result<u64, AllocError>
    requires near { MatchesNear table.now }
    requires short { AllByRecursion IsShort plan.now }
    ensures cost { IfOk result (λ c. (deps : List (ℕ × ℕ)) → c ≡ plan_cost
        (packing (map description_of descriptions.now) table.now ssa.now deps) plan.now) }
{
    let packs = plan.as_slice();
    let price = prices(descriptions, packs)?;
    let operands = plan_operands(alloc, descriptions, table, ssa, packs)?;
    let operands = operands.as_slice();
    let recipes = gather(alloc, descriptions, ssa, packs, operands)?;
    let lines = scalar_lines(alloc, ssa, packs, recipes.values.as_slice())?;
    let packed = plus(price, recipes.cost)?;
    plus(packed, lines)
}
