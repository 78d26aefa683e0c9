//! The cost of a plan of which nothing is known.

ghost use Rattle.std.specs.Prelude.{◌≡◌, ◌++◌, ◌∷◌, [], ℕ, IfOk, List, map};
ghost use Rattle.std.specs.List.{AllByRecursion};
ghost use Rattle.vg_cost.specs.Shuffling.{AreShuffles};
ghost use Rattle.vg_kernel_plans.specs.Packing.{packing};
ghost use Rattle.vg_kernel_plans.specs.Taken.{IsShort, MatchesNear};
ghost use Rattle.vg_plans.specs.World.{plan_cost};
ghost use Rattle.vg_shapes.specs.Description.{description_of};

use crate::lines::scalar_lines;
use crate::longer_plan::LongerPlan;
use crate::price::prices;
use crate::price_scratch::PriceScratch;
use crate::running::whole_cost;
use crate::shuffles::Shuffles;
use crate::taken::operands_cost;
use std::alloc::{AllocError, Global};
use vg_kernel_plans::marks::clear_marks;
use vg_kernel_plans::plan_operands::plan_operands;
use vg_shapes::{Description, MatchTable, Pack, Ssa};

/// What a plan costs that is these packs and a last one after them.
fn cost_with_last(
    alloc: Global,
    plan: &[Pack],
    packs: &[Pack],
    last: &Pack,
    descriptions: &[Description],
    table: &MatchTable,
    ssa: &Ssa,
    shuffles: &Shuffles,
) -> Result<u64, AllocError>
    requires near { MatchesNear table.now }
    requires short { AllByRecursion IsShort plan.now }
    requires shuffles { AreShuffles (map description_of descriptions.now) shuffles.now }
    requires whole { plan.now ≡ packs.now ++ last.now ∷ [] }
    ensures { IfOk result (λ c. (deps : List (ℕ × ℕ)) → c ≡ plan_cost
        (packing (map description_of descriptions.now) table.now ssa.now deps) plan.now) }
{
    let price = prices(descriptions, plan)?;
    let operands = plan_operands(alloc, descriptions, table, ssa, plan)?;
    let operands = operands.as_slice();
    let mut scratch = PriceScratch::new(alloc, ssa, packs)?;
    let before = scratch.plan.as_slice();
    scratch.tried.enter(before, last);
    let marks = scratch.tried.longer.as_slice();
    let own = scratch.tried.own.as_slice();
    let mut needed = clear_marks(alloc, marks.len())?;
    let needed = needed.as_mut_slice();
    let longer = LongerPlan {
        descriptions,
        ssa,
        packs,
        last,
        marks,
        own,
        shuffles,
    };
    let recipes = operands_cost(alloc, &longer, needed, operands)?;
    let cost = whole_cost(ssa, marks, needed, price, recipes)?;
    Ok(cost)
}

/// What a plan costs, where it is known which descriptions are shuffles.
pub(crate) fn cost_apart(
    alloc: Global,
    plan: &[Pack],
    descriptions: &[Description],
    table: &MatchTable,
    ssa: &Ssa,
    shuffles: &Shuffles,
) -> Result<u64, AllocError>
    requires near { MatchesNear table.now }
    requires short { AllByRecursion IsShort plan.now }
    requires shuffles { AreShuffles (map description_of descriptions.now) shuffles.now }
    ensures { IfOk result (λ c. (deps : List (ℕ × ℕ)) → c ≡ plan_cost
        (packing (map description_of descriptions.now) table.now ssa.now deps) plan.now) }
{
    match plan.split_last() {
        None => {
            let cost = scalar_lines(alloc, ssa, &[], &[])?;
            Ok(cost)
        }
        Some((last, packs)) => cost_with_last(
            alloc,
            plan,
            packs,
            last,
            descriptions,
            table,
            ssa,
            shuffles,
        ),
    }
}
